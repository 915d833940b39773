//! How Gcc and Clang open words.

ghost use Rattle.cmdlines_response_files.specs.declared.style.Style.TheVariants.{Gnu};

use crate::style::Style;
use crate::words::{ExpandedWords, Opens};

/// The way of Gcc and Clang.
#[derive(Drop)]
pub enum GnuFiles {}

impl Opens for GnuFiles {
    ghost style = { Gnu };

    fn style() -> Style {
        Style::Gnu
    }
}

/// The words of a command line for Gcc and Clang, with the response files that they name opened.
pub type ExpandIncludeFile = ExpandedWords<GnuFiles>;
