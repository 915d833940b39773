//! How Msvc opens words.

ghost use Rattle.cmdlines_response_files.specs.declared.style.Style.TheVariants.{Msvc};

use crate::style::Style;
use crate::words::{ExpandedWords, Opens};

/// The way of Msvc.
#[derive(Drop)]
pub enum MsvcFiles {}

impl Opens for MsvcFiles {
    ghost style = { Msvc };

    fn style() -> Style {
        Style::Msvc
    }
}

/// The words of a command line for Msvc, with the response files that they name opened.
pub type ExpandIncludeFile = ExpandedWords<MsvcFiles>;
