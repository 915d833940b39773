//! How Diab opens words.

ghost use Rattle.cmdlines_response_files.specs.declared.style.Style.TheVariants.{Diab};

use crate::style::Style;
use crate::words::{ExpandedWords, Opens};

/// The way of Diab.
#[derive(Drop)]
pub enum DiabFiles {}

impl Opens for DiabFiles {
    ghost style = { Diab };

    fn style() -> Style {
        Style::Diab
    }
}

/// The words of a command line for Diab, with the response files that they name opened.
pub type ExpandAtArgs = ExpandedWords<DiabFiles>;
