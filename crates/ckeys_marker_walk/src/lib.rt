//! The files that a preprocessed text says that it was made of.
#![tactic(auto)]

mod answer;
mod laws;
mod line;
mod markers;
mod names;
pub mod walk;

pub use answer::Walk;
pub use laws::{
    lines_have_one_reading, names_are_given_once, texts_name_their_files, texts_name_their_markers,
};
pub use line::Mark;
pub use markers::Markers;
pub use names::unescaped;
