//! What the program before a real compiler and its host say to each other: the command line that is asked about, what outputs hang on beside
//! text, words and compiler, what the host is asked to run, and why no decision is made.
#![tactic(auto)]

mod additions;
mod asking;
mod command_line;
mod digests;
mod fields;
mod host;
mod host_error;

pub use additions::{ADDITIONS_VARIABLE, Additions, difference_of_additions};
pub use asking::{Said, messages_of, push_words, words_of};
pub use command_line::{CommandLine, LineVariables};
pub use digests::LETTERS;
pub use fields::{Fields, into_text, text_in};
pub use host::{Ended, Host, Tally, tell_line};
pub use host_error::HostError;
