//! Response files: their texts are split into words, and command lines whose words name them are expanded.
#![tactic(auto)]

mod chain;
mod decoding;
mod diab;
mod expansion;
mod fault;
pub mod gcc;
mod gnu_texts;
mod known;
mod laws;
pub mod msvc;
mod msvc_texts;
mod opening;
mod style;
mod text_laws;
mod unread;
mod words;

pub use decoding::decode_response_text;
pub use diab::{DiabFiles, ExpandAtArgs};
pub use expansion::expand;
pub use fault::ParseFault;
pub use gnu_texts::split_gnu_response_file_args;
pub use known::KnownFiles;
pub use laws::{expansion_is_recursion, other_words_stay};
pub use msvc_texts::SplitMsvcResponseFileArgs;
pub use style::Style;
pub use text_laws::{
    empty_quotes_are_an_argument, gnu_texts_have_one_reading, msvc_texts_have_one_reading,
};
pub use words::{ExpandedWords, Opens};
