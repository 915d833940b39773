//! rustc's requests: what follows from their words alone.
#![tactic(auto)]

mod closing;
mod deciding;
mod expansion;
mod facts;
mod laws;
mod libraries;
mod notification;
pub mod parse;
mod response_text;

pub use expansion::{ExpandResponseFile, expand_rustc, files_of_words_open_once};
pub use facts::Facts;
pub use laws::first_that_decides_does;
pub use notification::is_rmeta_artifact_notification;
pub use response_text::split_rust_response_file_args;
