//! What a preprocessed text doesn't say of its sources: the lines as they were written, which debug information, checks and messages hang on.
#![tactic(auto)]

mod asked;
mod lines;
mod named;
mod plain_names;
mod sources;
mod written;

pub use asked::{Asked, has_any};
pub use lines::{digest_asked, digest_of_contents};
pub use named::{Lying, NamedFile, NamedFiles, reads_as_file};
pub use plain_names::with_plain_names;
pub use sources::{Source, Sources};
