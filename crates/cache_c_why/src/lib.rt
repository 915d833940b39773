//! What differed between two calls of a C compiler with the same outputs: of each one that was compiled it is kept of what its key was made.
#![tactic(auto)]

mod fingerprints;
mod part_files;
mod parts;
mod short_text;

pub use fingerprints::{note_fingerprint, why_of_c};
