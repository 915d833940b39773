//! The rustc of a command line: its real file, not rustup's proxy, its version, its folder of libraries, and the digest of these. What a
//! session is asked about a call of it: why it isn't asked at all, for which words are known, and what is bound to the key beside what it
//! hashes itself. And what is kept of such calls: results with their messages, and of what their keys were made, for whoever asks why one was
//! compiled.
#![tactic(auto)]

mod additions;
mod asking;
mod messages;
mod noted_parts;
mod parts;
mod passing;
mod results;
mod rustc;
mod tables;
mod why;
mod words;

pub use additions::{additions_of, variable_of, variables_of};
pub use asking::{printed_for, said_for, toolchain_word};
pub use noted_parts::{PartRows, name_of_parts, note_parts};
pub use parts::{archives_in, has_loaded};
pub use passing::{has_json, reason_against};
pub use results::{FoundCrate, Wishes, found, keep};
pub use rustc::{is_named_rustc, rustc_at};
pub use why::why_of_rustc;
