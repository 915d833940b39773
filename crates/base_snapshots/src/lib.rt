//! The files of a call as they were loaded: a name that was not loaded is an error, and is remembered.
#![tactic(auto)]

mod files;

pub use files::{LoadedFile, SnapshotFiles};
