//! A command line of a build.

use crate::executables::EntryCompiler;
use base_files::{Listed, OsBytes};

/// A command line of a build.
#[derive(Drop)]
pub struct Entry {
    /// The compiler, where its executable's name shows which it is.
    pub compiler: Option<EntryCompiler>,
    /// The executable that compiles, as it is written in the command line.
    pub executable: OsBytes,
    /// The words after it.
    pub words: Listed<OsBytes>,
    /// The folder in which it is run.
    pub dir: OsBytes,
}
