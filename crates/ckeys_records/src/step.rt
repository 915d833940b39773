//! The steps of a call that a tool runs.

use std::fmt;

/// What a tool is asked for.
#[derive(Clone, Copy, Debug, PartialEq, Eq)]
pub enum Step {
    Preprocess,
    Compile,
    /// What a text on rustc's dependencies is asked by.
    DepInfo,
    /// What the names of rustc's outputs are asked by.
    FileNames,
    /// What the digest of a static library is asked by.
    ArchiveDigest,
}

impl fmt::Display for Step {
    fn fmt<W: fmt::Write>(&self, f: &mut fmt::Formatter<W>) -> fmt::Result {
        match self {
            Step::Preprocess => write!(f, "preprocess"),
            Step::Compile => write!(f, "compile"),
            Step::DepInfo => write!(f, "dep-info"),
            Step::FileNames => write!(f, "file-names"),
            Step::ArchiveDigest => write!(f, "archive-digest"),
        }
    }
}
