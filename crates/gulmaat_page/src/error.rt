//! Why nothing is shown.

use std::alloc::{AllocError, AllocFailed, Global};
use std::{fmt, io};

/// Why nothing is shown.
#[derive(Drop)]
pub enum PageError {
    /// Out of memory.
    Memory,
    /// The arguments are no text, or what is shown can't be written.
    Device,
    /// A file can't be read or written, or the words are wrong: what is said of that.
    Said(String),
}

impl PageError {
    /// Words that are wrong, in place of which these are right.
    pub fn wrong(alloc: Global, right: &str) -> PageError {
        match format!(in alloc; "write {right}: gulmaat --help lists all options") {
            Ok(text) => PageError::Said(text),
            Err(_) => PageError::Memory,
        }
    }
}

impl fmt::Display for PageError {
    fn fmt<W: fmt::Write>(&self, f: &mut fmt::Formatter<W>) -> fmt::Result {
        match self {
            PageError::Memory => f.write_str("no memory"),
            PageError::Device => {
                f.write_str("an argument is no text, or what is shown can't be written")
            }
            PageError::Said(text) => f.write_str(text.as_str()),
        }
    }
}

impl From<AllocError> for PageError {
    fn from(_error: AllocError) -> PageError {
        PageError::Memory
    }
}

impl<T: Drop> From<AllocFailed<T>> for PageError {
    fn from(_error: AllocFailed<T>) -> PageError {
        PageError::Memory
    }
}

impl From<fmt::Error> for PageError {
    fn from(_error: fmt::Error) -> PageError {
        PageError::Memory
    }
}

impl From<io::Error> for PageError {
    fn from(_error: io::Error) -> PageError {
        PageError::Device
    }
}
