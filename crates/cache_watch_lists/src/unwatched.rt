//! Why a text has no list of what to watch: no manifest says then of what it is made.

use base_formats::ReadFault;
use cache_dir::CacheDirError;
use std::alloc::{AllocError, AllocFailed};
use std::{fmt, io};
use thiserror::Error;

/// Why there is no list. Counters are called by these texts.
#[derive(Clone, Copy, Debug, Error, PartialEq, Eq)]
pub enum Unwatched {
    #[error("no memory")]
    Memory,
    #[error("unreadable file")]
    Device,
    /// A source asks for a file by a name that it computes, or takes in a file by other means.
    #[error("computed name")]
    Computed,
    /// The words have the compiler look for files in a way of its own, or a macro of theirs may ask for a file, or bring a day or a time into
    /// the text.
    #[error("option")]
    Words,
    /// A source has the macro of the time of day.
    #[error("time macro")]
    Time,
    /// A day or a time may be pasted.
    #[error("pasted time")]
    Pasted,
    /// A path can't be asked, or a link leads nowhere.
    #[error("unclear path")]
    Path,
    /// A file was changed since the call began, or it isn't certain that it wasn't.
    #[error("changed file")]
    Changed,
    /// Of two equal files that are taken in once alone, the second one may be skipped by its time.
    #[error("equal files")]
    Equal,
    /// A precompiled header may be taken in place of one that the text shows.
    #[error("precompiled header")]
    Precompiled,
    /// The compiler doesn't say where it looks.
    #[error("no search list")]
    List,
}

impl From<AllocError> for Unwatched {
    fn from(_error: AllocError) -> Unwatched {
        Unwatched::Memory
    }
}

impl<T: Drop> From<AllocFailed<T>> for Unwatched {
    fn from(_error: AllocFailed<T>) -> Unwatched {
        Unwatched::Memory
    }
}

impl From<fmt::Error> for Unwatched {
    fn from(_error: fmt::Error) -> Unwatched {
        Unwatched::Memory
    }
}

impl From<io::Error> for Unwatched {
    fn from(_error: io::Error) -> Unwatched {
        Unwatched::Device
    }
}

impl From<ReadFault> for Unwatched {
    fn from(fault: ReadFault) -> Unwatched {
        match fault {
            ReadFault::Memory => Unwatched::Memory,
            ReadFault::Unfit => Unwatched::Device,
        }
    }
}

impl From<CacheDirError> for Unwatched {
    fn from(error: CacheDirError) -> Unwatched {
        match error {
            CacheDirError::Memory => Unwatched::Memory,
            CacheDirError::Device | CacheDirError::Unreadable => Unwatched::Device,
        }
    }
}
