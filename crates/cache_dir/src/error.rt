//! Why something isn't in the folder, or couldn't be put there.

use base_formats::ReadFault;
use ckeys_base::error::Error;
use std::alloc::{AllocError, AllocFailed};
use std::{fmt, io};

/// Why a file of the folder couldn't be read or written.
#[derive(Drop)]
pub enum CacheDirError {
    /// Out of memory.
    Memory,
    /// The disk failed.
    Device,
    /// A name or a file isn't what this folder holds.
    Unreadable,
}

impl From<AllocError> for CacheDirError {
    ghost use Rattle.std.specs.Prelude.{◌≡◌};
    ghost use Rattle.cache_dir.specs.declared.error.CacheDirError.TheVariants.{Memory};

    ghost from_gives = { λ _ e. e ≡ Memory };

    fn from(_error: AllocError) -> CacheDirError {
        CacheDirError::Memory
    }
}

impl<T: Drop> From<AllocFailed<T>> for CacheDirError {
    ghost use Rattle.std.specs.Prelude.{◌≡◌};
    ghost use Rattle.cache_dir.specs.declared.error.CacheDirError.TheVariants.{Memory};

    ghost from_gives = { λ _ e. e ≡ Memory };

    fn from(_error: AllocFailed<T>) -> CacheDirError {
        CacheDirError::Memory
    }
}

impl From<io::Error> for CacheDirError {
    fn from(_error: io::Error) -> CacheDirError {
        CacheDirError::Device
    }
}

impl From<fmt::Error> for CacheDirError {
    fn from(_error: fmt::Error) -> CacheDirError {
        CacheDirError::Memory
    }
}

impl From<ReadFault> for CacheDirError {
    fn from(fault: ReadFault) -> CacheDirError {
        match fault {
            ReadFault::Memory => CacheDirError::Memory,
            ReadFault::Unfit => CacheDirError::Unreadable,
        }
    }
}

impl From<Error> for CacheDirError {
    fn from(error: Error) -> CacheDirError {
        match error {
            Error::Memory => CacheDirError::Memory,
            Error::Io => CacheDirError::Device,
            Error::Deserialization | Error::UnknownFormat(_) => CacheDirError::Unreadable,
        }
    }
}
