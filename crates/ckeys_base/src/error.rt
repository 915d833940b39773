//! Why bytes aren't read or written, and why they are no record.

ghost use Rattle.std.specs.Prelude.{◌≡◌};
ghost use Rattle.ckeys_base.specs.declared.error.Error.TheVariants.{Io, Memory};

use std::alloc::{AllocError, AllocFailed};
use std::io;

/// Why there is no digest of a reader, or no record, or none is written.
#[derive(Clone, Copy, Debug, PartialEq, Eq, thiserror::Error)]
pub enum Error {
    /// The reader or the writer failed, or 2 ^ 64 reads didn't come to the end of the reader.
    #[error("the bytes cannot be read or written")]
    Io,
    /// The bytes after the first one aren't written for any record.
    #[error("the bytes are no record")]
    Deserialization,
    /// The first byte isn't that of the layout of records.
    #[error("the record has the unknown format {0}")]
    UnknownFormat(u8),
    /// Out of memory.
    #[error("no memory was left")]
    Memory,
}

impl From<io::Error> for Error {
    ghost from_gives = { λ _ e. e ≡ Io };

    fn from(_error: io::Error) -> Error {
        Error::Io
    }
}

impl From<AllocError> for Error {
    ghost from_gives = { λ _ e. e ≡ Memory };

    fn from(_error: AllocError) -> Error {
        Error::Memory
    }
}

impl<T: Drop> From<AllocFailed<T>> for Error {
    ghost from_gives = { λ _ e. e ≡ Memory };

    fn from(_error: AllocFailed<T>) -> Error {
        Error::Memory
    }
}
