//! Why words aren't expanded.

use base_files::OsBytes;
use std::alloc::{AllocError, AllocFailed};
use thiserror::Error;

/// Why a command line isn't read to its end.
#[derive(Debug, Drop, Error, PartialEq, Eq)]
pub enum ParseFault {
    /// Out of memory.
    #[error("no memory was left")]
    Memory,
    /// An I/O error on this path.
    #[error("cannot read {0}")]
    Read(OsBytes),
}

impl From<AllocError> for ParseFault {
    ghost use Rattle.std.specs.Prelude.{◌≡◌};
    ghost use Rattle.cmdlines_response_files.specs.declared.fault.ParseFault.TheVariants.{Memory};

    ghost from_gives = { λ _ e. e ≡ Memory };

    fn from(_error: AllocError) -> ParseFault {
        ParseFault::Memory
    }
}

impl<T: Drop> From<AllocFailed<T>> for ParseFault {
    ghost use Rattle.std.specs.Prelude.{◌≡◌};
    ghost use Rattle.cmdlines_response_files.specs.declared.fault.ParseFault.TheVariants.{Memory};

    ghost from_gives = { λ _ e. e ≡ Memory };

    fn from(_error: AllocFailed<T>) -> ParseFault {
        ParseFault::Memory
    }
}
