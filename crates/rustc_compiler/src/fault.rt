//! Why there is no compiler.

use base_files::OsBytes;
use std::alloc::{AllocError, AllocFailed};
use thiserror::Error;

/// Why a compiler isn't made of what is known of it.
#[derive(Debug, Drop, Error, PartialEq, Eq)]
pub enum RustFault {
    /// Out of memory.
    #[error("no memory was left")]
    Memory,
    /// No line of its version begins with `host: `.
    #[error("the version tells no host")]
    NoHost,
    /// A file of its toolchain isn't there, or there was an I/O error on this path.
    #[error("cannot read {0}")]
    Read(OsBytes),
}

impl From<AllocError> for RustFault {
    ghost use Rattle.std.specs.Prelude.{◌≡◌};
    ghost use Rattle.rustc_compiler.specs.declared.fault.RustFault.TheVariants.{Memory};

    ghost from_gives = { λ _ e. e ≡ Memory };

    fn from(_error: AllocError) -> RustFault {
        RustFault::Memory
    }
}

impl<T: Drop> From<AllocFailed<T>> for RustFault {
    ghost use Rattle.std.specs.Prelude.{◌≡◌};
    ghost use Rattle.rustc_compiler.specs.declared.fault.RustFault.TheVariants.{Memory};

    ghost from_gives = { λ _ e. e ≡ Memory };

    fn from(_error: AllocFailed<T>) -> RustFault {
        RustFault::Memory
    }
}
