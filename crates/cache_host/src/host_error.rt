//! Why no decision is made. The host runs the compiler then.

use base_formats::ReadFault;
use cache_dir::CacheDirError;
use std::alloc::{AllocError, AllocFailed};
use std::{fmt, io};
use thiserror::Error;

/// Why no decision was made.
#[derive(Debug, Drop, Error, PartialEq, Eq)]
pub enum HostError {
    /// Out of memory.
    #[error("no memory")]
    Memory,
    /// A file or the host couldn't be read or written.
    #[error("a file or the host can't be read or written")]
    Device,
    /// What the host says, or a path that must be text, isn't readable.
    #[error("a path or a message is no text")]
    Unreadable,
    /// The text takes in files as it is assembled.
    #[error("the text takes in files")]
    TakesFiles,
    /// The text has the time at which it was printed, and what is made of it has another.
    #[error("the text tells its own time")]
    TellsTime,
    /// The compiler is a script, which may run anything.
    #[error("the compiler is a script")]
    Script,
    /// Messages may quote lines that the text doesn't name.
    #[error("messages may quote what isn't known")]
    Quotes,
    /// A precompiled header may be taken in place of one that the text shows.
    #[error("a precompiled header is in reach")]
    Precompiled,
    /// A file that the text has was changed before it was compiled.
    #[error("a file was changed while it was compiled")]
    Changed,
    /// The compiler doesn't say what it runs.
    #[error("the compiler doesn't name its parts")]
    Parts,
    /// The compiler reads a configuration file, which isn't looked at.
    #[error("the compiler has a configuration file")]
    Configuration,
    /// A folder that isn't to count isn't absolute, or is only slashes.
    #[error("a folder that base_dir names isn't absolute, or is only slashes")]
    Folder,
    /// There is no command to report on.
    #[error("--why takes a compiler's command: --help lists all options")]
    Command,
}

impl From<AllocError> for HostError {
    ghost use Rattle.std.specs.Prelude.{◌≡◌};
    ghost use Rattle.cache_host.specs.declared.host_error.HostError.TheVariants.{Memory};

    ghost from_gives = { λ _ e. e ≡ Memory };

    fn from(_error: AllocError) -> HostError {
        HostError::Memory
    }
}

impl<T: Drop> From<AllocFailed<T>> for HostError {
    ghost use Rattle.std.specs.Prelude.{◌≡◌};
    ghost use Rattle.cache_host.specs.declared.host_error.HostError.TheVariants.{Memory};

    ghost from_gives = { λ _ e. e ≡ Memory };

    fn from(_error: AllocFailed<T>) -> HostError {
        HostError::Memory
    }
}

impl From<io::Error> for HostError {
    fn from(_error: io::Error) -> HostError {
        HostError::Device
    }
}

impl From<fmt::Error> for HostError {
    fn from(_error: fmt::Error) -> HostError {
        HostError::Memory
    }
}

impl From<ReadFault> for HostError {
    fn from(fault: ReadFault) -> HostError {
        match fault {
            ReadFault::Memory => HostError::Memory,
            ReadFault::Unfit => HostError::Unreadable,
        }
    }
}

impl From<CacheDirError> for HostError {
    fn from(error: CacheDirError) -> HostError {
        match error {
            CacheDirError::Memory => HostError::Memory,
            CacheDirError::Device => HostError::Device,
            CacheDirError::Unreadable => HostError::Unreadable,
        }
    }
}
