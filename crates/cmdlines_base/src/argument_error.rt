//! Why words give no arguments, and arguments no texts.

ghost use Rattle.std.specs.Prelude.{◌≡◌};

use base_files::OsBytes;
use std::alloc::{AllocError, AllocFailed};
use thiserror::Error;

/// Why words can't be cut, or a word isn't a value.
#[derive(Debug, Drop, Error, PartialEq, Eq)]
pub enum ArgParseError {
    /// The words end where a value should come.
    #[error("the arguments end where a value should come")]
    UnexpectedEndOfArgs,
    /// A word that should be text isn't UTF-8.
    #[error("an argument is not UTF-8: {0:?}")]
    InvalidUnicode(OsBytes),
    /// A value that its option doesn't take, and why.
    #[error("{0}")]
    Other(&'static str),
    /// Out of memory.
    #[error("no memory was left")]
    Memory,
}

/// What reading arguments answers.
pub type ArgParseResult<T> = Result<T, ArgParseError>;

impl From<AllocError> for ArgParseError {
    ghost use Rattle.cmdlines_base.specs.declared.argument_error.ArgParseError.TheVariants.{Memory};

    ghost from_gives = { λ _ e. e ≡ Memory };

    fn from(_error: AllocError) -> ArgParseError {
        ArgParseError::Memory
    }
}

impl<T: Drop> From<AllocFailed<T>> for ArgParseError {
    ghost use Rattle.cmdlines_base.specs.declared.argument_error.ArgParseError.TheVariants.{Memory};

    ghost from_gives = { λ _ e. e ≡ Memory };

    fn from(_error: AllocFailed<T>) -> ArgParseError {
        ArgParseError::Memory
    }
}

/// Why an argument has no text.
#[derive(Debug, Drop, Error, PartialEq, Eq)]
pub enum ArgToStringError {
    /// The transformer gave no text for a path.
    #[error("a path cannot be transformed: {0:?}")]
    FailedPathTransform(OsBytes),
    /// A word isn't UTF-8.
    #[error("an argument is not UTF-8: {0:?}")]
    InvalidUnicode(OsBytes),
    /// Out of memory.
    #[error("no memory was left")]
    Memory,
}

/// What printing an argument as text answers.
pub type ArgToStringResult = Result<String, ArgToStringError>;

impl From<AllocError> for ArgToStringError {
    ghost use Rattle.cmdlines_base.specs.declared.argument_error.ArgToStringError.TheVariants.{Memory};

    ghost from_gives = { λ _ e. e ≡ Memory };

    fn from(_error: AllocError) -> ArgToStringError {
        ArgToStringError::Memory
    }
}
