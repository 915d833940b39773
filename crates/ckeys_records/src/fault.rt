//! Why a call that isn't passed through has no outputs.

ghost use Rattle.std.specs.Prelude.{◌≡◌};

use crate::step::Step;
use base_files::OsBytes;
use cmdlines_response_files::ParseFault;
use std::alloc::{AllocError, AllocFailed};
use thiserror::Error;

/// What went wrong.
#[derive(Clone, Debug, Drop, Error, PartialEq, Eq)]
pub enum Fault {
    /// Out of memory.
    #[error("memory")]
    Memory,
    /// An I/O error occurred on this path, or a file that is needed isn't there.
    #[error("read {0}")]
    Read(OsBytes),
    /// The tool had an I/O error in that step.
    #[error("tool {0}")]
    Tool(Step),
    /// The preprocessor ended with that status, which isn't 0; or rustc did, asked for its dependencies or the names of its outputs.
    #[error("preprocess {0}")]
    PreprocessFailed(i32),
    /// The compiler ended with that status, which isn't 0.
    #[error("compile {0}")]
    CompileFailed(i32),
    /// The compiler ended with status 0, and this is the first demanded output that it didn't make.
    #[error("missing {0}")]
    MissingOutput(OsBytes),
    /// The first line of a text on rustc's dependencies is no rule.
    #[error("rule")]
    NoRule,
    /// What rustc answered in that step isn't UTF-8.
    #[error("answer {0}")]
    AnswerNotUtf8(Step),
    /// The digest of the static library of this path isn't one.
    #[error("digest {0}")]
    BadDigest(OsBytes),
}

impl From<AllocError> for Fault {
    ghost use Rattle.ckeys_records.specs.declared.fault.Fault.TheVariants.{Memory};

    ghost from_gives = { λ _ f. f ≡ Memory };

    fn from(_error: AllocError) -> Fault {
        Fault::Memory
    }
}

impl<T: Drop> From<AllocFailed<T>> for Fault {
    ghost use Rattle.ckeys_records.specs.declared.fault.Fault.TheVariants.{Memory};

    ghost from_gives = { λ _ f. f ≡ Memory };

    fn from(_error: AllocFailed<T>) -> Fault {
        Fault::Memory
    }
}

/// A fault of files is that of the call.
impl From<ParseFault> for Fault {
    ghost use Rattle.ckeys_records.specs.Faults.{fault_by};

    ghost from_gives = { λ parse_fault f. f ≡ fault_by parse_fault };

    fn from(fault: ParseFault) -> Fault {
        match fault {
            ParseFault::Memory => Fault::Memory,
            ParseFault::Read(path) => Fault::Read(path),
        }
    }
}
