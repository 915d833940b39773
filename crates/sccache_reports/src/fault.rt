//! Why a report stopped.

use cmdlines_response_files::ParseFault;
use json::Invalid;
use std::alloc::{AllocError, AllocFailed};
use std::io;
use std::io::ErrorKind;
use thiserror::Error;

/// Why there is no report.
#[derive(Debug, Drop, Error)]
pub enum ReportFault {
    /// The arguments aren't those that are taken.
    #[error("sccache-report: arguments cannot be read: see --help")]
    Arguments,
    /// Standard input failed.
    #[error("sccache-report: input cannot be read")]
    Input,
    /// The database is no JSON.
    #[error("sccache-report: the database is not JSON")]
    NotJson,
    /// The database is no list.
    #[error("sccache-report: the database is not a list")]
    NotAList,
    /// What is wrong with the entry of this number.
    #[error("sccache-report: entry {0}: {1}")]
    Entry(u64, &'static str),
    /// Standard output failed.
    #[error("sccache-report: output cannot be written")]
    Output,
    /// Out of memory.
    #[error("sccache-report: memory")]
    Memory,
}

impl From<AllocError> for ReportFault {
    fn from(_error: AllocError) -> ReportFault {
        ReportFault::Memory
    }
}

impl<T: Drop> From<AllocFailed<T>> for ReportFault {
    fn from(_error: AllocFailed<T>) -> ReportFault {
        ReportFault::Memory
    }
}

impl From<Invalid> for ReportFault {
    fn from(_error: Invalid) -> ReportFault {
        ReportFault::NotJson
    }
}

/// Files in memory don't fail.
impl From<ParseFault> for ReportFault {
    fn from(_fault: ParseFault) -> ReportFault {
        ReportFault::Memory
    }
}

/// `Memory` where the I/O error was out of memory, and the other fault where it is anything else.
pub(crate) fn fault_of(error: &io::Error, other: ReportFault) -> ReportFault {
    if error.kind() == ErrorKind::OutOfMemory {
        ReportFault::Memory
    } else {
        other
    }
}
