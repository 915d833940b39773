//! Why counters couldn't be read or written.

use std::alloc::{AllocError, AllocFailed};
use std::{fmt, io};

/// Why counters couldn't be read or written.
#[derive(Drop)]
pub enum StatisticsError {
    /// Out of memory.
    Memory,
    /// The disk failed.
    Device,
}

impl From<AllocError> for StatisticsError {
    fn from(_error: AllocError) -> StatisticsError {
        StatisticsError::Memory
    }
}

impl<T: Drop> From<AllocFailed<T>> for StatisticsError {
    fn from(_error: AllocFailed<T>) -> StatisticsError {
        StatisticsError::Memory
    }
}

impl From<io::Error> for StatisticsError {
    fn from(_error: io::Error) -> StatisticsError {
        StatisticsError::Device
    }
}

impl From<fmt::Error> for StatisticsError {
    fn from(_error: fmt::Error) -> StatisticsError {
        StatisticsError::Memory
    }
}
