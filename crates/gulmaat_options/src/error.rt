//! Why what a user asked for wasn't done.

use cache_dir::CacheDirError;
use cache_settings::SettingsError;
use cache_statistics::StatisticsError;
use std::alloc::{AllocError, AllocFailed};
use std::{fmt, io};

/// Why it wasn't done.
#[derive(Drop)]
pub enum OptionError {
    /// Out of memory.
    Memory,
    /// Something couldn't be read or written.
    Device,
    /// What was asked for is wrong, or what is set: what, and what is right.
    Wrong(String),
}

impl fmt::Display for OptionError {
    fn fmt<W: fmt::Write>(&self, f: &mut fmt::Formatter<W>) -> fmt::Result {
        match self {
            OptionError::Memory => f.write_str("no memory"),
            OptionError::Device => f.write_str("a file can't be read or written"),
            OptionError::Wrong(text) => f.write_str(text.as_str()),
        }
    }
}

impl From<AllocError> for OptionError {
    fn from(_error: AllocError) -> OptionError {
        OptionError::Memory
    }
}

impl<T: Drop> From<AllocFailed<T>> for OptionError {
    fn from(_error: AllocFailed<T>) -> OptionError {
        OptionError::Memory
    }
}

impl From<io::Error> for OptionError {
    fn from(_error: io::Error) -> OptionError {
        OptionError::Device
    }
}

impl From<fmt::Error> for OptionError {
    fn from(_error: fmt::Error) -> OptionError {
        OptionError::Memory
    }
}

impl From<CacheDirError> for OptionError {
    fn from(error: CacheDirError) -> OptionError {
        match error {
            CacheDirError::Memory => OptionError::Memory,
            CacheDirError::Device | CacheDirError::Unreadable => OptionError::Device,
        }
    }
}

impl From<StatisticsError> for OptionError {
    fn from(error: StatisticsError) -> OptionError {
        match error {
            StatisticsError::Memory => OptionError::Memory,
            StatisticsError::Device => OptionError::Device,
        }
    }
}

impl From<SettingsError> for OptionError {
    fn from(error: SettingsError) -> OptionError {
        match error {
            SettingsError::Memory => OptionError::Memory,
            SettingsError::Device(text) | SettingsError::Wrong(text) => OptionError::Wrong(text),
        }
    }
}
