//! Why settings can't be read or set.

use std::alloc::{AllocError, AllocFailed};
use std::fmt;

/// Why settings can't be read or set.
#[derive(Drop)]
pub enum SettingsError {
    /// Out of memory.
    Memory,
    /// A file of settings can't be read or written: which, and what the system says.
    Device(String),
    /// An invalid line or value: where it is, and what would be valid.
    Wrong(String),
}

impl fmt::Display for SettingsError {
    fn fmt<W: fmt::Write>(&self, f: &mut fmt::Formatter<W>) -> fmt::Result {
        match self {
            SettingsError::Memory => f.write_str("no memory"),
            SettingsError::Device(text) | SettingsError::Wrong(text) => f.write_str(text.as_str()),
        }
    }
}

impl From<AllocError> for SettingsError {
    fn from(_error: AllocError) -> SettingsError {
        SettingsError::Memory
    }
}

impl<T: Drop> From<AllocFailed<T>> for SettingsError {
    fn from(_error: AllocFailed<T>) -> SettingsError {
        SettingsError::Memory
    }
}

impl From<fmt::Error> for SettingsError {
    fn from(_error: fmt::Error) -> SettingsError {
        SettingsError::Memory
    }
}
