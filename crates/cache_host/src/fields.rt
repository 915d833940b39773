//! The fields of a message, one after the other.

use crate::host_error::HostError;
use base_files::{Listed, OsBytes};
use base_formats::{read_framed, read_number};
use std::alloc::Global;

/// What is left of a message.
#[derive(Drop)]
pub struct Fields<'a> {
    rest: &'a [u8],
}

impl<'a> Fields<'a> {
    /// All of it.
    pub fn of(message: &'a [u8]) -> Fields<'a> {
        Fields { rest: message }
    }

    /// Whether nothing is left.
    pub fn is_empty(&self) -> bool {
        self.rest.is_empty()
    }

    /// The number that comes next.
    pub fn number(&mut self) -> Result<u64, HostError> {
        let (number, rest) = read_number(self.rest)?;
        self.rest = rest;
        Ok(number)
    }

    /// The bytes that come next.
    pub fn bytes(&mut self, alloc: Global) -> Result<OsBytes, HostError> {
        let (bytes, rest) = read_framed(self.rest)?;
        self.rest = rest;
        Ok(OsBytes::from_slice(alloc, bytes)?)
    }

    /// The text that comes next.
    pub fn text(&mut self, alloc: Global) -> Result<String, HostError> {
        into_text(self.bytes(alloc)?)
    }

    /// The list that comes next.
    pub fn words(&mut self, alloc: Global) -> Result<Listed<OsBytes>, HostError> {
        let mut words = Listed::new(alloc);
        for _ in 0..self.number()? {
            words.push(self.bytes(alloc)?)?;
        }
        Ok(words)
    }

    /// The list of pairs that comes next.
    pub fn pairs(&mut self, alloc: Global) -> Result<Listed<(OsBytes, OsBytes)>, HostError> {
        let mut pairs = Listed::new(alloc);
        for _ in 0..self.number()? {
            let name = self.bytes(alloc)?;
            pairs.push((name, self.bytes(alloc)?))?;
        }
        Ok(pairs)
    }
}

/// The text that the bytes are.
pub fn text_in(bytes: &OsBytes) -> Result<&str, HostError> {
    match str::from_utf8(bytes.as_bytes()) {
        Ok(text) => Ok(text),
        Err(_) => Err(HostError::Unreadable),
    }
}

/// The bytes as text.
pub fn into_text(bytes: OsBytes) -> Result<String, HostError> {
    match String::from_utf8(bytes.into_vec()) {
        Ok(text) => Ok(text),
        Err(_) => Err(HostError::Unreadable),
    }
}
