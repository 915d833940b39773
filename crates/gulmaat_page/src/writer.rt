//! A text as it is written.

use cache_build_log::push_text;
use std::alloc::{AllocError, Global};

/// A text as it is written. Where memory is out nothing more is written, and `done` says so: what writes needs no way out of its own.
#[derive(Drop)]
pub struct Writer {
    text: String,
    is_cut: bool,
}

impl Writer {
    /// The empty text.
    pub fn new(alloc: Global) -> Writer {
        Writer {
            text: String::new(alloc),
            is_cut: false,
        }
    }

    /// Writes a text as it is.
    pub fn push(&mut self, text: &str) {
        if !self.is_cut {
            self.is_cut = self.text.push_str(text).is_err();
        }
    }

    /// Writes a character.
    pub fn push_char(&mut self, letter: char) {
        if !self.is_cut {
            self.is_cut = self.text.push(letter).is_err();
        }
    }

    /// Writes a number.
    pub fn push_number(&mut self, number: u64) {
        if !self.is_cut {
            self.is_cut = write!(self.text, "{number}").is_err();
        }
    }

    /// Writes a text, and spaces after it until it is 22 wide.
    pub fn push_left(&mut self, text: &str) {
        if !self.is_cut {
            self.is_cut = write!(self.text, "{text:<22}").is_err();
        }
    }

    /// Writes what another one wrote, with spaces before it until it is 14 wide.
    pub fn push_right(&mut self, other: &Writer) {
        let text = other.text.as_str();
        self.is_cut = self.is_cut || other.is_cut || write!(self.text, "{text:>14}").is_err();
    }

    /// Writes a text as JSON has it.
    pub fn push_quoted(&mut self, text: &str) {
        if !self.is_cut {
            self.is_cut = push_text(&mut self.text, text).is_err();
        }
    }

    /// Writes no more: there was no memory for what was to be written.
    pub fn cut(&mut self) {
        self.is_cut = true;
    }

    /// The text, where all of it was written.
    pub fn done(self) -> Result<String, AllocError> {
        match self.is_cut {
            true => Err(AllocError),
            false => Ok(self.text),
        }
    }
}
