//! A walk over a text beside the lines of its sources, which collects what the text doesn't say of them.

use crate::sources::{Source, Sources};
use base_formats::put_number;
use memchr::{memchr, memchr_iter, memmem};
use std::alloc::{AllocError, Global};

/// How many spaces a text begins with.
fn spaces_ahead(text: &[u8]) -> usize {
    for at in 0..text.len() {
        if text[at] > b' ' {
            return at;
        }
    }
    text.len()
}

/// The text without the spaces that it begins with.
fn after_spaces(text: &[u8]) -> &[u8] {
    after(text, spaces_ahead(text))
}

/// Whether a line opens more brackets than it closes, those in strings and characters too.
fn opens(line: &[u8]) -> bool {
    memchr_iter(b'(', line).count() > memchr_iter(b')', line).count()
}

/// Whether a line opens more brackets than it closes outside of strings.
fn opens_outside(line: &[u8]) -> bool {
    let mut open: usize = 0;
    let mut close: usize = 0;
    let mut in_string = false;
    let mut is_escaped = false;
    for byte in line {
        if is_escaped {
            is_escaped = false;
            continue;
        }
        match byte {
            b'\\' => is_escaped = in_string,
            b'"' => in_string = !in_string,
            b'(' if !in_string => open = open.saturating_add(1),
            b')' if !in_string => close = close.saturating_add(1),
            _ => {}
        }
    }
    open > close
}

/// Whether the text's line for this one may also hold tokens of the lines below it: arguments of a macro, or a line that continues.
fn goes_on(line: &[u8]) -> bool {
    if line.trim_ascii_end().ends_with(b"\\") {
        return true;
    }
    memchr(b'(', line).is_some()
        && (opens(line) || memchr(b'"', line).is_some() && opens_outside(line))
}

/// Whether lines may have a comment in them that says that a case falls through.
fn falls_through(lines: &[u8]) -> bool {
    memmem::find(lines, b"hr").is_some() && memmem::find(lines, b"all").is_some()
        || memmem::find(lines, b"HR").is_some() && memmem::find(lines, b"ALL").is_some()
}

/// Whether a case or a label may begin in a line of a text, given without the spaces ahead of it: before one such a comment counts.
fn may_be_label(line: &[u8]) -> bool {
    line.starts_with(b"case") || line.starts_with(b"default") || memchr(b':', line).is_some()
}

/// The bytes after the first so many.
fn after(bytes: &[u8], count: usize) -> &[u8] {
    bytes.get(count..).unwrap_or(&[])
}

/// So many of the bytes.
fn up_to(bytes: &[u8], count: usize) -> &[u8] {
    bytes.get(..count).unwrap_or(&[])
}

/// How many bytes two lines begin with alike.
fn alike_ahead(one: &[u8], other: &[u8]) -> usize {
    for (at, byte) in one.iter().enumerate() {
        match other.get(at) {
            Some(there) if *there == *byte => {}
            _ => return at,
        }
    }
    one.len()
}

/// How many bytes two lines end with alike.
fn alike_after(one: &[u8], other: &[u8]) -> usize {
    let (mut front, mut other_front) = (one, other);
    for alike in 0..one.len() {
        match (front, other_front) {
            ([rest @ .., last], [other_rest @ .., other_last]) if *last == *other_last => {
                front = rest;
                other_front = other_rest;
            }
            _ => return alike,
        }
    }
    one.len()
}

/// Puts a number, most often a small one: in one byte, or in eight after a 255.
fn put_small(bytes: &mut Vec<u8>, number: u64) -> Result<(), AllocError> {
    match u8::try_from(number) {
        Ok(small) if small < 255 => Ok(bytes.push(small)?),
        _ => {
            bytes.push(255)?;
            put_number(bytes, number)
        }
    }
}

/// What was collected: the number of a text's line, counted from the one before it, followed by what the text doesn't say of it.
#[derive(Drop)]
pub struct Written {
    bytes: Vec<u8>,
    /// The line of the text of which something was taken last.
    last: u64,
    /// How many lines of the text were taken.
    pub taken: u64,
}

impl Written {
    /// Nothing was collected.
    pub fn new(alloc: Global) -> Written {
        Written {
            bytes: Vec::new(alloc),
            last: 0,
            taken: 0,
        }
    }

    /// What was collected.
    pub fn bytes(&self) -> &[u8] {
        self.bytes.as_slice()
    }

    /// Begins what is taken of the text's line, by a letter for its kind.
    fn begin(&mut self, kind: u8) -> Result<(), AllocError> {
        self.bytes.push(kind)?;
        put_small(&mut self.bytes, self.taken.wrapping_sub(self.last))?;
        self.last = self.taken;
        Ok(())
    }

    /// Puts the length of bytes, then the bytes.
    fn put(&mut self, bytes: &[u8]) -> Result<(), AllocError> {
        put_small(&mut self.bytes, bytes.len() as u64)?;
        self.bytes.extend_from_slice(bytes)
    }

    /// Takes lines that the text doesn't show.
    fn note(&mut self, lines: &[u8]) -> Result<(), AllocError> {
        self.begin(b'h')?;
        self.put(lines)
    }

    /// Takes how a line was written that the text shows, there with so many spaces ahead of it: with other ones, most often. Else how many
    /// bytes it begins with and ends with as the text has it, and the rest.
    fn note_line(&mut self, line: &[u8], shown: &[u8], spaces: usize) -> Result<(), AllocError> {
        let own = spaces_ahead(line);
        if after(line, own) == after(shown, spaces) {
            self.begin(b'i')?;
            return self.put(up_to(line, own));
        }
        let ahead = alike_ahead(line, shown);
        let rest = after(line, ahead);
        let shown_rest = after(shown, ahead);
        let alike = alike_after(rest, shown_rest);
        let middle = up_to(rest, rest.len().saturating_sub(alike));
        self.begin(b's')?;
        put_small(&mut self.bytes, ahead as u64)?;
        put_small(&mut self.bytes, alike as u64)?;
        self.put(middle)
    }

    /// Takes those of the lines that may say that a case falls through.
    fn note_comments(&mut self, lines: &[u8]) -> Result<(), AllocError> {
        for line in lines.split(|byte| *byte == b'\n') {
            if falls_through(line) {
                self.note(line)?;
            }
        }
        Ok(())
    }
}

/// The place in a file that a walk over a text has reached.
#[derive(Drop)]
pub struct Place<'s> {
    name: &'s [u8],
    /// The file, if its lines count one by one.
    file: Option<&'s Source<'s>>,
    /// The number of the line that the text's next line is of.
    number: usize,
    /// The first line that wasn't looked at.
    left: usize,
    /// The line that was shown last as it was written, if one was since the file was named.
    shown: Option<&'s [u8]>,
}

impl<'s> Place<'s> {
    /// None yet.
    pub fn none() -> Place<'s> {
        Place {
            name: &[],
            file: None,
            number: 1,
            left: 1,
            shown: None,
        }
    }

    /// Looks at the lines up to that number, which the text doesn't show: they may have arguments of a macro that was shown, or before a
    /// case a comment that counts.
    fn pass(&mut self, to: usize, is_label: bool, written: &mut Written) -> Result<(), AllocError> {
        if self.left >= to {
            return Ok(());
        }
        let left = self.left;
        self.left = to;
        let Some(file) = self.file else {
            return Ok(());
        };
        let lines = file.lines(left, to);
        let is_more = match self.shown {
            Some(shown) => { goes_on(shown) || matches!(after_spaces(lines), [b'(', ..]) }
            None => false,
        };
        if is_more {
            return written.note(lines);
        }
        if is_label && falls_through(lines) {
            return written.note_comments(lines);
        }
        Ok(())
    }

    /// Takes a marker: the text's next line is that one of that file.
    pub fn take_marker(
        &mut self,
        sources: &'s Sources<'_>,
        name: &'s [u8],
        number: usize,
        written: &mut Written,
    ) -> Result<(), AllocError> {
        if self.name == name {
            // The lines between stay to be looked at, as far as none was: a case may come next.
            self.number = number;
            self.left = self.left.min(number);
            return Ok(());
        }
        self.pass(self.number, false, written)?;
        let file = match sources.get(name) {
            Some(file) if !file.renumbers => Some(file),
            _ => None,
        };
        // Nothing was shown of a file that is entered or gone back to.
        *self = Place {
            name,
            file,
            number,
            left: number,
            shown: None,
        };
        Ok(())
    }

    /// Takes a line of the text that is no marker.
    pub fn take_line(&mut self, line: &[u8], written: &mut Written) -> Result<(), AllocError> {
        let number = self.number;
        self.number = number.saturating_add(1);
        let Some(file) = self.file else {
            return Ok(());
        };
        let spaces = spaces_ahead(line);
        if spaces == line.len() {
            return Ok(());
        }
        if self.left < number {
            self.pass(number, may_be_label(after(line, spaces)), written)?;
        }
        let as_written = file.line(number);
        if as_written != line {
            written.note_line(as_written, line, spaces)?;
        }
        self.shown = Some(as_written);
        self.left = number.saturating_add(1);
        Ok(())
    }
}
