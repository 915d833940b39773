//! Macros that have to be defined where a directive is to be live: those of `#ifdef` around it.
//!
//! One is only named where that is certain: what begins as a directive is none in a comment, in a string or in a line that goes on.

use crate::definitions::{after_defined, before_gap};
use crate::directives::{
    after_gap, after_spaces, before_spaces, may_begin_directive, value_of, word_ahead,
};
use memchr::{memchr2_iter, memmem};
use std::alloc::{AllocError, Global};

/// What a directive does to groups of lines.
#[derive(Clone, Copy)]
enum Kind {
    /// It begins a group for which a macro has to be defined.
    Guard,
    /// It begins another group.
    Begin,
    /// It goes on with another group.
    Other,
    End,
}

/// The words of these directives.
const KINDS: &[(&str, Kind)] = &[
    ("ifdef", Kind::Guard),
    ("if", Kind::Begin),
    ("ifndef", Kind::Begin),
    ("elif", Kind::Other),
    ("elifdef", Kind::Other),
    ("elifndef", Kind::Other),
    ("else", Kind::Other),
    ("endif", Kind::End),
];

/// What a string that may have any line in it begins with.
const RAW_STRING: &[u8] = b"R\"";

/// Whether a directive that comes after these bytes begins a line, which doesn't go on with the one before it.
fn begins_line(front: &[u8]) -> bool {
    match before_spaces(front) {
        [] => true,
        [lines @ .., b'\n'] => !before_spaces(lines).ends_with(b"\\"),
        _ => false,
    }
}

/// Whether a `*` after these bytes begins a comment, whose begin a line that goes on may cut in two.
fn begins_comment(front: &[u8]) -> bool {
    let is_cut = front.ends_with(b"\n") && before_gap(front).ends_with(b"/");
    is_cut || front.ends_with(b"/")
}

/// The groups of lines around a place, up to which a source is read.
#[derive(Drop)]
struct Groups<'a> {
    /// Of each group the macro that has to be defined for it; an empty name where that isn't what it hangs on.
    open: Vec<&'a [u8]>,
    /// Whether a comment may be open.
    in_comment: bool,
}

impl<'a> Groups<'a> {
    /// Reads on over the `*` at that place of a source. What begins as a comment counts as one, though it may be in a string.
    fn read_star(&mut self, source: &[u8], at: usize) {
        let (front, after) = source.split_at_checked(at).unwrap_or((source, &[]));
        if self.in_comment {
            self.in_comment = !after.starts_with(b"*/");
        } else {
            self.in_comment = begins_comment(front);
        }
    }

    /// Takes a directive of that kind, with what comes after its word.
    fn take(&mut self, kind: Kind, operand: &'a [u8]) -> Result<(), AllocError> {
        match kind {
            Kind::Guard => {
                let (name, _) = word_ahead(after_spaces(operand));
                self.open.push(name)?;
            }
            Kind::Begin => self.open.push(&[])?,
            Kind::Other => {
                if self.open.pop().is_some() {
                    self.open.push(&[])?;
                }
            }
            Kind::End => {
                self.open.pop();
            }
        }
        Ok(())
    }

    /// Reads on over the `#` at that place of a source. False where it isn't certain whether a group begins or ends there.
    fn read_mark(&mut self, source: &'a [u8], at: usize) -> Result<bool, AllocError> {
        let Some((front, [_, after @ ..])) = source.split_at_checked(at) else {
            return Ok(true);
        };
        if !may_begin_directive(front) {
            return Ok(true);
        }
        let (word, operand) = word_ahead(after_gap(after));
        let Some(kind) = value_of(KINDS, word) else {
            return Ok(true);
        };
        if self.in_comment || !begins_line(front) {
            return Ok(false);
        }
        self.take(kind, operand)?;
        Ok(true)
    }

    /// Reads a source. False where it isn't certain which groups are open at its end.
    fn read(&mut self, source: &'a [u8]) -> Result<bool, AllocError> {
        for at in memchr2_iter(b'#', b'*', source) {
            if source.get(at) == Some(&b'*') {
                self.read_star(source, at);
            } else if !self.read_mark(source, at)? {
                return Ok(false);
            }
        }
        Ok(true)
    }
}

/// The macros that have to be defined for what comes after these bytes of a source; none where that isn't certain. Some names are empty.
fn guards_after(alloc: Global, front: &[u8]) -> Result<Vec<&[u8]>, AllocError> {
    let mut groups = Groups {
        open: Vec::new(alloc),
        in_comment: false,
    };
    if memmem::find(front, RAW_STRING).is_some() || !groups.read(front)? {
        return Ok(Vec::new(alloc));
    }
    Ok(groups.open)
}

/// Whether no compiler defines a macro of that name by itself: those that compilers define begin with `_`, have small letters or are one word.
fn is_users(name: &[u8]) -> bool {
    for byte in name {
        if byte.is_ascii_lowercase() {
            return false;
        }
    }
    !name.starts_with(b"_") && name.contains(&b'_')
}

/// A macro that has to be defined for what comes after these bytes of a source, and that no compiler defines by itself.
pub(crate) fn guard_after(alloc: Global, front: &[u8]) -> Result<Option<&[u8]>, AllocError> {
    let guards = guards_after(alloc, front)?;
    for name in guards.iter() {
        if is_users(name) {
            return Ok(Some(*name));
        }
    }
    Ok(None)
}

/// Whether a source may define a macro at that place, where its name is, though it isn't defined yet.
fn may_define_at(alloc: Global, source: &[u8], at: usize, name: &[u8]) -> Result<bool, AllocError> {
    if after_defined(source, at, name).is_none() {
        return Ok(false);
    }
    let guards = guards_after(alloc, source.get(..at).unwrap_or(&[]))?;
    Ok(!guards.contains(&name))
}

/// Whether a source may define a macro that isn't defined yet: it defines it anywhere but in a group for which it has to be defined.
pub fn may_define(alloc: Global, source: &[u8], name: &[u8]) -> Result<bool, AllocError> {
    for at in memmem::find_iter(source, name) {
        if may_define_at(alloc, source, at, name)? {
            return Ok(true);
        }
    }
    Ok(false)
}
