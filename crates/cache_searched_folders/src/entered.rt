//! Which files a text takes in, by its markers. A `#line` directive makes a marker too, of a file that the preprocessor didn't read.

use memchr::memrchr;
use std::alloc::{AllocError, Global};
use std::collections::HashSet;

/// The names of files that a text takes in, as its markers have them.
#[derive(Drop)]
pub struct EnteredNames<'a> {
    names: HashSet<&'a [u8]>,
    /// Whether a marker may lack its flags: then all files count.
    are_unclear: bool,
}

/// What a marker says of its file.
#[derive(Clone, Copy)]
pub(crate) enum Step<'a> {
    /// It begins there, and has that name.
    Enters(&'a [u8]),
    /// The one that it was taken in by goes on.
    Returns,
}

/// What comes after the number and the quote at the front of these bytes.
fn quoted_in(number: &[u8]) -> Option<&[u8]> {
    for (at, byte) in number.iter().enumerate() {
        if !byte.is_ascii_digit() {
            return number.get(at..)?.strip_prefix(b" \"");
        }
    }
    None
}

/// What a line says, where it is a marker by which a file begins or goes on.
pub(crate) fn step_in(line: &[u8]) -> Option<Step<'_>> {
    let quoted = quoted_in(line.strip_prefix(b"# ")?)?;
    let end = memrchr(b'"', quoted)?;
    let (name, flags) = quoted.split_at_checked(end)?;
    match flags {
        [b'"', b' ', b'1', ..] => Some(Step::Enters(name)),
        [b'"', b' ', b'2', ..] => Some(Step::Returns),
        _ => None,
    }
}

impl<'a> EnteredNames<'a> {
    /// Those of a text.
    pub fn of(alloc: Global, text: &'a [u8]) -> Result<EnteredNames<'a>, AllocError> {
        let mut names = HashSet::new(alloc);
        let mut are_unclear = false;
        for line in text.split(|byte| *byte == b'\n') {
            are_unclear = are_unclear || line.starts_with(b"#line");
            if let Some(Step::Enters(name)) = step_in(line) {
                names.insert(name)?;
            }
        }
        Ok(EnteredNames { names, are_unclear })
    }

    /// Whether the text may take in the file of that name.
    pub fn may_have(&self, name: &[u8]) -> bool {
        self.are_unclear || (&self.names).contains(&name)
    }
}
