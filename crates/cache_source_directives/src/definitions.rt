//! What a macro stands for: the name of a file, by its definitions in sources and by those of a command.

use crate::directives::{Asked, after_spaces, is_letter, is_space, name_ahead};
use memchr::memmem;
use std::alloc::AllocError;

/// The spellings of `#`, and the end of a comment.
const MARKS: &[&[u8]] = &[b"#", b"%:", b"??=", b"*/"];

/// Whether it is a space, or a part of a line continuation.
fn is_gap(byte: u8) -> bool {
    is_space(byte) || byte == b'\\' || byte == b'\n'
}

/// What comes before spaces and line continuations.
pub(crate) fn before_gap(front: &[u8]) -> &[u8] {
    match front.iter().rposition(|byte| !is_gap(*byte)) {
        Some(last) => front.get(..last.saturating_add(1)).unwrap_or(front),
        None => &[],
    }
}

/// Whether these bytes may end with a `#`, and a comment that may come after it.
fn ends_with_mark(front: &[u8]) -> bool {
    for mark in MARKS {
        if front.ends_with(mark) {
            return true;
        }
    }
    false
}

/// Whether a name that comes after these bytes may be defined there: `define` comes before it, after a `#`, or a comment does that may come
/// after `define`, and whose end a line that goes on may cut in two.
fn may_be_defined(front: &[u8]) -> bool {
    let before = before_gap(front);
    match before.strip_suffix(b"define") {
        Some(front) => ends_with_mark(before_gap(front)),
        None => before.ends_with(b"*/") || before.ends_with(b"\n/"),
    }
}

/// The name of a file in quotes or brackets, where a line has nothing else but a comment after it.
pub fn name_alone(after: &[u8]) -> Option<Asked<'_>> {
    let operand = after_spaces(after);
    let asked = name_ahead(operand)?;
    // The name has a mark on each side.
    let rest = operand.get(asked.name.len().saturating_add(2)..)?;
    match after_spaces(rest) {
        [] | [b'\n', ..] | [b'/', b'*' | b'/', ..] => Some(asked),
        _ => None,
    }
}

/// What comes after a name at that place of a source, where a macro of that name may be defined there.
pub(crate) fn after_defined<'a>(source: &'a [u8], at: usize, name: &[u8]) -> Option<&'a [u8]> {
    let front = source.get(..at).unwrap_or(&[]);
    let after = source.get(at.saturating_add(name.len())..).unwrap_or(&[]);
    let is_longer = matches!(after, [byte, ..] if is_letter(*byte));
    if is_longer || !may_be_defined(front) {
        return None;
    }
    Some(after)
}

/// Adds what a macro stands for whose name comes at that place of a source, if it may be defined there. False where that may be anything but
/// a name in quotes or brackets.
fn add_defined_at<'a>(
    source: &'a [u8],
    at: usize,
    name: &[u8],
    found: &mut Vec<Asked<'a>>,
) -> Result<bool, AllocError> {
    let Some(after) = after_defined(source, at, name) else {
        return Ok(true);
    };
    let Some(asked) = name_alone(after) else {
        return Ok(false);
    };
    found.push(asked)?;
    Ok(true)
}

/// Adds what a macro may stand for by its definitions in a source, live or not. False where one of them may be anything but a name in
/// quotes or brackets.
pub fn add_defined<'a>(
    source: &'a [u8],
    name: &[u8],
    found: &mut Vec<Asked<'a>>,
) -> Result<bool, AllocError> {
    for at in memmem::find_iter(source, name) {
        if !add_defined_at(source, at, name, found)? {
            return Ok(false);
        }
    }
    Ok(true)
}

/// Adds what a macro stands for by a command's definition, as `NAME="file"`. False where it defines another macro, or may be something other
/// than a name in quotes or brackets.
pub fn add_said<'a>(
    definition: &'a [u8],
    name: &[u8],
    found: &mut Vec<Asked<'a>>,
) -> Result<bool, AllocError> {
    let value = definition
        .strip_prefix(name)
        .and_then(|after| after.strip_prefix(b"="));
    let Some(asked) = value.and_then(name_alone) else {
        return Ok(false);
    };
    found.push(asked)?;
    Ok(true)
}
