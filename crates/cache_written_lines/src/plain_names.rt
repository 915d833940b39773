//! Names in line markers as Clang writes them: a byte that isn't printable ASCII as a backslash and three octal digits, and a tab as `\t`. GCC
//! writes such bytes as they are, and so a session reads them.

use memchr::{memchr_iter, memrchr};
use std::alloc::{AllocError, Global};

/// What a line marker begins with.
const MARKER: &[u8] = b"# ";

/// The value of an octal digit.
fn digit(byte: u8) -> Option<u8> {
    match byte {
        b'0'..=b'7' => Some(byte.wrapping_sub(b'0')),
        _ => None,
    }
}

/// The byte that three octal digits stand for, where it is none that is written with a backslash of its own.
fn byte_by(high: u8, middle: u8, low: u8) -> Option<u8> {
    let (high, middle, low) = (digit(high)?, digit(middle)?, digit(low)?);
    if high > 3 {
        return None;
    }
    match (high << 6) | (middle << 3) | low {
        b'\n' | b'"' | b'\\' => None,
        byte => Some(byte),
    }
}

/// The byte for which what these begin with is written, and how many of them that takes.
fn written_ahead(bytes: &[u8]) -> Option<(u8, usize)> {
    match bytes {
        [b'\\', b't', ..] => Some((b'\t', 2)),
        [b'\\', high, middle, low, ..] => Some((byte_by(*high, *middle, *low)?, 4)),
        _ => None,
    }
}

/// Whether that place of a text lies in a line marker.
fn is_in_marker(text: &[u8], at: usize) -> bool {
    let before = text.get(..at).unwrap_or(&[]);
    let line = match memrchr(b'\n', before) {
        Some(end) => before.get(end.saturating_add(1)..).unwrap_or(&[]),
        None => before,
    };
    line.starts_with(MARKER)
}

/// Whether a marker of a text may have a byte that is written with a backslash.
fn has_written(text: &[u8]) -> bool {
    for at in memchr_iter(b'\\', text) {
        let ahead = text.get(at..).unwrap_or(&[]);
        if written_ahead(ahead).is_some() && is_in_marker(text, at) {
            return true;
        }
    }
    false
}

/// Adds a marker with its name's bytes as they are. A backslash before another one, or before a quote, stays.
fn push_plain(line: &[u8], plain: &mut Vec<u8>) -> Result<(), AllocError> {
    let mut taken = 0usize;
    for (at, byte) in line.iter().enumerate() {
        if at < taken {
            continue;
        }
        let ahead = line.get(at..).unwrap_or(&[]);
        match (ahead, written_ahead(ahead)) {
            (_, Some((written, count))) => {
                plain.push(written)?;
                taken = at.saturating_add(count);
            }
            ([b'\\', next, ..], None) => {
                plain.extend_from_slice(&[*byte, *next])?;
                taken = at.saturating_add(2);
            }
            (_, None) => plain.push(*byte)?,
        }
    }
    Ok(())
}

/// The text of a Clang with the names in its markers as they are.
pub fn with_plain_names(alloc: Global, text: Vec<u8>) -> Result<Vec<u8>, AllocError> {
    if !has_written(text.as_slice()) {
        return Ok(text);
    }
    let mut plain = Vec::with_capacity(alloc, text.len())?;
    for line in text.as_slice().split_inclusive(|byte| *byte == b'\n') {
        match line.starts_with(MARKER) {
            true => push_plain(line, &mut plain)?,
            false => plain.extend_from_slice(line)?,
        }
    }
    Ok(plain)
}
