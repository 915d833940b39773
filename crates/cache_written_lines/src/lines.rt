//! The digest of what a text doesn't say of its sources.

use crate::asked::Asked;
use crate::sources::Sources;
use crate::written::{Place, Written};
use base_blake2::Blake2b256;
use base_files::OsBytes;
use cache_host::HostError;
use ckeys_base::Digest;
use ckeys_marker_walk::{Mark, Markers};
use memchr::memchr_iter;
use std::alloc::{AllocError, Global};

/// The digits that a text begins with.
fn digits_ahead(text: &[u8]) -> &[u8] {
    for (at, byte) in text.iter().enumerate() {
        if !byte.is_ascii_digit() {
            return text.get(..at).unwrap_or(text);
        }
    }
    text
}

/// The name of the marker that a line is, if it is one, with its number.
fn marker_in(line: &[u8]) -> Option<(&[u8], usize)> {
    let [b'#', after @ ..] = line else {
        return None;
    };
    let Some(Mark::Named(name)) = Markers::new(line).next() else {
        return None;
    };
    let digits = after.strip_prefix(b"line").unwrap_or(after);
    let digits = digits.strip_prefix(b" ").unwrap_or(digits);
    let digits = str::from_utf8(digits_ahead(digits)).ok()?;
    Some((name, digits.parse::<usize>().ok()?))
}

/// Collects of one line of a text what it doesn't say of that.
fn take_line<'s>(
    line: &'s [u8],
    sources: &'s Sources<'_>,
    place: &mut Place<'s>,
    written: &mut Written,
) -> Result<(), AllocError> {
    let marker = match line {
        [b'#', ..] => marker_in(line),
        _ => None,
    };
    match marker {
        Some((name, number)) => place.take_marker(sources, name, number, written)?,
        None => place.take_line(line, written)?,
    }
    written.taken = written.taken.wrapping_add(1);
    Ok(())
}

/// Collects of all lines of a text what it doesn't say of them.
fn take_lines<'s>(
    text: &'s [u8],
    sources: &'s Sources<'_>,
    written: &mut Written,
) -> Result<(), AllocError> {
    let mut place = Place::none();
    let mut begin: usize = 0;
    for end in memchr_iter(b'\n', text) {
        let line = text.get(begin..end).unwrap_or(&[]);
        take_line(line, sources, &mut place, written)?;
        begin = end.saturating_add(1);
    }
    match text.get(begin..) {
        Some(rest) if !rest.is_empty() => take_line(rest, sources, &mut place, written),
        _ => Ok(()),
    }
}

/// A digest of the lines of which the text shows tokens, where the text doesn't say how they were written: those that aren't as the text
/// has them, those below that have arguments of a macro, and comments by which a case falls through. Of a file with directives that give
/// lines other numbers it is of all.
fn digest_of_lines(
    alloc: Global,
    text: &[u8],
    mut sources: Sources<'_>,
) -> Result<OsBytes, HostError> {
    sources.cut_into_lines()?;
    let mut written = Written::new(alloc);
    take_lines(text, &sources, &mut written)?;
    let mut digest = sources.digest_of(false);
    digest.update(written.bytes());
    digest_text(alloc, digest)
}

/// The text of a digest.
fn digest_text(alloc: Global, digest: Digest<Blake2b256>) -> Result<OsBytes, HostError> {
    let text = digest.finish(alloc)?;
    Ok(OsBytes::from_slice(alloc, text.as_bytes())?)
}

/// The digest of the contents of all files that a text names, in the order in which it does.
pub fn digest_of_contents(alloc: Global, sources: &Sources<'_>) -> Result<OsBytes, HostError> {
    digest_text(alloc, sources.digest_of(true))
}

/// The digest of what is asked of the sources of a text; an empty one where nothing is.
pub fn digest_asked(
    alloc: Global,
    asked: Asked,
    text: &[u8],
    sources: Sources<'_>,
) -> Result<OsBytes, HostError> {
    match asked {
        Asked::Nothing => Ok(OsBytes::empty(alloc)),
        Asked::Lines => digest_of_lines(alloc, text, sources),
        Asked::Contents => digest_of_contents(alloc, &sources),
    }
}
