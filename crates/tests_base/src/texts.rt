//! Texts of times, escapes, and paths that are written out.

use ckeys_base::{
    UnescapeError, ascii_unescape_default, decode_path, encode_path, fmt_duration_as_secs,
};
use std::alloc::Global;
use std::test::Fail;
use std::time::Duration;
use tests_kit::{Checks, NarrowWriter, holds, is_that};

#[test]
fn a_time_has_a_text(rt: HostRuntime) -> Result<(), Fail> {
    let text = fmt_duration_as_secs(rt.alloc(), &Duration::from_millis(1005))?;
    is_that(text.as_str(), "1.005 s", "a time")
}

/// Whether a text spells these bytes; or none, where these are none.
fn spells(alloc: Global, text: &[u8], want: &[u8]) -> bool {
    match ascii_unescape_default(alloc, text) {
        Ok(plain) => plain.as_slice() == want,
        Err(UnescapeError::BadEscape) => want.is_empty(),
        Err(UnescapeError::Memory) => false,
    }
}

#[test]
fn escapes_by_example(rt: HostRuntime) -> Result<(), Fail> {
    let alloc = rt.alloc();
    let mut checks = Checks::new(alloc);
    checks.holds(spells(alloc, b"\\x41\\t\\\\", b"A\t\\"), "three bytes");
    checks.holds(spells(alloc, b"\\x4", b""), "one digit");
    checks.holds(spells(alloc, b"\\q", b""), "no escape");
    checks.holds(spells(alloc, b"a\\", b""), "a backslash alone");
    checks.prints(&UnescapeError::BadEscape, "bad escape");
    checks.end()
}

#[test]
fn a_path_comes_back(rt: HostRuntime) -> Result<(), Fail> {
    let mut written = Vec::new(rt.alloc());
    let is_written = encode_path(&mut written, b"/a/\xff").is_ok();
    let path = decode_path(rt.alloc(), &written)?;
    holds(
        is_written && path.as_bytes() == b"/a/\xff".as_slice(),
        "it comes back",
    )
}

/// A writer that has no room for a path holds a beginning of it.
#[test]
fn a_full_writer_is_told(rt: HostRuntime) -> Result<(), Fail> {
    let mut narrow = NarrowWriter::new(rt.alloc(), 4);
    let fails = encode_path(&mut narrow, b"/a/bcd").is_err();
    holds(
        fails && narrow.held.as_slice() == b"/a/b".as_slice(),
        "a beginning",
    )
}
