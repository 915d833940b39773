//! The bytes of records.

use ckeys_base::error::Error;
use ckeys_include_records::{CachedResult, IncludeEntry, PreprocessorCacheEntry};
use std::alloc::Global;
use std::test::Fail;
use tests_kit::{Checks, NarrowWriter, holds};

/// The result `a`, whose include `x.h` has the size 3, the digest `ab`, the day -1 and no second.
const OF_AN_INCLUDE: &[u8] =
    b"\x01\x01\0\0\0\0\0\0\0\x01\0\0\0\0\0\0\0a\x01\0\0\0\0\0\0\0\x03\0\0\0\0\0\0\0x.h\x03\0\0\0\0\0\0\0\x02\0\0\0\0\0\0\0ab\x01\xff\xff\xff\xff\xff\xff\xff\xff\0";

/// Whether these are the fields of that include.
fn is_the_include(include: &IncludeEntry) -> bool {
    include.path.as_bytes() == b"x.h".as_slice()
        && include.size == 3
        && include.digest.as_str() == "ab"
        && include.day == Some(-1)
        && include.second.is_none()
}

/// Whether these are the fields of that result.
fn is_read(results: &[CachedResult]) -> bool {
    let [result] = results else {
        return false;
    };
    match result.includes.as_slice() {
        [include] => result.key.as_str() == "a" && is_the_include(include),
        _ => false,
    }
}

/// Its bytes are read field by field, and those of a copy are the same.
#[test]
fn records_are_read_back(rt: HostRuntime) -> Result<(), Fail> {
    let entry = PreprocessorCacheEntry::read(rt.alloc(), OF_AN_INCLUDE)?;
    let is_read = is_read(entry.results());
    let copy = entry.clone()?;
    drop(entry);
    let mut out = Vec::new(rt.alloc());
    copy.serialize_to(&mut out)?;
    holds(is_read && out.as_slice() == OF_AN_INCLUDE, "the record")
}

/// A record that says that it has 2 ^ 60 results, and has none. It is no record, and the count takes no memory.
const ENDLESS: &[u8] = b"\x01\0\0\0\0\0\0\0\x10";

/// Why these bytes are no record.
fn refusal(alloc: Global, bytes: &[u8]) -> Result<Error, Fail> {
    match PreprocessorCacheEntry::read(alloc, bytes) {
        Ok(_) => Err("a record".into()),
        Err(error) => Ok(error),
    }
}

#[test]
fn what_is_no_record_is_told(rt: HostRuntime) -> Result<(), Fail> {
    let mut checks = Checks::new(rt.alloc());
    checks.prints(&refusal(rt.alloc(), ENDLESS)?, "the bytes are no record");
    let later = refusal(rt.alloc(), b"\x02\0\0\0\0\0\0\0\0")?;
    checks.prints(&later, "the record has the unknown format 2");
    checks.end()
}

#[test]
fn a_writer_that_fails_holds_a_beginning(rt: HostRuntime) -> Result<(), Fail> {
    let mut narrow = NarrowWriter::new(rt.alloc(), 4);
    let written = PreprocessorCacheEntry::new(rt.alloc()).serialize_to(&mut narrow);
    let is_told = matches!(written, Err(Error::Io));
    holds(
        is_told && narrow.held.as_slice() == b"\x01\0\0\0".as_slice(),
        "it is told, and held a beginning",
    )
}
