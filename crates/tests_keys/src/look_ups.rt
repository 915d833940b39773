//! How often look-ups ask for files.

use base_files::OsBytes;
use ckeys_include_records::PreprocessorCacheEntry;
use ckeys_time_macros::Zone;
use sha2::Sha256;
use std::alloc::Global;
use std::test::Fail;
use tests_kit::{WatchedFiles, files_of, holds};

/// The results `a` and `b`, each with the include `x.h` of size 3 and the digest `ab`.
const TWO: &[u8] =
    b"\x01\x02\0\0\0\0\0\0\0\x01\0\0\0\0\0\0\0a\x01\0\0\0\0\0\0\0\x03\0\0\0\0\0\0\0x.h\x03\0\0\0\0\0\0\0\x02\0\0\0\0\0\0\0ab\0\0\
    \x01\0\0\0\0\0\0\0b\x01\0\0\0\0\0\0\0\x03\0\0\0\0\0\0\0x.h\x03\0\0\0\0\0\0\0\x02\0\0\0\0\0\0\0ab\0\0";

/// How often a look-up of this record that finds nothing in `/w` asks the files.
fn calls_of(
    alloc: Global,
    record: &PreprocessorCacheEntry,
    files: &mut WatchedFiles<'_>,
) -> Result<u64, Fail> {
    let dir = OsBytes::from_slice(alloc, b"/w")?;
    let zone = Zone::utc();
    match record.lookup_result_digest::<Sha256, _>(alloc, &dir, 0, &zone, files) {
        Ok(None) => Ok(files.calls),
        _ => Err("it is found".into()),
    }
}

/// Both results named the file, which is another by now. Its contents and the second of its last change are looked at once.
#[test]
fn each_file_is_looked_at_once(rt: HostRuntime) -> Result<(), Fail> {
    let record = PreprocessorCacheEntry::read(rt.alloc(), TWO)?;
    let mut files = WatchedFiles {
        files: files_of(rt.alloc(), &[("/w/x.h", b"abc".as_slice())])?,
        calls: 0,
        broken: b"",
        failed: 0,
    };
    let calls = calls_of(rt.alloc(), &record, &mut files)?;
    holds(record.results().len() == 2 && calls == 2, "two calls")
}
