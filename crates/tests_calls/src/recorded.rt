//! Include records whose results all match but for their last file: look-ups in them, and digests of the files.

ghost use Rattle.std.specs.Prelude.{◌≡◌, IfOk};
ghost use Rattle.ckeys_include_records.specs.Records.{includes_in};

use crate::words::Tally;
use base_files::{FileTime, Listed, MemoryFile, MemoryFiles, OsBytes};
use ckeys_base::Digest;
use ckeys_include_records::{IncludeEntry, KeyText, PreprocessorCacheEntry};
use ckeys_time_macros::Zone;
use cmdlines_response_files::ParseFault;
use sha2::Sha256;
use std::alloc::{AllocError, Global};

/// How many files each result names.
const FILES: u32 = 100;

/// How many bytes each file has.
const SIZE: usize = 4096;

/// The name of a file by its number.
fn name_of(alloc: Global, number: u32) -> Result<OsBytes, AllocError> {
    let name = format!(in alloc; "/w/header{number}.h")?;
    OsBytes::from_slice(alloc, name.as_bytes())
}

/// The contents of each file.
fn contents(alloc: Global) -> Result<Vec<u8>, AllocError> {
    vec![in alloc; b'x'; SIZE]
}

/// All files.
fn all_files(alloc: Global) -> Result<MemoryFiles, AllocError> {
    let mut files = MemoryFiles::new(alloc);
    let mtime = FileTime::from_seconds(0);
    for number in 0..FILES {
        let contents = OsBytes::from_vec(contents(alloc)?);
        files.insert(name_of(alloc, number)?, MemoryFile { contents, mtime })?;
    }
    Ok(files)
}

/// What is recorded of all files, the last of which had another size then.
fn all_includes(alloc: Global, digest: &str) -> Result<Listed<IncludeEntry>, AllocError> {
    let mut includes = Vec::new(alloc);
    for number in 0..FILES {
        let size = if number + 1 < FILES { SIZE as u64 } else { 0 };
        includes
            .push(IncludeEntry {
                path: name_of(alloc, number)?,
                size,
                digest: KeyText::new(String::from_str(alloc, digest)?),
                day: None,
                second: None,
            })
            .map_err(AllocError::from)?;
    }
    Ok(Listed::from_vec(includes))
}

/// The digest of each file.
fn digest_of_contents(alloc: Global) -> Result<String, AllocError> {
    let contents = contents(alloc)?;
    let mut digest: Digest<Sha256> = Digest::new();
    digest.update(contents.as_slice());
    digest.finish(alloc)
}

/// Records a result of that number over all files, whose digest this is.
fn add_result(
    alloc: Global,
    record: &mut PreprocessorCacheEntry,
    number: u32,
    digest: &str,
) -> Result<(), AllocError> {
    let includes = all_includes(alloc, digest)?;
    let key = KeyText::new(format!(in alloc; "{number}")?);
    record.add_result(key, includes)
}

/// A record of so many results.
fn record_of(alloc: Global, results: u32) -> Result<PreprocessorCacheEntry, AllocError> {
    let digest = digest_of_contents(alloc)?;
    let mut record = PreprocessorCacheEntry::new(alloc);
    for number in 0..results {
        add_result(alloc, &mut record, number, digest.as_str())?;
    }
    Ok(record)
}

/// Tallies the includes of the entry, and looks up which result's files are as they were.
fn look_up(
    alloc: Global,
    entry: &PreprocessorCacheEntry,
    zone: &Zone,
    files: &mut MemoryFiles,
) -> Result<Tally, ParseFault>
    ensures includes { IfOk result (λ tally. tally.count ≡ includes_in entry.now.results) }
{
    let dir = OsBytes::from_slice(alloc, b"/w")?;
    let found = entry.lookup_result_digest::<Sha256, MemoryFiles>(alloc, &dir, 0, zone, files)?;
    let bytes = match found {
        Some(key) => key.as_str().len(),
        None => 0,
    };
    Ok(Tally {
        count: entry.number_of_entries(),
        bytes,
    })
}

/// Looks so often into a record of so many results.
pub(crate) fn look_ups(alloc: Global, results: u32, repeats: u32) -> Result<Tally, ParseFault> {
    let Ok(zone) = Zone::new("UTC0") else {
        return Ok(Tally::none());
    };
    let record = record_of(alloc, results)?;
    let mut files = all_files(alloc)?;
    let mut last = Tally::none();
    for _ in 0..repeats {
        last = look_up(alloc, &record, &zone, &mut files)?;
    }
    Ok(last)
}

/// Digests of all files, each taken once.
fn digest_all(alloc: Global, files: &mut MemoryFiles) -> Result<Tally, AllocError> {
    let mut tally = Tally::none();
    for number in 0..FILES {
        let name = name_of(alloc, number)?;
        if let Ok(Some(digest)) = Digest::<Sha256>::file(alloc, &name, files) {
            tally.count = tally.count.wrapping_add(1);
            tally.bytes = tally.bytes.wrapping_add(digest.len());
        }
    }
    Ok(tally)
}

/// Takes the digests of all files so often.
pub(crate) fn file_digests(alloc: Global, repeats: u32) -> Result<Tally, AllocError> {
    let mut files = all_files(alloc)?;
    let mut last = Tally::none();
    for _ in 0..repeats {
        last = digest_all(alloc, &mut files)?;
    }
    Ok(last)
}
