//! The files of one kind, and which of them fit in so many bytes.

ghost use Rattle.std.specs.Prelude.{◌≡◌, ◌≤◌, ◌<◌, ◌⊎◌, suc, length, take};
ghost use Rattle.std.specs.List.Sorted.{IsPermutation, IsSortedBy};
ghost use Rattle.cache_dir.specs.Together.{bytes_together, used_later};

use crate::error::CacheDirError;
use crate::folder::Kind;
use std::alloc::Global;
use std::os::unix::fs::MetadataExt;
use std::rt::Files;
use std::time::{SystemTime, UNIX_EPOCH};
use std::{fs, io};

/// The bytes in which a system counts what files take on the disk.
const BLOCK: u64 = 512;

/// A file that is kept.
#[derive(Drop)]
pub struct KeptFile {
    pub place: String,
    /// The number of the folder that it lies in.
    pub row: u8,
    /// The bytes that it takes on the disk, in whole blocks.
    pub size: u64,
    /// When it was used last, in nanoseconds since 1970.
    pub used: u128,
}

/// A time in nanoseconds since 1970, and 0 where it isn't known.
fn nanoseconds(time: io::Result<SystemTime>) -> u128 {
    let Ok(time) = time else {
        return 0;
    };
    match time.duration_since(UNIX_EPOCH) {
        Ok(since) => since.as_nanos(),
        Err(_) => 0,
    }
}

/// The regular file of that name in a folder, where it is there still.
fn file_in<R: Files>(
    rt: &R,
    alloc: Global,
    folder: &str,
    row: u8,
    name: &str,
) -> Result<Option<KeptFile>, CacheDirError> {
    let place = format!(in alloc; "{folder}/{name}")?;
    let Ok(metadata) = fs::symlink_metadata(rt, place.as_str()) else {
        return Ok(None);
    };
    if !metadata.is_file() {
        return Ok(None);
    }
    let size = metadata.blocks().saturating_mul(BLOCK);
    let used = nanoseconds(metadata.modified());
    Ok(Some(KeptFile {
        place,
        row,
        size,
        used,
    }))
}

/// Adds the files of that kind whose names begin with the two letters of this number.
fn files_in_row<R: Files + AllocGlobal + Clone + Drop>(
    rt: &R,
    path: &str,
    kind: Kind,
    row: u8,
    files: &mut Vec<KeptFile>,
) -> Result<(), CacheDirError> {
    let alloc = rt.alloc();
    let kind = kind.name();
    let folder = format!(in alloc; "{path}/{kind}/{row:02x}")?;
    let Ok(entries) = fs::read_dir(rt, folder.as_str()) else {
        return Ok(());
    };
    for entry in entries {
        let Ok(entry) = entry else {
            continue;
        };
        let file = file_in(rt, alloc, folder.as_str(), row, entry.file_name())?;
        if let Some(file) = file {
            files.push(file)?;
        }
    }
    Ok(())
}

/// Adds the files of each kind whose names begin with the two letters of this number.
pub fn add_row<R: Files + AllocGlobal + Clone + Drop>(
    rt: &R,
    path: &str,
    row: u8,
    files: &mut Vec<KeptFile>,
) -> Result<(), CacheDirError> {
    for kind in Kind::ALL {
        files_in_row(rt, path, kind, row, files)?;
    }
    Ok(())
}

/// The number that a folder's name of two hexadecimal digits is.
fn row_named(name: &str) -> Option<u8> {
    let is_row = name.len() == 2
        && name
            .bytes()
            .all(|byte| matches!(byte, b'0'..=b'9' | b'a'..=b'f'));
    if is_row {
        u8::from_str_radix(name, 16).ok()
    } else {
        None
    }
}

/// Adds the files of that kind. Only folders that are there are looked into: a new cache directory has few of them.
fn files_of_kind<R: Files + AllocGlobal + Clone + Drop>(
    rt: &R,
    path: &str,
    kind: Kind,
    files: &mut Vec<KeptFile>,
) -> Result<(), CacheDirError> {
    let name = kind.name();
    let folder = format!(in rt.alloc(); "{path}/{name}")?;
    let Ok(entries) = fs::read_dir(rt, folder.as_str()) else {
        return Ok(());
    };
    for entry in entries {
        let Ok(entry) = entry else {
            continue;
        };
        if let Some(row) = row_named(entry.file_name()) {
            files_in_row(rt, path, kind, row, files)?;
        }
    }
    Ok(())
}

/// All files that are kept.
pub fn all_files<R: Files + AllocGlobal + Clone + Drop>(
    rt: &R,
    path: &str,
) -> Result<Vec<KeptFile>, CacheDirError> {
    let mut files = Vec::new(rt.alloc());
    for kind in Kind::ALL {
        files_of_kind(rt, path, kind, &mut files)?;
    }
    Ok(files)
}

/// Puts those first that were used last.
pub fn order_by_use(files: &mut [KeptFile])
    ensures same { IsPermutation files.old files.new }
    ensures order { IsSortedBy used_later files.new }
{
    files.sort_unstable_by(|one, other| other.used.cmp(&one.used));
}

/// How many of the first files have no more than so many bytes together.
pub fn count_that_fit(files: &[KeptFile], room: u64) -> usize
    // They fit.
    ensures fit { bytes_together (take result files.now) ≤ room }
    // With one more they wouldn't.
    ensures most { (result ≡ length files.now)
        ⊎ (room < bytes_together (take (suc result) files.now)) }
{
    let mut left = room;
    let mut count = 0usize;
    for file in files {
        if left < file.size {
            return count;
        }
        left -= file.size;
        count += 1;
    }
    count
}
