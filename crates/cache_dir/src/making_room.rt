//! What was used least recently makes room where all that is kept takes more of the disk than the limit.
//!
//! What files take is noted once one was put, by looking into the folders of its own two letters alone. All folders are looked into only
//! where the limit is passed, and then a tenth of it is made free, so that it isn't passed again soon.

ghost use Rattle.std.specs.Prelude.{◌≡◌};
ghost use Rattle.cache_dir.specs.Together.{bytes_together, saturated};

use crate::error::CacheDirError;
use crate::folder::CacheDir;
use crate::limit::room_within;
use crate::listing::{KeptFile, add_row, all_files, count_that_fit, order_by_use};
use crate::sizes::Sizes;
use std::alloc::Global;
use std::fs;
use std::rt::Files;

/// What these files take of the disk, or the largest number that there is.
fn total_of(files: &[KeptFile]) -> u64
    ensures { result ≡ saturated (bytes_together files.now) }
{
    let mut total = 0u64;
    for file in files {
        total = total.saturating_add(file.size);
    }
    total
}

/// Takes these files away. Whoever reads one of them has it open, and reads it to its end.
fn remove<R: Files>(rt: &R, files: &[KeptFile]) {
    for file in files {
        let _ = fs::remove_file(rt, file.place.as_str());
    }
}

/// Takes away what was used least recently, until nine tenths of the limit hold the rest.
fn make_free<R: Files + AllocGlobal + Clone + Drop>(
    rt: &R,
    folder: &CacheDir,
) -> Result<(), CacheDirError> {
    let path = folder.path.as_str();
    let mut files = all_files(rt, path)?;
    order_by_use(files.as_mut_slice());
    let count = count_that_fit(files.as_slice(), room_within(folder.limit));
    let (stay, go) = files.as_slice().split_at(count);
    remove(rt, go);
    Sizes::of(rt.alloc(), stay)?.write(rt, path, folder.umask)
}

/// The sizes, with those of these rows as they are now.
fn sizes_with_rows<R: Files + AllocGlobal + Clone + Drop>(
    rt: &R,
    path: &str,
    rows: &[u8],
) -> Result<Sizes, CacheDirError> {
    let mut sizes = Sizes::read(rt, path)?;
    for row in rows {
        let mut files = Vec::new(rt.alloc());
        add_row(rt, path, *row, &mut files)?;
        sizes.note(rt, path, *row, total_of(files.as_slice()))?;
    }
    Ok(sizes)
}

/// The row of a file of this name.
fn row_of(name: &str) -> Result<u8, CacheDirError> {
    let Some((front, _)) = name.split_at_checked(2) else {
        return Err(CacheDirError::Unreadable);
    };
    match u8::from_str_radix(front, 16) {
        Ok(row) => Ok(row),
        Err(_) => Err(CacheDirError::Unreadable),
    }
}

/// The rows of files of these names, each once.
fn rows_of(alloc: Global, names: &[&str]) -> Result<Vec<u8>, CacheDirError> {
    let mut rows = Vec::new(alloc);
    for name in names {
        let row = row_of(name)?;
        if !rows.contains(&row) {
            rows.push(row)?;
        }
    }
    Ok(rows)
}

/// The sizes, by looking into each folder.
fn sizes_anew<R: Files + AllocGlobal + Clone + Drop>(
    rt: &R,
    folder: &CacheDir,
) -> Result<Sizes, CacheDirError> {
    let path = folder.path.as_str();
    let files = all_files(rt, path)?;
    let sizes = Sizes::of(rt.alloc(), files.as_slice())?;
    sizes.write(rt, path, folder.umask)?;
    Ok(sizes)
}

/// Sees to it that the limit holds, where what is kept has these sizes.
fn hold<R: Files + AllocGlobal + Clone + Drop>(
    rt: &R,
    folder: &CacheDir,
    sizes: &Sizes,
) -> Result<(), CacheDirError> {
    let limit = folder.limit;
    if limit != 0 && limit < sizes.total() {
        make_free(rt, folder)?;
        folder.has_made_room.set(true);
    }
    Ok(())
}

/// Sees to it that the limit holds once files of these names were put.
pub fn make_room<R: Files + AllocGlobal + Clone + Drop>(
    rt: &R,
    folder: &CacheDir,
    names: &[&str],
) -> Result<(), CacheDirError> {
    if folder.is_read_only || names.is_empty() {
        return Ok(());
    }
    let rows = rows_of(rt.alloc(), names)?;
    let path = folder.path.as_str();
    let sizes = match sizes_with_rows(rt, path, rows.as_slice()) {
        Ok(sizes) => sizes,
        Err(_) => sizes_anew(rt, folder)?,
    };
    hold(rt, folder, &sizes)
}

/// Sees to it that the limit holds, whatever was noted of sizes.
pub fn hold_limit<R: Files + AllocGlobal + Clone + Drop>(
    rt: &R,
    folder: &CacheDir,
) -> Result<(), CacheDirError> {
    let sizes = sizes_anew(rt, folder)?;
    hold(rt, folder, &sizes)
}

/// Takes away what wasn't used since that moment, in nanoseconds since 1970.
pub fn remove_unused<R: Files + AllocGlobal + Clone + Drop>(
    rt: &R,
    folder: &CacheDir,
    moment: u128,
) -> Result<(), CacheDirError> {
    for file in all_files(rt, folder.path.as_str())? {
        if file.used < moment {
            let _ = fs::remove_file(rt, file.place.as_str());
        }
    }
    let _sizes = sizes_anew(rt, folder)?;
    Ok(())
}

/// How many files are kept, and the bytes that they take on the disk.
pub fn kept_in<R: Files + AllocGlobal + Clone + Drop>(
    rt: &R,
    path: &str,
) -> Result<(usize, u64), CacheDirError> {
    let files = all_files(rt, path)?;
    Ok((files.len(), total_of(files.as_slice())))
}
