//! The lists of what to watch of a manifest's results, kept beside the manifest: the key of a result, which messages were printed beside it,
//! and its list, each after its length. A result may have a list for each of several folders in which calls were made.

use crate::watch_list::{folder_of, looks_for};
use base_files::FileTime;
use base_formats::{put_framed, read_framed};
use ckeys_include_records::{CachedResult, PreprocessorCacheEntry};
use std::alloc::{AllocError, Global};
use std::collections::HashSet;
use std::rt::Files;

/// How many lists are kept of one result.
const MOST: usize = 4;

/// What to watch of a result.
#[derive(Clone, Copy)]
pub struct WatchedResult<'a> {
    pub key: &'a [u8],
    /// The digest of the messages that were printed beside it: those that are kept beside it may be another call's by now.
    pub messages: &'a [u8],
    pub list: &'a [u8],
}

/// The row at the front of these bytes, and what comes after it.
fn row_ahead(bytes: &[u8]) -> Option<(WatchedResult<'_>, &[u8])> {
    let (key, rest) = read_framed(bytes).ok()?;
    let (messages, rest) = read_framed(rest).ok()?;
    let (list, rest) = read_framed(rest).ok()?;
    Some((
        WatchedResult {
            key,
            messages,
            list,
        },
        rest,
    ))
}

/// The rows of these bytes, up to the first that is none.
pub(crate) fn rows_of(alloc: Global, bytes: &[u8]) -> Result<Vec<WatchedResult<'_>>, AllocError> {
    let mut rows = Vec::new(alloc);
    let mut rest = bytes;
    // Each turn takes a byte at least.
    for _ in 0..bytes.len() {
        let Some((row, after)) = row_ahead(rest) else {
            break;
        };
        rows.push(row)?;
        rest = after;
    }
    Ok(rows)
}

/// What is noted of headers in what a manifest has beside its results, and the rows after that.
pub fn noted_and_rows(watched: &[u8]) -> (&[u8], &[u8]) {
    let Ok((empty, rest)) = read_framed(watched) else {
        return (&[], watched);
    };
    match read_framed(rest) {
        Ok(parts) if empty.is_empty() => parts,
        _ => (&[], watched),
    }
}

/// How many folders and files had to be looked at, where a call in that folder, which began at that moment, finds all files where the text of
/// this key has them from, and would print these messages. Nothing where it doesn't.
pub fn looks_for_result<R: Files + AllocGlobal>(
    rt: &R,
    dir: &[u8],
    rows: &[u8],
    key: &[u8],
    messages: &[u8],
    before: FileTime,
) -> Result<Option<u64>, AllocError> {
    for row in rows_of(rt.alloc(), rows)? {
        if row.key != key || row.messages != messages {
            continue;
        }
        if let Some(looks) = looks_for(rt, dir, row.list, before)? {
            return Ok(Some(looks));
        }
    }
    Ok(None)
}

/// The bytes of a result's key.
fn key_of(text: &CachedResult) -> &[u8] {
    text.key.as_str().as_bytes()
}

/// The keys of a manifest's results.
fn keys_of(alloc: Global, entry: &PreprocessorCacheEntry) -> Result<HashSet<&[u8]>, AllocError> {
    let mut keys = HashSet::new(alloc);
    for result in entry.results() {
        keys.insert(key_of(result))?;
    }
    Ok(keys)
}

/// Whether the list is of a call in that folder.
pub(crate) fn is_of_folder(list: &[u8], dir: &[u8]) -> bool {
    match folder_of(list) {
        Ok(folder) => folder == dir,
        Err(_) => false,
    }
}

impl<'a> WatchedResult<'a> {
    /// It with another list.
    pub(crate) fn with(self, list: &'a [u8]) -> WatchedResult<'a> {
        WatchedResult { list, ..self }
    }

    /// Adds it as a row.
    pub(crate) fn put(self, out: &mut Vec<u8>) -> Result<(), AllocError> {
        put_framed(out, self.key)?;
        put_framed(out, self.messages)?;
        put_framed(out, self.list)
    }
}

/// Adds a new row for a call in that folder, then the rows of these keys without those that it replaces.
fn put_rows(
    new: WatchedResult<'_>,
    rows: &[WatchedResult<'_>],
    keys: &HashSet<&[u8]>,
    dir: &[u8],
    out: &mut Vec<u8>,
) -> Result<(), AllocError> {
    new.put(out)?;
    let mut count: usize = 1;
    for row in rows {
        let is_replaced = row.key == new.key && (is_of_folder(row.list, dir) || count >= MOST);
        if is_replaced || !(&*keys).contains(&row.key) {
            continue;
        }
        count = count.saturating_add(usize::from(row.key == new.key));
        row.put(out)?;
    }
    Ok(())
}

/// The rows with that of this result, for a call in that folder, ahead of those that the manifest's results had.
pub fn with_list(
    alloc: Global,
    rows: &[u8],
    entry: &PreprocessorCacheEntry,
    dir: &[u8],
    new: WatchedResult<'_>,
) -> Result<Vec<u8>, AllocError> {
    let keys = keys_of(alloc, entry)?;
    let rows = rows_of(alloc, rows)?;
    let mut out = Vec::new(alloc);
    put_rows(new, rows.as_slice(), &keys, dir, &mut out)?;
    Ok(out)
}

/// Adds a copy of a result.
fn add(entry: &mut PreprocessorCacheEntry, text: &CachedResult) -> Result<(), AllocError> {
    let key = text.key.clone()?;
    let includes = text.includes.clone()?;
    entry.add_result(key, includes)
}

/// The manifest without the result of that key.
pub fn without(
    alloc: Global,
    entry: &PreprocessorCacheEntry,
    key: &[u8],
) -> Result<PreprocessorCacheEntry, AllocError> {
    let mut rest = PreprocessorCacheEntry::new(alloc);
    for result in entry.results() {
        if key_of(result) != key {
            add(&mut rest, result)?;
        }
    }
    Ok(rest)
}

/// The manifest with the results of another one that it doesn't have.
pub fn with_results_of(
    alloc: Global,
    entry: &PreprocessorCacheEntry,
    other: &PreprocessorCacheEntry,
) -> Result<PreprocessorCacheEntry, AllocError> {
    let mut whole = entry.clone()?;
    let keys = keys_of(alloc, entry)?;
    for result in other.results() {
        if !(&keys).contains(&key_of(result)) {
            add(&mut whole, result)?;
        }
    }
    Ok(whole)
}
