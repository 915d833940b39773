//! Lists that several machines share. A state of a file or a folder is one machine's own, so lists go without them: each name is looked at, and
//! each file is read. Who takes a list from another machine puts its own states there, once all is as the list says; and so does who finds most
//! states changed, as after a checkout.

use crate::manifests::{WatchedResult, is_of_folder, rows_of};
use crate::unwatched::Unwatched;
use crate::watch_list::{FileRow, Looking, file_ahead, folder_ahead, holds, text_of};
use base_files::FileTime;
use base_formats::{put_framed, put_number, read_framed, read_number};
use cache_disk::State;
use std::alloc::{AllocError, Global};
use std::rt::Files;

/// A state that no file and no folder has.
const NO_STATE: [u8; 56] = [0; 56];

/// Adds the first folder of these bytes without its state, and returns what comes after it.
fn put_folder<'a>(bytes: &'a [u8], out: &mut Vec<u8>) -> Result<&'a [u8], Unwatched> {
    let (row, rest) = folder_ahead(bytes)?;
    put_framed(out, row.path)?;
    out.extend_from_slice(&NO_STATE)?;
    put_number(out, Looking::Always.code())?;
    put_framed(out, row.twin)?;
    put_framed(out, row.names)?;
    Ok(rest)
}

/// Adds a file without its state.
fn put_without_state(row: FileRow<'_>, out: &mut Vec<u8>) -> Result<(), AllocError> {
    put_framed(out, row.path)?;
    out.extend_from_slice(&NO_STATE)?;
    put_framed(out, row.digest)
}

/// Adds the folders at the front of these bytes without their states, and gives what comes after them.
fn put_folders<'a>(bytes: &'a [u8], out: &mut Vec<u8>) -> Result<&'a [u8], Unwatched> {
    let (count, mut rest) = read_number(bytes)?;
    put_number(out, count)?;
    for _ in 0..count {
        rest = put_folder(rest, out)?;
    }
    Ok(rest)
}

/// Adds the files ahead in these bytes without their states.
fn put_files(bytes: &[u8], out: &mut Vec<u8>) -> Result<(), Unwatched> {
    let (count, mut rest) = read_number(bytes)?;
    put_number(out, count)?;
    for _ in 0..count {
        let (row, after) = file_ahead(rest)?;
        put_without_state(row, out)?;
        rest = after;
    }
    match rest.is_empty() {
        true => Ok(()),
        false => Err(Unwatched::Device),
    }
}

/// The list without states.
fn without_states(alloc: Global, list: &[u8]) -> Result<Vec<u8>, Unwatched> {
    let mut out = Vec::new(alloc);
    let (dir, rest) = read_framed(list)?;
    put_framed(&mut out, dir)?;
    let rest = put_folders(rest, &mut out)?;
    put_files(rest, &mut out)?;
    Ok(out)
}

/// What a list is for others: none where it isn't well formed.
fn list_to_send(alloc: Global, list: &[u8]) -> Result<Option<Vec<u8>>, AllocError> {
    match without_states(alloc, list) {
        Ok(list) => Ok(Some(list)),
        Err(Unwatched::Memory) => Err(AllocError),
        Err(_) => Ok(None),
    }
}

/// The lists as others may have them: without states, and without those that aren't well formed. None where none is left.
pub fn lists_to_send(alloc: Global, lists: &[u8]) -> Result<Option<Vec<u8>>, AllocError> {
    let mut out = Vec::new(alloc);
    for row in rows_of(alloc, lists)? {
        if let Some(list) = list_to_send(alloc, row.list)? {
            row.with(list.as_slice()).put(&mut out)?;
        }
    }
    match out.is_empty() {
        true => Ok(None),
        false => Ok(Some(out)),
    }
}

/// Adds the folder at the front of these bytes with its present state, and gives what comes after it. Where it was changed only just now its
/// names are looked at all the same.
fn fill_folder<'a, R: Files>(
    rt: &R,
    bytes: &'a [u8],
    before: FileTime,
    out: &mut Vec<u8>,
) -> Result<&'a [u8], Unwatched> {
    let (mut row, rest) = folder_ahead(bytes)?;
    row.state = State::at(rt, text_of(row.path)?)?;
    row.looking = Looking::of(row.state, before).code();
    row.put(out)?;
    Ok(rest)
}

/// Adds the file at the front of these bytes with its present state, unless it was changed only just now, and gives what comes after it.
fn fill_file<'a, R: Files>(
    rt: &R,
    bytes: &'a [u8],
    before: FileTime,
    out: &mut Vec<u8>,
) -> Result<&'a [u8], Unwatched> {
    let (mut row, rest) = file_ahead(bytes)?;
    row.state = State::at(rt, text_of(row.path)?)?;
    match row.state.is_before(before) {
        true => row.put(out)?,
        false => put_without_state(row, out)?,
    }
    Ok(rest)
}

/// Adds the folders at the front of these bytes with their states, and gives what comes after them.
fn fill_folders<'a, R: Files>(
    rt: &R,
    bytes: &'a [u8],
    before: FileTime,
    out: &mut Vec<u8>,
) -> Result<&'a [u8], Unwatched> {
    let (count, mut rest) = read_number(bytes)?;
    put_number(out, count)?;
    for _ in 0..count {
        rest = fill_folder(rt, rest, before, out)?;
    }
    Ok(rest)
}

/// Adds the files ahead in these bytes with their states.
fn fill_files<R: Files>(
    rt: &R,
    bytes: &[u8],
    before: FileTime,
    out: &mut Vec<u8>,
) -> Result<(), Unwatched> {
    let (count, mut rest) = read_number(bytes)?;
    put_number(out, count)?;
    for _ in 0..count {
        rest = fill_file(rt, rest, before, out)?;
    }
    Ok(())
}

/// The list with the states of this machine, which were changed last before that moment.
fn with_states<R: Files + AllocGlobal>(
    rt: &R,
    list: &[u8],
    before: FileTime,
) -> Result<Vec<u8>, Unwatched> {
    let mut out = Vec::new(rt.alloc());
    let (dir, rest) = read_framed(list)?;
    put_framed(&mut out, dir)?;
    let rest = fill_folders(rt, rest, before, &mut out)?;
    fill_files(rt, rest, before, &mut out)?;
    Ok(out)
}

/// Adds a row with the present states where a call in that folder finds all as it says. States are read before that is looked at, so that what
/// changes meanwhile is seen the next time.
fn put_filled<R: Files + AllocGlobal>(
    rt: &R,
    dir: &[u8],
    row: WatchedResult<'_>,
    before: FileTime,
    out: &mut Vec<u8>,
) -> Result<(), AllocError> {
    let filled = with_states(rt, row.list, before);
    let fits = holds(rt, dir, row.list, before)?;
    match &filled {
        Ok(list) if fits => row.with(list.as_slice()).put(out),
        _ => row.put(out),
    }
}

/// The lists of another machine, with the states of this one where a call in that folder finds all as they say.
pub fn lists_taken<R: Files + AllocGlobal>(
    rt: &R,
    dir: &[u8],
    lists: &[u8],
    before: FileTime,
) -> Result<Vec<u8>, AllocError> {
    let mut out = Vec::new(rt.alloc());
    for row in rows_of(rt.alloc(), lists)? {
        put_filled(rt, dir, row, before, &mut out)?;
    }
    Ok(out)
}

/// The lists with the present states in those of that result for calls in that folder, where a call there finds all as they say.
pub fn lists_renewed<R: Files + AllocGlobal>(
    rt: &R,
    dir: &[u8],
    lists: &[u8],
    key: &[u8],
    before: FileTime,
) -> Result<Vec<u8>, AllocError> {
    let mut out = Vec::new(rt.alloc());
    for row in rows_of(rt.alloc(), lists)? {
        match row.key == key && is_of_folder(row.list, dir) {
            true => put_filled(rt, dir, row, before, &mut out)?,
            false => row.put(&mut out)?,
        }
    }
    Ok(out)
}
