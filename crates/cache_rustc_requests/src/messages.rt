//! What rustc prints as JSON, line by line: a notice for each output that it wrote, by its path, and diagnostics. Notices of a kept call are
//! printed with the paths of the call that is answered.

use memchr::memmem;
use std::alloc::{AllocError, Global};

/// What a notice of an output begins with, up to its path, in releases of rustc.
const NOTICES: [&str; 2] = [
    "{\"$message_type\":\"artifact\",\"artifact\":\"",
    "{\"artifact\":\"",
];

/// What a notice says of its path: nothing where the line is none.
fn path_in(line: &[u8]) -> Option<(&[u8], &[u8])> {
    for front in &NOTICES {
        if line.starts_with(front.as_bytes()) {
            return line.split_at_checked(front.len());
        }
    }
    None
}

/// Whether all lines are notices of outputs.
pub fn are_notices(messages: &[u8]) -> bool {
    for line in messages.split(|byte| *byte == b'\n') {
        if !line.is_empty() && path_in(line).is_none() {
            return false;
        }
    }
    true
}

/// Whether a folder is written in JSON as it is.
fn is_plain(folder: &[u8]) -> bool {
    folder
        .iter()
        .all(|byte| *byte >= b' ' && *byte != b'"' && *byte != b'\\')
}

/// The rest of a path after a folder and its slash.
fn after_folder<'a>(path: &'a [u8], folder: &[u8]) -> Option<&'a [u8]> {
    path.strip_prefix(folder)?.strip_prefix(b"/")
}

/// Adds a line with the new folder in the place of the old one. False where the line speaks of the old one in another way.
fn push_moved(
    line: &[u8],
    old: &[u8],
    new: &[u8],
    moved: &mut Vec<u8>,
) -> Result<bool, AllocError> {
    if let Some((front, path)) = path_in(line) {
        if let Some(rest) = after_folder(path, old) {
            moved.extend_from_slice(front)?;
            moved.extend_from_slice(new)?;
            moved.push(b'/')?;
            moved.extend_from_slice(rest)?;
            return Ok(memmem::find(rest, old).is_none());
        }
    }
    moved.extend_from_slice(line)?;
    Ok(memmem::find(line, old).is_none())
}

/// Messages of a call whose outputs went to the old folder, as they are for the new one. Nothing where that can't be determined.
pub fn moved(
    alloc: Global,
    messages: &[u8],
    old: &[u8],
    new: &[u8],
) -> Result<Option<Vec<u8>>, AllocError> {
    let mut moved = Vec::with_capacity(alloc, messages.len())?;
    if old == new {
        moved.extend_from_slice(messages)?;
        return Ok(Some(moved));
    }
    if !is_plain(old) || !is_plain(new) {
        return Ok(None);
    }
    let mut is_first = true;
    for line in messages.split(|byte| *byte == b'\n') {
        if !is_first {
            moved.push(b'\n')?;
        }
        is_first = false;
        if !push_moved(line, old, new, &mut moved)? {
            return Ok(None);
        }
    }
    Ok(Some(moved))
}
