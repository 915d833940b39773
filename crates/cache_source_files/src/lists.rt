//! Lists of files that a compiler writes for Make: the files that a text is made of.

use cache_dir::digest_of;
use cache_host::HostError;
use memchr::memmem;
use std::alloc::{AllocError, Global};
use std::collections::HashSet;

/// The digest of a list.
pub fn digest_of_list(alloc: Global, list: &[u8]) -> Result<String, HostError> {
    Ok(digest_of(alloc, list)?)
}

/// What comes after the targets of a list's first rule.
fn after_targets(list: &[u8]) -> &[u8] {
    match memmem::find(list, b": ") {
        Some(at) => list.get(at.saturating_add(2)..).unwrap_or(&[]),
        None => &[],
    }
}

/// The first rule of a list, without its targets: up to the first line that doesn't go on.
fn first_rule(list: &[u8]) -> &[u8] {
    let after = after_targets(list);
    let mut before = b' ';
    for (at, byte) in after.iter().enumerate() {
        if *byte == b'\n' && before != b'\\' {
            return after.get(..at).unwrap_or(after);
        }
        before = *byte;
    }
    after
}

/// Whether it is a name, or a part of one that has spaces in it, and no end of a line that goes on.
fn is_name(part: &[u8]) -> bool {
    !matches!(part, [] | b"\\")
}

/// The names of a rule, cut at spaces and at the ends of its lines.
fn names_in(alloc: Global, rule: &[u8]) -> Result<HashSet<&[u8]>, AllocError> {
    let mut names = HashSet::new(alloc);
    for part in rule.split(|byte| *byte == b' ' || *byte == b'\n') {
        if is_name(part) {
            names.insert(part)?;
        }
    }
    Ok(names)
}

/// Whether all files that a compile's dependency file names are in the list of those that its text is made of.
pub fn names_files_of(alloc: Global, written: &[u8], list: &[u8]) -> Result<bool, AllocError> {
    let known = names_in(alloc, first_rule(list))?;
    for part in first_rule(written).split(|byte| *byte == b' ' || *byte == b'\n') {
        if is_name(part) && !(&known).contains(&part) {
            return Ok(false);
        }
    }
    Ok(true)
}
