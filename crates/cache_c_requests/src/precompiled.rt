//! A precompiled header beside the header that words take in first: a call with one isn't kept, so its text isn't asked for either.

use base_files::{OsBytes, join};
use cache_host::{CommandLine, HostError};
use cache_known_options::{Placed, PlacedWords};
use std::fs;
use std::rt::Files;

/// The word that takes in a header before the input.
const TAKING_IN: &[u8] = b"-include";

/// How the names of precompiled headers end.
const ENDINGS: [&[u8]; 2] = [b".gch", b".pch"];

/// The header that a word takes in.
fn taken_in(placed: Placed<'_>) -> Option<&[u8]> {
    let word = placed.word.as_bytes();
    match placed.option {
        Some(option) if matches!(option.as_bytes(), TAKING_IN) => Some(word),
        Some(_) => None,
        None if placed.takes_value() => None,
        None => word.strip_prefix(TAKING_IN),
    }
}

/// The header that words take in first.
fn first_in(words: &[OsBytes]) -> Option<&[u8]> {
    for placed in PlacedWords::of(words) {
        if let Some(name) = taken_in(placed) {
            return Some(name);
        }
    }
    None
}

/// Whether something lies under the path of a header with that ending.
fn is_there<R: Files + AllocGlobal>(
    rt: &R,
    header: &OsBytes,
    ending: &[u8],
) -> Result<bool, HostError> {
    let mut path = Vec::from_slice(rt.alloc(), header.as_bytes())?;
    path.extend_from_slice(ending)?;
    match str::from_utf8(path.as_slice()) {
        Ok(path) => Ok(fs::metadata(rt, path).is_ok()),
        Err(_) => Ok(false),
    }
}

/// Refuses a call whose words take in first a header of its folder that has a precompiled one beside it: the compiler may take that. CMake has
/// such words for all sources of a target.
pub(crate) fn refuse_precompiled<R: Files + AllocGlobal>(
    rt: &R,
    line: &CommandLine,
) -> Result<(), HostError> {
    let Some(name) = first_in(line.words.as_slice()) else {
        return Ok(());
    };
    let header = join(rt.alloc(), line.dir.as_bytes(), name)?;
    for ending in &ENDINGS {
        if is_there(rt, &header, ending)? {
            return Err(HostError::Precompiled);
        }
    }
    Ok(())
}
