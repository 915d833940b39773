//! Whether hits are compiled too, and where what is kept differs from what the compiler made.

use crate::logging::log;
use base_files::OsBytes;
use cache_host::{CommandLine, HostError, text_in};
use std::alloc::{AllocError, Global};
use std::fs::File;
use std::rt::Files;
use wrap_base::Output;

/// How many letters of a call's digest say whether it is compared.
const LETTERS: usize = 8;

/// What comparing showed.
#[derive(Drop)]
pub enum Audit {
    /// Nothing was compared.
    None,
    /// What was kept is what the compiler made.
    Alike,
    /// What differs first, and where.
    Differs(String),
}

/// Whether the hits of a command line of that digest are compared: one of so many command lines.
pub fn is_one_of(digest: &str, audit: u64) -> bool {
    let front = digest.get(..LETTERS).unwrap_or("");
    match u64::from_str_radix(front, 16) {
        Ok(number) => audit != 0 && number % audit == 0,
        Err(_) => false,
    }
}

/// Where two contents differ first: the number of the byte, from 0; nothing where they are alike.
fn difference(one: &[u8], other: &[u8]) -> Option<usize> {
    if one == other {
        return None;
    }
    for (at, byte) in one.iter().enumerate() {
        match other.get(at) {
            Some(there) if *there == *byte => {}
            _ => return Some(at),
        }
    }
    Some(one.len())
}

/// Copies of outputs.
pub fn copies_of(alloc: Global, outputs: &[Output]) -> Result<Vec<Output>, AllocError> {
    let mut copies = Vec::with_capacity(alloc, outputs.len())?;
    for output in outputs {
        copies.push(output.clone()?)?;
    }
    Ok(copies)
}

/// Where those that are kept of the outputs differ from those that the compiler made.
pub fn difference_of_outputs(
    alloc: Global,
    kept: &[Output],
    made: &[Output],
) -> Result<Option<String>, AllocError> {
    if kept.len() != made.len() {
        return Ok(Some(String::from_str(alloc, "outputs")?));
    }
    for (number, kept) in kept.iter().enumerate() {
        let Some(made) = made.get(number) else {
            break;
        };
        if kept.name.as_bytes() != made.name.as_bytes() {
            return Ok(Some(String::from_str(alloc, "outputs")?));
        }
        if let Some(at) = difference(kept.contents.as_bytes(), made.contents.as_bytes()) {
            return Ok(Some(format!(in alloc; "object at byte {at}")?));
        }
    }
    Ok(None)
}

/// Where texts differ that are of this name.
pub fn difference_of_texts(
    alloc: Global,
    name: &str,
    kept: &[u8],
    made: &[u8],
) -> Result<Option<String>, AllocError> {
    match difference(kept, made) {
        Some(at) => Ok(Some(format!(in alloc; "{name} at byte {at}")?)),
        None => Ok(None),
    }
}

/// Puts a line into the log of what differed: under which digest, what, and the command.
pub fn log_difference<R: Files<File = File> + AllocGlobal>(
    rt: &R,
    line: &CommandLine,
    digest: &OsBytes,
    what: &str,
) -> Result<(), HostError> {
    let alloc = rt.alloc();
    let digest = text_in(digest)?;
    let folder = line.folder.path.as_str();
    let place = format!(in alloc; "{folder}/audit.log")?;
    let said = format!(in alloc; "{digest} {what}")?;
    log(rt, line, place.as_str(), said.as_str(), "")
}
