//! A build as it is read from files.

use crate::asked::AskedLog;
use crate::error::PageError;
use cache_build_log::{
    Call, Kind, Sums, Texts, beginnings, chosen, other_commands, pack, read_log,
};
use std::alloc::{AllocError, Global};
use std::fs;
use std::rt::Files;

/// A build, or all builds of a log.
#[derive(Drop)]
pub struct Build {
    pub texts: Texts,
    /// In the order in which they began.
    pub calls: Vec<Call>,
    pub lanes: u32,
    pub sums: Sums,
    /// How many builds the log has, and how many lines that are none.
    pub builds: usize,
    pub broken: u64,
    /// Whether ninja's log was named, and has none of these calls.
    pub is_ninja_apart: bool,
}

impl Build {
    /// The call of these kinds that took longest; the last one of several.
    pub fn longest_of(&self, kinds: &[Kind]) -> Option<&Call> {
        let mut longest: Option<&Call> = None;
        let mut most = 0u64;
        for call in self.calls.as_slice() {
            if kinds.contains(&call.kind) && call.time() >= most {
                longest = Some(call);
                most = call.time();
            }
        }
        longest
    }
}

/// The bytes of a file.
fn read_bytes<R: Files + AllocGlobal>(rt: &R, path: &str) -> Result<Vec<u8>, PageError> {
    match fs::read(rt, path) {
        Ok(bytes) => Ok(bytes),
        Err(error) => Err(PageError::Said(format!(in rt.alloc(); "{path}: {error}")?)),
    }
}

/// The text of a file. Bytes that are no text make it an empty one.
pub fn read_text<R: Files + AllocGlobal>(rt: &R, path: &str) -> Result<String, PageError> {
    let bytes = read_bytes(rt, path)?;
    match String::from_utf8(bytes) {
        Ok(text) => Ok(text),
        Err(_) => Ok(String::new(rt.alloc())),
    }
}

/// Adds the commands of ninja's log that aren't among the calls. False where it has none of these.
fn add_others(
    alloc: Global,
    texts: &mut Texts,
    calls: &mut Vec<Call>,
    log: &str,
) -> Result<bool, AllocError> {
    let Some(others) = other_commands(alloc, texts, calls.as_slice(), log)? else {
        return Ok(false);
    };
    for other in others {
        calls.push(other)?;
    }
    calls.sort_by_key(|call| call.start)?;
    Ok(true)
}

/// What ninja's log says, where one is named.
fn read_ninja<R: Files + AllocGlobal>(rt: &R, path: &str) -> Result<String, PageError> {
    match path.is_empty() {
        true => Ok(String::new(rt.alloc())),
        false => read_text(rt, path),
    }
}

/// The build that is asked for, of a log of these bytes, with what ninja's log says.
fn build_of(
    alloc: Global,
    asked: &AskedLog<'_>,
    bytes: &[u8],
    ninja: &str,
) -> Result<Build, AllocError> {
    let log = read_log(alloc, bytes)?;
    let builds = beginnings(alloc, log.calls.as_slice())?.len();
    let mut texts = log.texts;
    let mut calls = chosen(alloc, log.calls, asked.has_all)?;
    let mut is_ninja_apart = false;
    if !asked.ninja.is_empty() {
        is_ninja_apart = !add_others(alloc, &mut texts, &mut calls, ninja)?;
    }
    let lanes = pack(alloc, calls.as_mut_slice())?;
    let sums = Sums::of(calls.as_slice());
    Ok(Build {
        texts,
        calls,
        lanes,
        sums,
        builds,
        broken: log.broken,
        is_ninja_apart,
    })
}

/// The build of a log that is asked for.
pub fn read_build<R: Files + AllocGlobal>(
    rt: &R,
    asked: &AskedLog<'_>,
) -> Result<Build, PageError> {
    let bytes = read_bytes(rt, asked.path)?;
    let ninja = read_ninja(rt, asked.ninja)?;
    Ok(build_of(rt.alloc(), asked, bytes.as_slice(), ninja.as_str())?)
}
