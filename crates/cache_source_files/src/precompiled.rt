//! Precompiled headers that a compiler may take in place of one that a text shows.

use base_files::{OsBytes, join};
use cache_disk::folder_of;
use cache_host::{CommandLine, HostError};
use cache_known_options::{Placed, PlacedWords, after_front, is_among};
use cache_written_lines::NamedFiles;
use memchr::memrchr;
use std::alloc::Global;
use std::collections::BTreeSet;
use std::fs;
use std::rt::Files;

/// What the name of a precompiled header has after the name of its header.
const ENDINGS: [&str; 2] = [".gch", ".pch"];

/// What GCC takes in before all else.
const PREDEFINED: &[u8] = b"/stdc-predef.h";

/// Words for a folder that is searched, which follows in the same word or is the next one.
const FOLDERS: [&str; 4] = ["-I", "-iquote", "-isystem", "-idirafter"];

/// Variables that list folders which are searched.
const VARIABLES: [&[u8]; 3] = [b"CPATH", b"C_INCLUDE_PATH", b"CPLUS_INCLUDE_PATH"];

/// How many of the last parts of a header's path its name has at most.
const PARTS: usize = 4;

/// The first file that a text takes in: a compiler looks for a precompiled header for that one alone.
fn first_taken_in(named: &NamedFiles) -> Option<&OsBytes> {
    let mut is_input = true;
    for file in named.files.iter() {
        if file.path.as_bytes().ends_with(PREDEFINED) {
            continue;
        }
        if !is_input {
            return Some(&file.path);
        }
        is_input = false;
    }
    None
}

/// The folder by which a word has a compiler search.
fn folder_in(placed: Placed<'_>) -> Option<&[u8]> {
    let word = placed.word.as_bytes();
    match placed.option {
        Some(option) if is_among(&FOLDERS, option.as_bytes()) => Some(word),
        Some(_) => None,
        None => match after_front(&FOLDERS, word) {
            Some((_, folder)) => Some(folder),
            None => None,
        },
    }
}

/// The folders that are searched for what a call takes in, each once: its own, its input's, and those that words and variables name.
fn folders_of<'a>(
    alloc: Global,
    line: &'a CommandLine,
    input: &'a [u8],
) -> Result<BTreeSet<&'a [u8]>, HostError> {
    let mut folders: BTreeSet<&[u8]> = BTreeSet::new(alloc);
    folders.insert(line.dir.as_bytes())?;
    folders.insert(folder_of(input))?;
    for placed in PlacedWords::of(line.words.as_slice()) {
        if let Some(folder) = folder_in(placed) {
            folders.insert(folder)?;
        }
    }
    for variable in &VARIABLES {
        let list = line.value_of(variable);
        for folder in list.split(|byte| *byte == b':') {
            if !folder.is_empty() {
                folders.insert(folder)?;
            }
        }
    }
    Ok(folders)
}

/// The names by which a header of that path may have been asked for: its last parts, so many at most.
fn header_names(alloc: Global, path: &[u8]) -> Result<Vec<&[u8]>, HostError> {
    let mut names = Vec::new(alloc);
    let mut front = path;
    for _ in 0..PARTS {
        let Some(at) = memrchr(b'/', front) else {
            break;
        };
        names.push(path.get(at.saturating_add(1)..).unwrap_or(&[]))?;
        front = front.get(..at).unwrap_or(&[]);
    }
    Ok(names)
}

/// Whether a precompiled header lies beside that path.
fn is_precompiled<R: Files + AllocGlobal>(rt: &R, path: &[u8]) -> Result<bool, HostError> {
    let Ok(path) = str::from_utf8(path) else {
        return Ok(false);
    };
    for ending in &ENDINGS {
        let precompiled = format!(in rt.alloc(); "{path}{ending}")?;
        if fs::metadata(rt, precompiled.as_str()).is_ok() {
            return Ok(true);
        }
    }
    Ok(false)
}

/// Whether the folder is there in which a path is. Where it isn't no file need be asked for in it.
fn has_folder<R: Files>(rt: &R, path: &[u8]) -> bool {
    match str::from_utf8(folder_of(path)) {
        Ok(folder) => fs::metadata(rt, folder).is_ok(),
        Err(_) => false,
    }
}

/// Whether a precompiled header lies in a folder under one of these names.
fn has_in<R: Files + AllocGlobal>(
    rt: &R,
    line: &CommandLine,
    folder: &[u8],
    names: &[&[u8]],
) -> Result<bool, HostError> {
    let folder = join(rt.alloc(), line.dir.as_bytes(), folder)?;
    for name in names {
        let path = join(rt.alloc(), folder.as_bytes(), name)?;
        let is_deeper = name.contains(&b'/');
        if is_deeper && !has_folder(rt, path.as_bytes()) {
            continue;
        }
        if is_precompiled(rt, path.as_bytes())? {
            return Ok(true);
        }
    }
    Ok(false)
}

/// Whether a precompiled header lies beside the first file that a text takes in, or where a compiler comes by before it finds that.
pub fn has_precompiled<R: Files + AllocGlobal>(
    rt: &R,
    line: &CommandLine,
    named: &NamedFiles,
) -> Result<bool, HostError> {
    let (Some(input), Some(path)) = (named.files.first(), first_taken_in(named)) else {
        return Ok(false);
    };
    if is_precompiled(rt, path.as_bytes())? {
        return Ok(true);
    }
    let names = header_names(rt.alloc(), path.as_bytes())?;
    for folder in folders_of(rt.alloc(), line, input.path.as_bytes())? {
        if has_in(rt, line, folder, names.as_slice())? {
            return Ok(true);
        }
    }
    Ok(false)
}
