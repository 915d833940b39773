//! What is read of bytes: include records, and what is hashed of requests to rustc.

use crate::runs::Stop;
use base_files::Listed;
use ckeys_base::error::Error;
use ckeys_include_records::PreprocessorCacheEntry;
use rustc_parts::parts::RShape;
use rustc_parts::read_key_bytes;
use std::alloc::{AllocError, Global};

/// Adds what is read of these bytes as an include record, or why none is. That it is written as these bytes is promised by `read`.
pub(crate) fn push_record(alloc: Global, bytes: &[u8], text: &mut String) -> Result<(), Stop> {
    let read = PreprocessorCacheEntry::read(alloc, bytes);
    let pushed = push_entry(&read, text);
    drop(read);
    Ok(pushed?)
}

/// Adds how many files the record has that was read, or why there is none.
fn push_entry(
    read: &Result<PreprocessorCacheEntry, Error>,
    text: &mut String,
) -> Result<(), AllocError> {
    match read {
        Ok(entry) => writeln!(text, "a record of {} files", entry.number_of_entries()),
        Err(error) => writeln!(text, "refused: {error}"),
    }
}

/// The bytes up to the first line end, and those after it.
fn first_line(bytes: &[u8]) -> (&[u8], &[u8]) {
    for (end, byte) in bytes.iter().enumerate() {
        if *byte != b'\n' {
            continue;
        }
        if let Some((line, [_, rest @ ..])) = bytes.split_at_checked(end) {
            return (line, rest);
        }
    }
    (bytes, &[])
}

/// The number of these digits, or 0 where they are none.
fn number_of(digits: &[u8]) -> usize {
    let Ok(text) = str::from_utf8(digits) else {
        return 0;
    };
    match text.parse::<usize>() {
        Ok(number) => number,
        Err(_) => 0,
    }
}

/// The numbers of a line, with a space between two.
fn numbers(alloc: Global, line: &[u8]) -> Result<Vec<usize>, AllocError> {
    let mut numbers = Vec::new(alloc);
    for digits in line.split(|byte| *byte == b' ') {
        if !digits.is_empty() {
            numbers.push(number_of(digits))?;
        }
    }
    Ok(numbers)
}

/// Whether each of these numbers isn't 0.
fn flags(alloc: Global, numbers: &[usize]) -> Result<Vec<bool>, AllocError> {
    let mut flags = Vec::new(alloc);
    for number in numbers {
        flags.push(*number != 0)?;
    }
    Ok(flags)
}

/// The number of that place, or 0.
fn at(numbers: &[usize], place: usize) -> usize {
    match numbers.get(place) {
        Some(number) => *number,
        None => 0,
    }
}

/// The shape of three lines: how many files of the toolchain, sources, crates, static libraries and variables there are, whether there
/// is a target and a profile; how long each word is; whether each variable of the source is set.
fn shape_of(
    alloc: Global,
    counts: &[u8],
    words: &[u8],
    env_deps: &[u8],
) -> Result<RShape, AllocError> {
    let counts = numbers(alloc, counts)?;
    let words = numbers(alloc, words)?;
    let env_deps = flags(alloc, numbers(alloc, env_deps)?.as_slice())?;
    Ok(RShape {
        toolchain: at(counts.as_slice(), 0),
        words: Listed::from_vec(words),
        sources: at(counts.as_slice(), 1),
        externs: at(counts.as_slice(), 2),
        archives: at(counts.as_slice(), 3),
        has_target: at(counts.as_slice(), 5) != 0,
        has_profile: at(counts.as_slice(), 6) != 0,
        env_deps: Listed::from_vec(env_deps),
        variables: at(counts.as_slice(), 4),
    })
}

/// Adds whether a key's bytes are those of a request's pieces of this shape. That these are written as the bytes is promised by
/// `read_key_bytes`.
fn push_read(
    alloc: Global,
    bytes: &[u8],
    shape: &RShape,
    text: &mut String,
) -> Result<(), AllocError> {
    let read = read_key_bytes(alloc, bytes, shape)?;
    let said = match &read {
        Some(_) => "the parts of a request\n",
        None => "no parts\n",
    };
    drop(read);
    text.push_str(said)
}

/// Adds what is read of the bytes after three lines as what is hashed of a request to rustc, under the shape that the lines give.
pub(crate) fn push_key(alloc: Global, bytes: &[u8], text: &mut String) -> Result<(), Stop> {
    let (counts, rest) = first_line(bytes);
    let (words, rest) = first_line(rest);
    let (env_deps, rest) = first_line(rest);
    let shape = shape_of(alloc, counts, words, env_deps)?;
    let pushed = push_read(alloc, rest, &shape, text);
    drop(shape);
    Ok(pushed?)
}
