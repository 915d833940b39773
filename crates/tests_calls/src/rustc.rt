//! What is read and written for rustc: texts on dependencies, and the bytes of keys.

use crate::words::Tally;
use base_files::{Listed, OsBytes};
use rustc_parts::parts::{Parts, RShape};
use rustc_parts::{key_bytes, read_key_bytes};
use rustc_texts::{TextFault, dep_info_with_targets, parse_dep_info};
use std::alloc::{AllocError, Global};

/// Reads the sources of the text so often.
pub(crate) fn source_readings(alloc: Global, text: &str, repeats: u32) -> Result<Tally, TextFault> {
    let mut last = Tally::none();
    for _ in 0..repeats {
        let sources = parse_dep_info(alloc, text, b"/w")?;
        last = Tally::of(sources.as_slice());
    }
    Ok(last)
}

/// Two targets.
fn targets(alloc: Global) -> Result<Vec<OsBytes>, AllocError> {
    let mut targets = Vec::new(alloc);
    targets.push(OsBytes::from_slice(alloc, b"out/foo.d")?)?;
    targets.push(OsBytes::from_slice(alloc, b"out/libfoo.rlib")?)?;
    Ok(targets)
}

/// Rewrites the text for two targets so often.
pub(crate) fn rewritings(alloc: Global, text: &str, repeats: u32) -> Result<Tally, TextFault> {
    let targets = targets(alloc)?;
    let mut last = Tally::none();
    for _ in 0..repeats {
        let written = dep_info_with_targets(alloc, text, targets.as_slice(), &[])?;
        last = Tally::of(&[written]);
    }
    Ok(last)
}

/// Pieces of that many sources, and of nothing else.
fn parts(alloc: Global, sources: u32) -> Result<Parts, AllocError> {
    let mut digests = Vec::new(alloc);
    for _ in 0..sources {
        digests.push(OsBytes::from_slice(alloc, [b'a'; 64].as_slice())?)?;
    }
    Ok(Parts {
        toolchain: Listed::new(alloc),
        version: OsBytes::empty(alloc),
        words: Listed::new(alloc),
        sources: Listed::from_vec(digests),
        externs: Listed::new(alloc),
        archives: Listed::new(alloc),
        target: None,
        profile: None,
        env_deps: Listed::new(alloc),
        variables: Listed::new(alloc),
        dir: OsBytes::empty(alloc),
    })
}

/// The tally of a text.
fn whole(text: &[u8]) -> Tally {
    Tally {
        count: 1,
        bytes: text.len(),
    }
}

/// Writes the bytes of a key of that many sources so often.
pub(crate) fn key_writings(alloc: Global, sources: u32, repeats: u32) -> Result<Tally, AllocError> {
    let parts = parts(alloc, sources)?;
    let mut last = Tally::none();
    for _ in 0..repeats {
        let bytes = key_bytes(alloc, &parts)?;
        last = whole(bytes.as_slice());
    }
    Ok(last)
}

/// How many sources are read, and how many bytes they have.
fn read(alloc: Global, bytes: &[u8], shape: &RShape) -> Result<Tally, AllocError> {
    match read_key_bytes(alloc, bytes, shape)? {
        None => Ok(Tally::none()),
        Some(parts) => Ok(Tally::of(parts.sources.as_slice())),
    }
}

/// Reads the bytes of a key of that many sources so often.
pub(crate) fn key_readings(alloc: Global, sources: u32, repeats: u32) -> Result<Tally, AllocError> {
    let parts = parts(alloc, sources)?;
    let shape = parts.shape(alloc)?;
    let bytes = key_bytes(alloc, &parts)?;
    drop(parts);
    readings(alloc, bytes.as_slice(), &shape, repeats)
}

/// Reads the bytes of a key of this shape so often.
fn readings(
    alloc: Global,
    bytes: &[u8],
    shape: &RShape,
    repeats: u32,
) -> Result<Tally, AllocError> {
    let mut last = Tally::none();
    for _ in 0..repeats {
        last = read(alloc, bytes, shape)?;
    }
    Ok(last)
}

/// Copies the bytes of a key of that many sources so often.
pub(crate) fn key_copies(alloc: Global, sources: u32, repeats: u32) -> Result<Tally, AllocError> {
    let bytes = key_bytes(alloc, &parts(alloc, sources)?)?;
    copies(alloc, bytes.as_slice(), repeats)
}

/// Copies bytes so often.
fn copies(alloc: Global, bytes: &[u8], repeats: u32) -> Result<Tally, AllocError> {
    let mut last = Tally::none();
    for _ in 0..repeats {
        let copy = Vec::from_slice(alloc, bytes)?;
        last = whole(copy.as_slice());
    }
    Ok(last)
}
