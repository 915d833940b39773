//! Texts as a preprocessor prints them: the walk over their markers, the markers alone, and the search for a byte.

ghost use Rattle.std.specs.Prelude.{◌≡◌, IfOk, length, unwrap_or, []};
ghost use Rattle.ckeys_marker_walk.specs.Named.{named_files_of};
ghost use Rattle.base_files.specs.Path.{join};

use crate::words::Tally;
use base_files::{FileTime, MemoryFile, MemoryFiles, OsBytes};
use ckeys_marker_walk::walk::walk;
use ckeys_marker_walk::{Mark, Markers, Walk};
use cmdlines_response_files::ParseFault;
use memchr::memchr;
use std::alloc::{AllocError, Global};

/// The folder of a walk, and the input in it.
const FOLDER: &[u8] = b"/w";

const INPUT: &[u8] = b"main.cc";

/// Files of these names, one a line, each empty.
fn empty_files(alloc: Global, names: &[u8]) -> Result<MemoryFiles, AllocError> {
    let mut files = MemoryFiles::new(alloc);
    let mtime = FileTime::from_seconds(0);
    for name in names.split(|byte| *byte == b'\n') {
        let contents = OsBytes::from_vec(Vec::new(alloc));
        files.insert(
            OsBytes::from_slice(alloc, name)?,
            MemoryFile { contents, mtime },
        )?;
    }
    Ok(files)
}

/// Tallies the named files of the text, if it isn't refused.
fn walk_over(alloc: Global, text: &[u8], files: &mut MemoryFiles) -> Result<Tally, ParseFault>
    ensures names { IfOk result (λ tally. tally.count ≡ length (unwrap_or
        (named_files_of FOLDER.now files.old (join FOLDER.now INPUT.now) text.now) [])) }
    ensures files { files.new ≡ files.old }
{
    match walk(alloc, text, INPUT, FOLDER, files)? {
        Walk::Refused => Ok(Tally::none()),
        Walk::Names(names) => Ok(Tally::of(names.as_slice())),
    }
}

/// Walks over the text so often, where empty files of these names are there, one a line.
pub(crate) fn walks(
    alloc: Global,
    text: &[u8],
    names: &[u8],
    repeats: u32,
) -> Result<Tally, ParseFault> {
    let mut files = empty_files(alloc, names)?;
    let mut last = Tally::none();
    for _ in 0..repeats {
        last = walk_over(alloc, text, &mut files)?;
    }
    Ok(last)
}

/// Tallies the names in the markers of the text, each as often as it comes.
fn tally_markers(text: &[u8]) -> Tally {
    let mut tally = Tally::none();
    for mark in Markers::new(text) {
        if let Mark::Named(name) = mark {
            tally.count = tally.count.wrapping_add(1);
            tally.bytes = tally.bytes.wrapping_add(name.len());
        }
    }
    tally
}

/// Goes over the markers of the text so often.
pub(crate) fn marker_tallies(text: &[u8], repeats: u32) -> Tally {
    let mut last = Tally::none();
    for _ in 0..repeats {
        last = tally_markers(text);
    }
    last
}

/// Searches the text so often for a byte that occurs in no text of UTF-8, and tallies how often and how far.
pub(crate) fn byte_searches(text: &[u8], repeats: u32) -> Tally {
    let mut tally = Tally::none();
    for byte in (0xf8u8..=u8::MAX).cycle().take(repeats as usize) {
        let end = memchr(byte, text).unwrap_or(text.len());
        tally.count = tally.count.wrapping_add(1);
        tally.bytes = tally.bytes.wrapping_add(end);
    }
    tally
}
