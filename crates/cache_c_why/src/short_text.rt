//! A preprocessed text in short: a line for each file that its markers name, in the order in which they come last, so that a file comes
//! after those that it includes.
//!
//! A line has the digest of all lines of that file, a space and the file's name, as it is written between the quotes. Lines of a file are
//! those after a marker of it, up to the next marker, and the marker itself; lines before the first one are those of an empty name. A
//! last line has the digest of the names of all markers, one after another, and no space. So two texts are the same where they are the
//! same in short, if digests are distinct.

use base_blake2::Blake2b256;
use base_files::{Lossy, OsBytes};
use ckeys_base::Digest;
use ckeys_marker_walk::{Mark, Markers};
use memchr::{memchr, memmem};
use std::alloc::{AllocError, Global};
use std::collections::{BTreeMap, HashMap, HashSet};
use std::fmt;

/// The lines of one file, so far.
#[derive(Drop)]
struct FileLines<'a> {
    name: &'a [u8],
    digest: Digest<Blake2b256>,
    /// How many times lines of a file were taken until its last ones.
    last: usize,
}

impl<'a> FileLines<'a> {
    /// Adds its line.
    fn put(self, alloc: Global, text: &mut Vec<u8>) -> Result<(), AllocError> {
        let FileLines { name, digest, .. } = self;
        text.extend_from_slice(digest.finish(alloc)?.as_bytes())?;
        text.push(b' ')?;
        text.extend_from_slice(name)?;
        text.push(b'\n')?;
        Ok(())
    }
}

/// The files of a text, so far.
#[derive(Drop)]
struct TextFiles<'a> {
    /// The index among them of the file of a name.
    places: HashMap<&'a [u8], usize>,
    files: Vec<FileLines<'a>>,
    /// How many times lines of a file were taken.
    taken: usize,
    /// The names of all markers.
    order: Digest<Blake2b256>,
}

impl<'a> TextFiles<'a> {
    fn new(alloc: Global) -> TextFiles<'a> {
        TextFiles {
            places: HashMap::new(alloc),
            files: Vec::new(alloc),
            taken: 0,
            order: Digest::new(),
        }
    }

    /// The index of the file of that name, which it has from now on.
    fn place_of(&mut self, name: &'a [u8]) -> Result<usize, AllocError> {
        if let Some(place) = self.places.get(&name) {
            return Ok(*place);
        }
        let place = self.files.len();
        let digest = Digest::new();
        self.files.push(FileLines {
            name,
            digest,
            last: 0,
        })?;
        self.places.insert(name, place)?;
        Ok(place)
    }

    /// Takes a marker of that name.
    fn take_name(&mut self, name: &[u8]) {
        self.order.update(name);
        self.order.update(b"\n");
    }

    /// Takes lines of the file of that name.
    fn take_lines(&mut self, name: &'a [u8], lines: &[u8]) -> Result<(), AllocError> {
        let place = self.place_of(name)?;
        self.taken = self.taken.wrapping_add(1);
        if let Some(file) = self.files.get_mut(place) {
            file.digest.update(lines);
            file.last = self.taken;
        }
        Ok(())
    }

    /// A line for each file, and the last one.
    fn into_text(self, alloc: Global) -> Result<OsBytes, AllocError> {
        let TextFiles {
            places,
            files,
            order,
            ..
        } = self;
        drop(places);
        let mut by_last = BTreeMap::new(alloc);
        for file in files {
            by_last.insert(file.last, file)?;
        }
        let mut text = Vec::new(alloc);
        for (_, file) in by_last {
            file.put(alloc, &mut text)?;
        }
        text.extend_from_slice(order.finish(alloc)?.as_bytes())?;
        Ok(OsBytes::from_vec(text))
    }
}

/// The text up to its next line that begins with `#`, where its first line may be one, and the rest.
fn cut(text: &[u8]) -> (&[u8], &[u8]) {
    match memmem::find(text, b"\n#") {
        Some(end) => (&text[..end + 1], &text[end + 1..]),
        None => (text, &text[text.len()..]),
    }
}

/// The name of the marker that lines begin with, if they begin with one.
fn name_ahead(lines: &[u8]) -> Option<&[u8]> {
    if !lines.starts_with(b"#") {
        return None;
    }
    match Markers::new(lines).next() {
        Some(Mark::Named(name)) => Some(name),
        _ => None,
    }
}

/// The text in short. It takes the time of reading it some times.
pub(crate) fn short_text(alloc: Global, text: &[u8]) -> Result<OsBytes, AllocError> {
    let mut files = TextFiles::new(alloc);
    let mut name: &[u8] = &[];
    let mut rest = text;
    // Each turn takes a byte at least.
    for _ in 0..text.len() {
        if rest.is_empty() {
            break;
        }
        let (lines, after) = cut(rest);
        if let Some(marked) = name_ahead(lines) {
            name = marked;
            files.take_name(name);
        }
        files.take_lines(name, lines)?;
        rest = after;
    }
    files.into_text(alloc)
}

/// The lines of a text.
fn lines_of(alloc: Global, text: &[u8]) -> Result<HashSet<&[u8]>, AllocError> {
    let mut lines = HashSet::new(alloc);
    for line in text.split(|byte| *byte == b'\n') {
        lines.insert(line)?;
    }
    Ok(lines)
}

/// The name in a line of a text in short, if it has one.
fn name_in(line: &[u8]) -> Option<&[u8]> {
    let space = memchr(b' ', line)?;
    Some(&line[space + 1..])
}

/// The name in the first of these lines that has one and is none of the others.
fn first_name<'a>(text: &'a [u8], others: &HashSet<&[u8]>) -> Option<&'a [u8]> {
    for line in text.split(|byte| *byte == b'\n') {
        if (&*others).contains(&line) {
            continue;
        }
        if let Some(name) = name_in(line) {
            return Some(name);
        }
    }
    None
}

/// Where a text in short differs from an earlier one.
#[derive(Drop)]
pub(crate) struct TextDifference<'a> {
    /// The first file whose lines aren't those that it had earlier, or else the first one that isn't there any more; none where files come
    /// in another order.
    name: Option<&'a [u8]>,
}

impl<'a> TextDifference<'a> {
    /// Where the one differs from the earlier one.
    pub fn between(
        alloc: Global,
        one: &'a OsBytes,
        earlier: &'a OsBytes,
    ) -> Result<TextDifference<'a>, AllocError> {
        let here = lines_of(alloc, one.as_bytes())?;
        let there = lines_of(alloc, earlier.as_bytes())?;
        let name = match first_name(one.as_bytes(), &there) {
            Some(name) => Some(name),
            None => first_name(earlier.as_bytes(), &here),
        };
        Ok(TextDifference { name })
    }
}

impl<'a> fmt::Display for TextDifference<'a> {
    fn fmt<W: fmt::Write>(&self, f: &mut fmt::Formatter<W>) -> fmt::Result {
        match self.name {
            None => f.write_str("order of the files"),
            Some([]) => f.write_str("lines of the input"),
            Some(bytes) => write!(f, "lines of {}", Lossy { bytes }),
        }
    }
}
