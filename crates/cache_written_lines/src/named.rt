//! The files that a text is made of, as its markers name them: what lay under their paths once the text had been printed.

use base_files::{OsBytes, join};
use cache_disk::{State, is_nothing, read_of_size};
use cache_source_directives::renumbers;
use ckeys_marker_walk::{Mark, Markers, unescaped};
use std::alloc::{AllocError, Global};
use std::collections::HashSet;
use std::fs;
use std::fs::Metadata;
use std::os::unix::fs::{FileTypeExt, MetadataExt};
use std::rt::Files;

/// The number of the device `/dev/null`.
const NULL_DEVICE: u64 = 0x103;

/// Whether it reads as a file: it is a regular one, or the device that is always empty, which build systems have compiled to find out which
/// options a compiler knows.
pub fn reads_as_file(found: &Metadata) -> bool {
    found.is_file() || (found.file_type().is_char_device() && found.rdev() == NULL_DEVICE)
}

/// What lay under a path.
#[derive(Drop)]
pub enum Lying {
    /// Nothing.
    Nothing,
    /// A file, with its contents, where they were read.
    File(Metadata, Option<OsBytes>),
    /// A folder, or what is neither.
    Other,
    /// That can't be determined.
    Unknown,
}

/// A file that a text names.
#[derive(Drop)]
pub struct NamedFile {
    /// Its name, as markers have it.
    pub name: OsBytes,
    pub path: OsBytes,
    pub lying: Lying,
    /// Whether it has a directive by which lines have other numbers, once that was noted.
    pub(crate) renumbers: bool,
}

/// The files that the markers of a text name.
#[derive(Drop)]
pub struct NamedFiles {
    /// Each once, in the order in which they come first: the first one is the input.
    pub files: Vec<NamedFile>,
    /// Whether each line could be distinguished from a marker.
    pub are_all: bool,
    are_read: bool,
    are_noted: bool,
}

/// Whether a marker's name is that of a file: those in brackets are none, and one that ends in two slashes is a folder.
fn is_file_name(name: &[u8]) -> bool {
    !name.starts_with(b"<") && !name.ends_with(b"//")
}

/// What lies under a path, of which nothing is read.
fn lying_at<R: Files>(rt: &R, path: &OsBytes) -> Lying {
    let Ok(place) = str::from_utf8(path.as_bytes()) else {
        return Lying::Unknown;
    };
    match fs::metadata(rt, place) {
        Ok(found) if reads_as_file(&found) => Lying::File(found, None),
        Ok(_) => Lying::Other,
        Err(error) if is_nothing(&error) => Lying::Nothing,
        Err(_) => Lying::Unknown,
    }
}

impl NamedFile {
    /// What lies under the path, of which nothing is noted yet.
    fn new(name: OsBytes, path: OsBytes, lying: Lying) -> NamedFile {
        NamedFile {
            name,
            path,
            lying,
            renumbers: false,
        }
    }

    /// The file of that name in a folder.
    fn of<R: Files + AllocGlobal>(
        rt: &R,
        dir: &[u8],
        name: OsBytes,
    ) -> Result<NamedFile, AllocError> {
        let written = unescaped(rt.alloc(), name.as_bytes())?.into_owned(rt.alloc())?;
        let path = join(rt.alloc(), dir, written.as_slice())?;
        let lying = lying_at(rt, &path);
        Ok(NamedFile::new(name, path, lying))
    }

    /// Whether nothing lies there.
    pub fn is_missing(&self) -> bool {
        matches!(self.lying, Lying::Nothing)
    }

    /// Its contents, where it is a regular file that was read.
    pub fn contents(&self) -> Option<&OsBytes> {
        match &self.lying {
            Lying::File(_, contents) => contents.as_ref(),
            _ => None,
        }
    }

    /// Reads it, where it can be read.
    fn read<R: Files + AllocGlobal>(&mut self, rt: &R) {
        let Ok(place) = str::from_utf8(self.path.as_bytes()) else {
            return;
        };
        if let Lying::File(found, contents) = &mut self.lying {
            let read = read_of_size(rt, place, found.len());
            *contents = read.ok().map(OsBytes::from_vec);
        }
    }

    /// Whether the same lies there now, in the same state.
    fn is_unchanged<R: Files>(&self, rt: &R) -> bool {
        match (&self.lying, lying_at(rt, &self.path)) {
            (Lying::File(before, _), Lying::File(now, _)) => State::of(before) == State::of(&now),
            (Lying::Nothing, Lying::Nothing) | (Lying::Other, Lying::Other) => true,
            (_, _) => false,
        }
    }
}

impl NamedFiles {
    /// No files.
    pub fn new(alloc: Global) -> NamedFiles {
        NamedFiles {
            files: Vec::new(alloc),
            are_all: true,
            are_read: false,
            are_noted: false,
        }
    }

    /// Those of a text, for a call in that folder.
    pub fn of<R: Files + AllocGlobal>(
        rt: &R,
        dir: &[u8],
        text: &[u8],
    ) -> Result<NamedFiles, AllocError> {
        let mut named = NamedFiles::new(rt.alloc());
        let mut seen: HashSet<&[u8]> = HashSet::new(rt.alloc());
        for mark in Markers::new(text) {
            let Mark::Named(name) = mark else {
                named.are_all = false;
                continue;
            };
            if is_file_name(name) && seen.insert(name)? {
                let name = OsBytes::from_slice(rt.alloc(), name)?;
                named.files.push(NamedFile::of(rt, dir, name)?)?;
            }
        }
        Ok(named)
    }

    /// An input of that path and contents, which is compiled as it is: no text names it.
    pub fn of_input<R: Files + AllocGlobal>(
        rt: &R,
        path: OsBytes,
        contents: OsBytes,
    ) -> Result<NamedFiles, AllocError> {
        let mut named = NamedFiles::new(rt.alloc());
        let lying = match lying_at(rt, &path) {
            Lying::File(found, _) => Lying::File(found, Some(contents)),
            other => other,
        };
        let name = path.clone()?;
        named.files.push(NamedFile::new(name, path, lying))?;
        named.are_read = true;
        Ok(named)
    }

    /// Reads all of them, once.
    pub fn read<R: Files + AllocGlobal>(&mut self, rt: &R) {
        if self.are_read {
            return;
        }
        self.are_read = true;
        for file in self.files.iter_mut() {
            file.read(rt);
        }
    }

    /// Notes of all that were read whether a directive in them gives lines other numbers, once.
    pub(crate) fn note_numbers(&mut self) {
        if self.are_noted {
            return;
        }
        self.are_noted = true;
        for file in self.files.iter_mut() {
            file.renumbers = match file.contents() {
                Some(contents) => renumbers(contents.as_bytes()),
                None => false,
            };
        }
    }

    /// Whether the same is at each path now, in the same state. What couldn't be determined counts as changed.
    pub fn are_unchanged<R: Files>(&self, rt: &R) -> bool {
        self.files.iter().all(|file| file.is_unchanged(rt))
    }
}
