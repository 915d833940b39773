//! The files that the markers of a text name, with their lines.

use crate::named::{Lying, NamedFiles};
use base_blake2::Blake2b256;
use cache_host::HostError;
use ckeys_base::Digest;
use memchr::memchr_iter;
use std::alloc::{AllocError, Global};
use std::collections::HashMap;

/// A file and where its lines begin.
#[derive(Drop)]
pub struct Source<'a> {
    contents: &'a [u8],
    /// Where each line begins, and where one more would; nothing before it is cut into lines.
    begins: Vec<usize>,
    /// Whether it has a directive that says of a line that it is another one, or of another file.
    pub renumbers: bool,
}

impl<'a> Source<'a> {
    /// The file with these contents.
    fn new(alloc: Global, contents: &'a [u8], renumbers: bool) -> Source<'a> {
        Source {
            contents,
            begins: Vec::new(alloc),
            renumbers,
        }
    }

    /// Notes where its lines begin.
    fn cut_into_lines(&mut self) -> Result<(), AllocError> {
        self.begins.push(0)?;
        for end in memchr_iter(b'\n', self.contents) {
            self.begins.push(end.saturating_add(1))?;
        }
        match self.contents {
            [] | [.., b'\n'] => Ok(()),
            // The last line has no end of its own.
            _ => Ok(self.begins.push(self.contents.len().saturating_add(1))?),
        }
    }

    /// All of it.
    pub fn contents(&self) -> &[u8] {
        self.contents
    }

    /// The line of that number, of which the first is 1, without its end; an empty one where there is none.
    pub fn line(&self, number: usize) -> &'a [u8] {
        self.lines(number, number.saturating_add(1))
    }

    /// The lines from that number up to another one, without the last one's end.
    pub fn lines(&self, from: usize, to: usize) -> &'a [u8] {
        let (Some(begin), Some(next)) = (self.begin(from), self.begin(to)) else {
            return &[];
        };
        self.contents
            .get(begin..next.saturating_sub(1))
            .unwrap_or(&[])
    }

    /// Where the line of that number begins, or would, as the one after the last.
    fn begin(&self, number: usize) -> Option<usize> {
        self.begins.get(number.checked_sub(1)?).copied()
    }
}

/// The files that the markers of a text name, by their names as markers have them.
#[derive(Drop)]
pub struct Sources<'a> {
    files: HashMap<&'a [u8], Source<'a>>,
    /// Their names and those under which nothing lies, in the order in which they come first.
    names: Vec<&'a [u8]>,
    /// Whether it could be determined under each name whether a file lies there.
    are_known: bool,
}

impl<'a> Sources<'a> {
    /// The files of a text, which were read. A line that may be a marker or not, or a file that is missing or unreadable, is an error.
    pub fn of(alloc: Global, named: &'a mut NamedFiles) -> Result<Sources<'a>, HostError> {
        let mut sources = Sources {
            files: HashMap::new(alloc),
            names: Vec::new(alloc),
            are_known: true,
        };
        if !named.are_all {
            return Err(HostError::Unreadable);
        }
        named.note_numbers();
        for file in named.files.as_slice() {
            let name = file.name.as_bytes();
            sources.names.push(name)?;
            match &file.lying {
                Lying::File(_, Some(contents)) => {
                    let source = Source::new(alloc, contents.as_bytes(), file.renumbers);
                    sources.files.insert(name, source)?;
                }
                Lying::Nothing => {}
                Lying::Unknown => sources.are_known = false,
                Lying::File(_, None) | Lying::Other => return Err(HostError::Unreadable),
            }
        }
        sources.check()?;
        Ok(sources)
    }

    /// Notes where the lines of all files begin.
    pub fn cut_into_lines(&mut self) -> Result<(), AllocError> {
        for source in self.files.values_mut() {
            source.cut_into_lines()?;
        }
        Ok(())
    }

    /// Refuses a text of which a file isn't there, unless a directive may have named it.
    fn check(&self) -> Result<(), HostError> {
        if self.files.len() < self.names.len() && !self.are_renumbered() {
            return Err(HostError::Changed);
        }
        Ok(())
    }

    /// Whether the file of that name has a directive by which lines have other numbers.
    fn renumbers(&self, name: &[u8]) -> bool {
        match self.files.get(name) {
            Some(source) => source.renumbers,
            None => false,
        }
    }

    /// The file of that name, where there is one.
    pub fn get(&self, name: &[u8]) -> Option<&Source<'a>> {
        self.files.get(name)
    }

    /// A digest of what lies under all names, in the order in which the text has them, or of those files alone by whose directives lines
    /// have other numbers.
    pub fn digest_of(&self, all: bool) -> Digest<Blake2b256> {
        let mut digest = Digest::new();
        for name in self.names.iter() {
            match self.files.get(name) {
                Some(source) if all || source.renumbers => feed(&mut digest, source.contents()),
                None if all => digest.update(&NOTHING.to_le_bytes()),
                _ => {}
            }
        }
        digest
    }

    /// Whether it could be determined under each name whether a file lies there.
    pub fn are_known(&self) -> bool {
        self.are_known
    }

    /// Whether a directive in one of the files gives lines other numbers.
    fn are_renumbered(&self) -> bool {
        self.names.iter().any(|name| self.renumbers(name))
    }
}

/// Stands for the length of a file that isn't there.
const NOTHING: u64 = u64::MAX;

/// Feeds the length of bytes, then the bytes.
fn feed(digest: &mut Digest<Blake2b256>, bytes: &[u8]) {
    let length = bytes.len() as u64;
    digest.update(&length.to_le_bytes());
    digest.update(bytes);
}
