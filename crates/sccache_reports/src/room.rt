//! The memory that the entries of a database are read into, one after another.

ghost use Rattle.std.specs.Prelude.{◌≡◌, OnOk};

use base_files::{Listed, OsBytes};
use sccache_recorded_builds::{Entry, compiler_of, is_wrapper};
use std::alloc::{AllocError, Global};
use std::mem;

/// An entry in the memory of those that were read before it.
#[derive(Drop)]
pub(crate) struct EntryRoom {
    alloc: Global,
    entry: Entry,
    /// The words after the executable that were read so far, and after these the memory of others.
    words: Vec<OsBytes>,
    /// How many words were read after the executable.
    count: usize,
    has_executable: bool,
}

/// Puts these bytes in the place of a word's, in its memory where that is enough.
fn refill(alloc: Global, word: &mut OsBytes, bytes: &[u8]) -> Result<(), AllocError>
    ensures { OnOk result (word.new ≡ bytes.now) }
{
    let mut memory = mem::replace(word, OsBytes::empty(alloc)).into_vec();
    memory.clear();
    memory.extend_from_slice(bytes)?;
    *word = OsBytes::from_vec(memory);
    Ok(())
}

impl EntryRoom {
    pub(crate) fn new(alloc: Global) -> EntryRoom {
        EntryRoom {
            alloc,
            entry: Entry {
                compiler: None,
                executable: OsBytes::empty(alloc),
                words: Listed::new(alloc),
                dir: OsBytes::empty(alloc),
            },
            words: Vec::new(alloc),
            count: 0,
            has_executable: false,
        }
    }

    /// Forgets the entry, and keeps its memory.
    pub(crate) fn forget(&mut self) {
        self.words = mem::replace(&mut self.entry.words, Listed::new(self.alloc)).into_vec();
        self.forget_words();
    }

    /// Forgets the words that were read.
    pub(crate) fn forget_words(&mut self) {
        self.count = 0;
        self.has_executable = false;
    }

    /// Whether the next word is the executable: the first one is, and one after wrappers.
    fn awaits_executable(&self) -> bool {
        !self.has_executable || (self.count == 0 && is_wrapper(self.entry.executable.as_bytes()))
    }

    /// Adds a word.
    pub(crate) fn add(&mut self, word: &[u8]) -> Result<(), AllocError> {
        if self.awaits_executable() {
            self.has_executable = true;
            return refill(self.alloc, &mut self.entry.executable, word);
        }
        self.add_after(word)
    }

    /// Adds a word after the executable.
    fn add_after(&mut self, word: &[u8]) -> Result<(), AllocError> {
        match self.words.get_mut(self.count) {
            Some(place) => refill(self.alloc, place, word)?,
            None => self.words.push(OsBytes::from_slice(self.alloc, word)?)?,
        }
        self.count = self.count.saturating_add(1);
        Ok(())
    }

    /// Makes the entry of the words that were read, run in that folder, and reports whether there are any.
    pub(crate) fn complete(&mut self, dir: &[u8]) -> Result<bool, AllocError> {
        refill(self.alloc, &mut self.entry.dir, dir)?;
        self.words.truncate(self.count);
        let words = mem::replace(&mut self.words, Vec::new(self.alloc));
        self.entry.words = Listed::from_vec(words);
        self.entry.compiler = compiler_of(self.entry.executable.as_bytes());
        Ok(self.has_executable)
    }

    /// The entry that was made last.
    pub(crate) fn entry(&self) -> &Entry {
        &self.entry
    }
}
