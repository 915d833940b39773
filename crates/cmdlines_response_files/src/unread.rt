//! What is left to read of the response files that are open.

ghost use Rattle.std.specs.Prelude.{◌≡◌, [], ◌∷◌, ◌++◌, map, OnOk, MatchOption};
ghost use Rattle.cmdlines_response_files.specs.Unread.{parts_of};

use crate::opening::Opened;
use base_files::OsBytes;
use std::alloc::{AllocError, Global};

/// A word of an open file, or the end of the open file of that name.
#[derive(Drop)]
pub(crate) enum Part {
    Word(OsBytes),
    End(OsBytes),
}

/// The parts that are left of all open files. The one that is read next is last.
#[derive(Drop)]
pub(crate) struct Unread {
    parts: Vec<Part>,
}

impl Unread {
    /// No file is open. It takes no memory.
    pub(crate) fn new(alloc: Global) -> Unread
        ensures { parts_of result ≡ [] }
    {
        Unread {
            parts: Vec::new(alloc),
        }
    }

    /// Puts the words of a file in front, and its end after them.
    pub(crate) fn add(&mut self, file: Opened) -> Result<(), AllocError>
        ensures { OnOk result
            (parts_of self.new ≡ map Part.Word file.words ++ Part.End file.name ∷ parts_of self.old) }
    {
        let Opened { name, words } = file;
        self.parts.push(Part::End(name))?;
        let mut words = words.into_vec();
        while let Some(word) = words.pop() {
            self.parts.push(Part::Word(word))?;
        }
        Ok(())
    }

    /// Takes the part that is read next.
    pub(crate) fn next(&mut self) -> Option<Part>
        ensures { MatchOption result (parts_of self.old ≡ [])
            (λ part. parts_of self.old ≡ part ∷ parts_of self.new) }
    {
        self.parts.pop()
    }
}
