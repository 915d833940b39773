//! Files that a compile writes beside its object, under the object's path with another ending: notes for coverage, debug information that is
//! split off, the use of the stack, a graph of calls. The session isn't given the words that ask for them: these are bound to the key, and
//! what the compile wrote is kept beside its messages.

use crate::dependencies::file_name;
use crate::placed::{Placed, PlacedWords, after_front};
use crate::text_words::{object_in, with_ending};
use base_files::{Listed, OsBytes};
use std::alloc::{AllocError, Global};

/// Words that ask for such a file, each with the file's ending; an empty one where they have the object alone say where it is, for a profile.
const ASKING: [(&str, &str); 10] = [
    ("--coverage", ".gcno"),
    ("-coverage", ".gcno"),
    ("-ftest-coverage", ".gcno"),
    ("-gsplit-dwarf", ".dwo"),
    ("-fstack-usage", ".su"),
    ("-fcallgraph-info", ".ci"),
    ("-fprofile-arcs", ""),
    ("-fprofile-generate", ""),
    ("-fprofile-instr-generate", ""),
    ("-fcoverage-mapping", ""),
];

/// What a word begins with that names where profiles go, and has the object alone say where it is.
const OF_PROFILES: [&str; 2] = ["-fprofile-generate=", "-fprofile-instr-generate="];

/// The ending of the file that a word asks for; an empty one where it asks for none, and has the object say where it is.
pub fn side_ending(word: &[u8]) -> Option<&'static str> {
    for (asking, ending) in &ASKING {
        if word == asking.as_bytes() {
            return Some(*ending);
        }
    }
    match after_front(&OF_PROFILES, word) {
        Some(_) => Some(""),
        None => None,
    }
}

/// The ending of the file that a word asks for in its place.
pub(crate) fn asked_by(placed: Placed<'_>) -> Option<&'static str> {
    match placed.option {
        Some(_) => None,
        None => side_ending(placed.word.as_bytes()),
    }
}

/// What the words of a command say of files beside its object.
#[derive(Drop)]
pub struct SideFiles {
    /// The words that ask for them, or have the object say where it is.
    pub words: Listed<OsBytes>,
    /// The object's path; an empty one where no such word is there.
    pub object: OsBytes,
    /// The endings of the files, each once.
    pub endings: Vec<&'static str>,
    /// Their paths, in the same order.
    pub paths: Listed<OsBytes>,
}

impl SideFiles {
    /// None.
    fn new(alloc: Global) -> SideFiles {
        SideFiles {
            words: Listed::new(alloc),
            object: OsBytes::empty(alloc),
            endings: Vec::new(alloc),
            paths: Listed::new(alloc),
        }
    }

    /// Takes a word, where it asks for such a file.
    fn take(&mut self, placed: Placed<'_>) -> Result<(), AllocError> {
        let Some(ending) = asked_by(placed) else {
            return Ok(());
        };
        self.words.push(placed.word.clone()?)?;
        if !ending.is_empty() && !self.endings.contains(&ending) {
            self.endings.push(ending)?;
        }
        Ok(())
    }

    /// Takes the object's path, and those of the files beside it.
    fn take_paths(&mut self, alloc: Global, object: &[u8]) -> Result<(), AllocError> {
        self.object = OsBytes::from_slice(alloc, object)?;
        for ending in self.endings.as_slice() {
            let path = with_ending(alloc, object, ending)?;
            self.paths.push(OsBytes::from_vec(path))?;
        }
        Ok(())
    }
}

/// The path of the object: the one that a word names, or the name of the input, which lies beside it in the folder of the call.
fn object_of(words: &[OsBytes]) -> Option<&[u8]> {
    let mut object = None;
    let mut input = None;
    for placed in PlacedWords::of(words) {
        if let Some(path) = object_in(placed) {
            object = Some(path);
        } else if placed.is_input() {
            input = Some(file_name(placed.word.as_bytes()));
        }
    }
    object.or(input)
}

/// Whether compilers agree on the names of files beside an object of that path: GCC takes a name that begins with a dot whole, and Clang
/// what comes after the dot for its ending. A device has none beside it.
fn is_clear(object: &[u8]) -> bool {
    !object.starts_with(b"/dev/") && !file_name(object).starts_with(b".")
}

/// What the words of a command say of files beside its object; nothing where the names of these can't be determined.
pub(crate) fn side_files_of(
    alloc: Global,
    words: &[OsBytes],
) -> Result<Option<SideFiles>, AllocError> {
    let mut found = SideFiles::new(alloc);
    for placed in PlacedWords::of(words) {
        found.take(placed)?;
    }
    if found.words.is_empty() {
        return Ok(Some(found));
    }
    match object_of(words) {
        Some(object) if is_clear(object) => {
            found.take_paths(alloc, object)?;
            Ok(Some(found))
        }
        _ => Ok(None),
    }
}
