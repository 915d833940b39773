//! Words that have GCC write names of files in another way: `-ffile-prefix-map=OLD=NEW` and the like. Where no name in the text begins with OLD,
//! nor the object has it, such a word counts only by what the name of the call's folder comes to. So the session isn't given OLD: calls in other
//! folders, and calls with other names that don't occur, have the same key.

use crate::placed::{Placed, PlacedWords, after_front, is_among};
use base_files::OsBytes;
use memchr::{memchr, memchr2, memmem};
use std::alloc::{AllocError, Global};

/// What such a word begins with that is for the names in macros alone.
const OF_MACROS: &str = "-fmacro-prefix-map=";

/// What such words begin with.
const FRONTS: [&str; 3] = ["-fdebug-prefix-map=", "-ffile-prefix-map=", OF_MACROS];

/// What words begin with that ask for debug information as maps apply to it; that of other forms, and link-time optimisation, have names in the
/// object all the same.
const OF_DWARF: [&str; 9] = [
    "-gas-loc",
    "-gcolumn-info",
    "-gdescribe-dies",
    "-gdwarf",
    "-ggdb",
    "-gno-",
    "-gstatement-frontiers",
    "-gstrict-dwarf",
    "-gvariable-location-views",
];

/// What else begins with `-g` and asks for debug information of that kind.
const LEVELS: [&str; 5] = ["-g", "-g0", "-g1", "-g2", "-g3"];

/// What the marker begins with by which a text has the folder of its call, and how it ends.
const MARKER: &[u8] = b"# 1 \"";

const MARKER_END: &[u8] = b"//\"\n";

/// What stands in its place where debug information has another name for the folder.
const WITHOUT_NAME: &[u8] = b"# 1 \"<folder>\"\n";

/// The word before which the session is given such a word, so that include records alone depend on it: by their key the text isn't known yet.
const AS_FOLDER: &[u8] = b"-I";

/// Whether a name is in markers as it is.
fn is_plain(name: &[u8]) -> bool {
    let is_printed = |byte: &u8| matches!(*byte, b' '..=b'~') && !matches!(*byte, b'"' | b'\\');
    name.iter().all(is_printed)
}

/// Whether by that word an object may have names of folders whatever maps say.
fn keeps_names(word: &[u8]) -> bool {
    let is_debug = word.starts_with(b"-g");
    let is_dwarf = after_front(&OF_DWARF, word).is_some() || is_among(&LEVELS, word);
    word.starts_with(b"-flto") || (is_debug && !is_dwarf)
}

/// The two names in what comes after such a word's front; nothing where it isn't certain where the second one begins, or the next word.
fn names_in(value: &[u8]) -> Option<(&[u8], &[u8])> {
    let (old, new) = value.split_at_checked(memchr(b'=', value)?)?;
    let [_, new @ ..] = new else {
        return None;
    };
    match memchr2(b'=', b'\n', new) {
        Some(_) => None,
        None => Some((old, new)),
    }
}

/// What a word maps, for a call in some folder.
enum Mapped<'a> {
    /// That folder, or one above it: how the folder's path goes on after that name.
    Folder(&'a [u8]),
    /// Another name.
    Other,
    /// Names as they are written, from the call's folder on.
    Relative,
    /// It isn't certain what.
    Unclear,
}

/// What a word with these names maps for a call in that folder. GCC maps each name that begins so, wherever its parts end, so that an empty one
/// stands for all. Where the folder's name comes to nothing, an assembler writes the folder that it runs in.
fn mapped_by<'a>(dir: &'a [u8], old: &[u8], new: &[u8]) -> Mapped<'a> {
    match old {
        [b'/', ..] if is_plain(old) => {}
        [] | [b'/', ..] => return Mapped::Unclear,
        _ => return Mapped::Relative,
    }
    match dir.strip_prefix(old) {
        None => Mapped::Other,
        Some([]) if new.is_empty() => Mapped::Unclear,
        Some(rest) if matches!(rest, [] | [b'/', ..]) => Mapped::Folder(rest),
        Some(_) => Mapped::Unclear,
    }
}

/// A word that maps names.
#[derive(Drop)]
struct PrefixMap {
    word: OsBytes,
    /// What the names begin with.
    old: OsBytes,
    /// Whether one of them is that of the call's folder.
    is_of_folder: bool,
}

/// The words of a call that map names.
#[derive(Drop)]
pub struct PrefixMaps {
    /// In the order in which they come.
    maps: Vec<PrefixMap>,
    /// What is bound to the key for them: names of rows and their values.
    pub rows: Vec<(&'static str, OsBytes)>,
    /// Whether debug information has another name for the call's folder.
    is_of_debug: bool,
}

impl PrefixMaps {
    /// None.
    pub(crate) fn new(alloc: Global) -> PrefixMaps {
        PrefixMaps {
            maps: Vec::new(alloc),
            rows: Vec::new(alloc),
            is_of_debug: false,
        }
    }

    /// Whether there are none.
    pub fn is_empty(&self) -> bool {
        self.maps.is_empty()
    }

    /// Adds a row.
    fn push_row(
        &mut self,
        alloc: Global,
        name: &'static str,
        value: &[u8],
    ) -> Result<(), AllocError> {
        let value = OsBytes::from_slice(alloc, value)?;
        Ok(self.rows.push((name, value))?)
    }

    /// Adds a word that maps what begins with that name.
    fn push(
        &mut self,
        alloc: Global,
        word: &OsBytes,
        old: &[u8],
        is_of_folder: bool,
    ) -> Result<(), AllocError> {
        let map = PrefixMap {
            word: word.clone()?,
            old: OsBytes::from_slice(alloc, old)?,
            is_of_folder,
        };
        Ok(self.maps.push(map)?)
    }

    /// Adds the rows of a word that begins so and has that name for the call's folder, up to how the folder's path goes on.
    fn push_folder(
        &mut self,
        alloc: Global,
        front: &'static str,
        new: &[u8],
        rest: &[u8],
    ) -> Result<(), AllocError> {
        self.is_of_debug = self.is_of_debug || front != OF_MACROS;
        self.push_row(alloc, "prefix map", front.as_bytes())?;
        self.push_row(alloc, "name in its place", new)?;
        self.push_row(alloc, "folder below the mapped one", rest)
    }

    /// Takes a word of a call in that folder. False where it isn't certain of which names an object has others.
    fn take(&mut self, alloc: Global, dir: &[u8], placed: Placed<'_>) -> Result<bool, AllocError> {
        let word = placed.word.as_bytes();
        if placed.option.is_some() {
            return Ok(true);
        }
        let Some((front, value)) = after_front(&FRONTS, word) else {
            return Ok(!keeps_names(word));
        };
        let Some((old, new)) = names_in(value) else {
            return Ok(false);
        };
        match mapped_by(dir, old, new) {
            Mapped::Folder(rest) => {
                self.push_folder(alloc, front, new, rest)?;
                self.push(alloc, placed.word, old, true)?;
            }
            Mapped::Other => {
                self.push_row(alloc, "prefix map", b"")?;
                self.push(alloc, placed.word, old, false)?;
            }
            Mapped::Relative => self.push_row(alloc, "prefix map", word)?,
            Mapped::Unclear => return Ok(false),
        }
        Ok(true)
    }

    /// What the session is given for a word; nothing for one that maps the call's folder.
    pub(crate) fn session_word(
        &self,
        alloc: Global,
        placed: Placed<'_>,
    ) -> Result<Option<OsBytes>, AllocError> {
        let map = match placed.option {
            None => self.maps.iter().find(|map| map.word == *placed.word),
            Some(_) => None,
        };
        match map {
            None => Ok(Some(placed.word.clone()?)),
            Some(map) if map.is_of_folder => Ok(None),
            Some(map) => {
                let mut word = Vec::from_slice(alloc, AS_FOLDER)?;
                word.extend_from_slice(map.word.as_bytes())?;
                Ok(Some(OsBytes::from_vec(word)))
            }
        }
    }

    /// Whether a text, or what was made of it, may have a name that is mapped.
    pub fn are_in(&self, bytes: &[u8]) -> bool {
        for map in self.maps.as_slice() {
            if memmem::find(bytes, map.old.as_bytes()).is_some() {
                return true;
            }
        }
        false
    }

    /// The words, each after a line end.
    pub fn words(&self, alloc: Global) -> Result<Vec<u8>, AllocError> {
        let mut words = Vec::new(alloc);
        for map in self.maps.as_slice() {
            words.push(b'\n')?;
            words.extend_from_slice(map.word.as_bytes())?;
        }
        Ok(words)
    }

    /// The text of a call in that folder, without the folder's name in the marker for debug information, where that has another name for it.
    pub fn text_without(
        &self,
        alloc: Global,
        dir: &[u8],
        text: Vec<u8>,
    ) -> Result<Vec<u8>, AllocError> {
        match marked(text.as_slice(), dir) {
            Some((before, after)) if self.is_of_debug => {
                let mut without = Vec::with_capacity(alloc, text.len())?;
                without.extend_from_slice(before)?;
                without.extend_from_slice(WITHOUT_NAME)?;
                without.extend_from_slice(after)?;
                Ok(without)
            }
            _ => Ok(text),
        }
    }
}

/// What comes before the marker of a folder in a text, and after it. GCC prints it second, where there is debug information.
fn marked<'a>(text: &'a [u8], dir: &[u8]) -> Option<(&'a [u8], &'a [u8])> {
    let first = memchr(b'\n', text)?.saturating_add(1);
    let (before, marker) = text.split_at_checked(first)?;
    let name = marker.strip_prefix(MARKER)?;
    let after = name.strip_prefix(dir)?.strip_prefix(MARKER_END)?;
    Some((before, after))
}

/// The words of a call of GCC that map names, for that folder, in which it runs; none where an object may have these names all the same.
pub(crate) fn prefix_maps_of(
    alloc: Global,
    dir: &[u8],
    words: &[OsBytes],
) -> Result<PrefixMaps, AllocError> {
    let mut maps = PrefixMaps::new(alloc);
    for placed in PlacedWords::of(words) {
        if !maps.take(alloc, dir, placed)? {
            return Ok(PrefixMaps::new(alloc));
        }
    }
    match maps.is_empty() {
        true => Ok(PrefixMaps::new(alloc)),
        false => Ok(maps),
    }
}
