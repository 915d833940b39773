//! The words by which a compiler prints the text of a command: the caller's own, except for the object, followed by `-E`.

use crate::dependencies::{ASKING, begins_with_target, file_name};
use crate::placed::{Placed, PlacedWords, is_among};
use base_files::{Listed, OsBytes};
use memchr::memrchr;
use std::alloc::{AllocError, Global};

/// What the words of a command say of its dependency file.
#[derive(Drop)]
struct Dependencies<'a> {
    /// The object, where a word names one.
    object: Option<&'a [u8]>,
    /// Whether a dependency file is asked for, whether a word names it, and whether one names its target.
    is_asked: bool,
    is_named: bool,
    has_target: bool,
}

impl<'a> Dependencies<'a> {
    /// Takes what one word says.
    fn take(&mut self, placed: Placed<'a>) {
        let word = placed.word.as_bytes();
        if let Some(object) = object_in(placed) {
            self.object = Some(object);
        } else if placed.option.is_some() {
            // It says no more than its option.
        } else if is_among(&ASKING, word) {
            self.is_asked = true;
        } else if word.starts_with(b"-MF") {
            self.is_named = true;
        } else if begins_with_target(word) {
            self.has_target = true;
        }
    }
}

/// The object that a word names, by the option before it or in itself.
pub(crate) fn object_in(placed: Placed<'_>) -> Option<&[u8]> {
    let word = placed.word.as_bytes();
    match placed.option {
        Some(option) if matches!(option.as_bytes(), b"-o") => Some(word),
        Some(_) => None,
        None if placed.takes_value() => None,
        None => word.strip_prefix(b"-o"),
    }
}

/// Whether a word is one of those that name the object.
fn names_object(placed: Placed<'_>) -> bool {
    match placed.option {
        Some(option) => matches!(option.as_bytes(), b"-o"),
        None => placed.word.as_bytes().starts_with(b"-o"),
    }
}

/// What the words say of the dependency file.
fn dependencies_in(words: &[OsBytes]) -> Dependencies<'_> {
    let mut found = Dependencies {
        object: None,
        is_asked: false,
        is_named: false,
        has_target: false,
    };
    for placed in PlacedWords::of(words) {
        found.take(placed);
    }
    found
}

/// Pushes a word.
fn push(alloc: Global, words: &mut Listed<OsBytes>, word: &[u8]) -> Result<(), AllocError> {
    words.push(OsBytes::from_slice(alloc, word)?)
}

/// Pushes the words but those that name the object.
fn push_without_object(
    alloc: Global,
    words: &[OsBytes],
    pushed: &mut Listed<OsBytes>,
) -> Result<(), AllocError> {
    for placed in PlacedWords::of(words) {
        if !names_object(placed) {
            push(alloc, pushed, placed.word.as_bytes())?;
        }
    }
    Ok(())
}

/// The ending of a dependency file.
pub(crate) const OF_DEPENDENCIES: &str = ".d";

/// The path of a file beside an object: the object's path with that ending in place of the last dot of its name and what comes after it.
pub(crate) fn with_ending(alloc: Global, object: &[u8], with: &str) -> Result<Vec<u8>, AllocError> {
    let name = file_name(object);
    let ending = match memrchr(b'.', name) {
        Some(at) => name.len().saturating_sub(at),
        None => 0,
    };
    let stem = object.get(..object.len().saturating_sub(ending));
    let mut path = Vec::with_capacity(alloc, object.len())?;
    path.extend_from_slice(stem.unwrap_or(object))?;
    path.extend_from_slice(with.as_bytes())?;
    Ok(path)
}

/// Pushes what has a dependency file that is asked for written where the command writes it, and with its target, if the object's name gives
/// these.
fn push_dependencies(
    alloc: Global,
    words: &[OsBytes],
    pushed: &mut Listed<OsBytes>,
) -> Result<(), AllocError> {
    let found = dependencies_in(words);
    let (true, Some(object)) = (found.is_asked, found.object) else {
        return Ok(());
    };
    if !found.is_named {
        let path = with_ending(alloc, object, OF_DEPENDENCIES)?;
        push(alloc, pushed, b"-MF")?;
        push(alloc, pushed, path.as_slice())?;
    }
    if !found.has_target {
        push(alloc, pushed, b"-MQ")?;
        push(alloc, pushed, object)?;
    }
    Ok(())
}

/// Pushes what has a list of the files that are read written to that place.
fn push_list(alloc: Global, list: &str, pushed: &mut Listed<OsBytes>) -> Result<(), AllocError> {
    for word in ["-MD", "-MF", list, "-MT", "x"].iter() {
        push(alloc, pushed, word.as_bytes())?;
    }
    Ok(())
}

/// Pushes the words by which the compiler prints a text.
fn push_all(
    alloc: Global,
    words: &[OsBytes],
    list: Option<&str>,
    pushed: &mut Listed<OsBytes>,
) -> Result<(), AllocError> {
    push_without_object(alloc, words, pushed)?;
    push_dependencies(alloc, words, pushed)?;
    if let Some(list) = list {
        push_list(alloc, list, pushed)?;
    }
    push(alloc, pushed, b"-E")
}

/// The words by which the compiler prints the text of a command with these words, and writes a list of the files that it read to that place,
/// where one is given. It writes the dependency file of that command, if the words ask for one: without the object's name it would give
/// that another path and another target.
pub fn text_words(
    alloc: Global,
    words: &[OsBytes],
    list: Option<&str>,
) -> Result<Listed<OsBytes>, AllocError> {
    let mut pushed = Listed::new(alloc);
    push_all(alloc, words, list, &mut pushed)?;
    Ok(pushed)
}
