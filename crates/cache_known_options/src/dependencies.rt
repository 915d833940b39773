//! What the words of a command say of its dependency file. The session isn't given that: what its contents depend on is bound to the key,
//! and what the compile wrote is kept beside its messages. Definitions for the preprocessor (`-Wp,-DX`) come to the session as drivers hand
//! them on: after all other words.

use crate::handed_on::definitions_in;
use crate::placed::{Placed, PlacedWords, after_front, is_among};
use crate::text_words::{OF_DEPENDENCIES, with_ending};
use base_files::{Listed, OsBytes};
use memchr::memrchr;
use std::alloc::{AllocError, Global};

/// Words that ask the preprocessor for a dependency file; its path follows in the same word.
const FOR_PREPROCESSOR: [&str; 2] = ["-Wp,-MD,", "-Wp,-MMD,"];

/// Words that give the preprocessor one more target for that file, in the same word.
const TARGETS_FOR_PREPROCESSOR: [&str; 2] = ["-Wp,-MT,", "-Wp,-MQ,"];

/// Words that ask for a dependency file.
pub(crate) const ASKING: [&str; 2] = ["-MD", "-MMD"];

/// What names its target, in the same word or the next one.
const OF_TARGET: [&str; 2] = ["-MT", "-MQ"];

/// Whether a word names the target, or takes the next one as its name.
pub(crate) fn begins_with_target(word: &[u8]) -> bool {
    after_front(&OF_TARGET, word).is_some()
}

/// The path of the dependency file in a word for the preprocessor, and what comes before it.
pub fn for_preprocessor(word: &[u8]) -> Option<(&'static str, &[u8])> {
    after_front(&FOR_PREPROCESSOR, word)
}

/// The target in a word for the preprocessor.
pub(crate) fn target_for_preprocessor(word: &[u8]) -> Option<&[u8]> {
    let (_, target) = after_front(&TARGETS_FOR_PREPROCESSOR, word)?;
    Some(target)
}

/// What the words of a command say of its dependency file.
#[derive(Drop)]
pub struct Dependencies {
    /// The words that say nothing of it. Definitions that words hand to the preprocessor come last, each as a word of its own.
    pub others: Listed<OsBytes>,
    /// What its contents hang on beside the files that it names: the words that say something of it, but its path, and the object, which
    /// is its target where no word names one.
    pub said: Listed<OsBytes>,
    /// Its path, where one is asked for.
    pub file: Option<OsBytes>,
}

/// What was said so far.
#[derive(Drop)]
struct Said<'a> {
    others: Listed<OsBytes>,
    said: Listed<OsBytes>,
    /// How often a file was asked for by a word of the driver, and by one for the preprocessor.
    asked: usize,
    asked_preprocessor: usize,
    path: Option<&'a [u8]>,
    has_target: bool,
    object: Option<&'a [u8]>,
    input: Option<&'a [u8]>,
    /// The definitions that words hand to the preprocessor.
    definitions: Vec<&'a [u8]>,
    /// Whether the last word lacks its value.
    lacks_value: bool,
}

/// A copy of the word.
fn again(alloc: Global, word: &[u8]) -> Result<OsBytes, AllocError> {
    OsBytes::from_slice(alloc, word)
}

impl<'a> Said<'a> {
    fn new(alloc: Global) -> Said<'a> {
        Said {
            others: Listed::new(alloc),
            said: Listed::new(alloc),
            asked: 0,
            asked_preprocessor: 0,
            path: None,
            has_target: false,
            object: None,
            input: None,
            definitions: Vec::new(alloc),
            lacks_value: false,
        }
    }

    /// Takes the value of that option.
    fn take_value(
        &mut self,
        alloc: Global,
        option: &[u8],
        value: &'a [u8],
    ) -> Result<(), AllocError> {
        if matches!(option, b"-MF") {
            self.path = Some(value);
            return Ok(());
        }
        if is_among(&OF_TARGET, option) {
            self.has_target = true;
            self.said.push(again(alloc, option)?)?;
            return self.said.push(again(alloc, value)?);
        }
        if matches!(option, b"-o") {
            self.object = Some(value);
        }
        self.others.push(again(alloc, value)?)
    }

    /// Takes a word that asks for the file, or says something of it in itself. False where it is another one.
    fn takes_whole(&mut self, word: &'a [u8]) -> bool {
        let is_asking = is_among(&ASKING, word);
        if is_asking {
            self.asked = self.asked.saturating_add(1);
        }
        let has_target = begins_with_target(word);
        self.has_target = self.has_target || has_target;
        // With a target for the preprocessor the object may be one too: Clang has it as one then, and GCC for a file that `-MD` asks for.
        is_asking || has_target || matches!(word, b"-MP") || target_for_preprocessor(word).is_some()
    }

    /// Takes a word that is no value, and says whether it is one of those that say something of the dependency file, or one of definitions,
    /// which are taken after all others.
    fn takes(&mut self, alloc: Global, word: &'a [u8]) -> Result<bool, AllocError> {
        if let Some(definitions) = definitions_in(word) {
            self.take_definitions(definitions)?;
            return Ok(true);
        }
        if let Some((front, path)) = for_preprocessor(word) {
            self.asked_preprocessor = self.asked_preprocessor.saturating_add(1);
            self.path = Some(path);
            self.said.push(again(alloc, front.as_bytes())?)?;
            return Ok(true);
        }
        if matches!(word, b"-MF") || is_among(&OF_TARGET, word) {
            return Ok(true);
        }
        if let Some(path) = word.strip_prefix(b"-MF") {
            self.path = Some(path);
            return Ok(true);
        }
        if !self.takes_whole(word) {
            return Ok(false);
        }
        self.said.push(again(alloc, word)?)?;
        Ok(true)
    }

    /// Takes a word that is no value.
    fn take(&mut self, alloc: Global, word: &'a [u8]) -> Result<(), AllocError> {
        if self.takes(alloc, word)? {
            return Ok(());
        }
        self.others.push(again(alloc, word)?)?;
        if matches!(word, b"-S") {
            return self.said.push(again(alloc, word)?);
        }
        match word {
            b"-o" => {}
            [b'-', b'o', object @ ..] => self.object = Some(object),
            [b'-', ..] => {}
            _ => self.input = Some(word),
        }
        Ok(())
    }

    /// Takes all words of a command.
    fn take_words(&mut self, alloc: Global, words: &'a [OsBytes]) -> Result<(), AllocError> {
        for placed in PlacedWords::of(words) {
            let word = placed.word.as_bytes();
            match placed.option {
                Some(option) => self.take_value(alloc, option.as_bytes(), word)?,
                None => self.take(alloc, word)?,
            }
            self.lacks_value = placed.takes_value();
        }
        Ok(())
    }

    /// Takes the definitions of a word for the preprocessor, which have commas between them.
    fn take_definitions(&mut self, definitions: &'a [u8]) -> Result<(), AllocError> {
        for definition in definitions.split(|byte| *byte == b',') {
            self.definitions.push(definition)?;
        }
        Ok(())
    }

    /// Adds the definitions after all other words, as drivers hand them on.
    fn add_definitions(&mut self, alloc: Global) -> Result<(), AllocError> {
        for definition in self.definitions.as_slice() {
            self.others.push(again(alloc, definition)?)?;
        }
        Ok(())
    }

    /// Whether a file is asked for.
    fn is_asked(&self) -> bool {
        self.asked != 0 || self.asked_preprocessor != 0
    }

    /// Whether it can't be determined to which of several files the dependencies go, or the first definition would be the last word's value.
    fn is_unclear(&self) -> bool {
        self.asked_preprocessor > 1
            || (self.asked_preprocessor == 1 && self.asked != 0)
            || (!self.definitions.is_empty() && self.lacks_value)
    }

    /// Takes the object as the target of a file that is asked for, where no word names one.
    fn take_target(&mut self, alloc: Global) -> Result<(), AllocError> {
        match self.object {
            Some(object) if self.is_asked() && !self.has_target => {
                self.said.push(again(alloc, object)?)
            }
            _ => Ok(()),
        }
    }

    /// The path of the dependency file: the one that a word names, or that of the object with another ending, or that of the input in the
    /// folder of the call.
    fn file(&self, alloc: Global) -> Result<Option<OsBytes>, AllocError> {
        if !self.is_asked() {
            return Ok(None);
        }
        if let Some(path) = self.path {
            return Ok(Some(again(alloc, path)?));
        }
        let path = match (self.object, self.input) {
            (Some(object), _) => with_ending(alloc, object, OF_DEPENDENCIES)?,
            (None, Some(input)) => with_ending(alloc, file_name(input), OF_DEPENDENCIES)?,
            (None, None) => return Ok(None),
        };
        Ok(Some(OsBytes::from_vec(path)))
    }
}

/// The path that a word of a command gives the dependency file, where it is the value of such an option or has it in itself.
fn path_in(placed: Placed<'_>) -> Option<&[u8]> {
    let word = placed.word.as_bytes();
    match placed.option {
        Some(option) if matches!(option.as_bytes(), b"-MF") => Some(word),
        Some(_) => None,
        None => match for_preprocessor(word) {
            Some((_, path)) => Some(path),
            None if matches!(word, b"-MF") => None,
            None => word.strip_prefix(b"-MF"),
        },
    }
}

/// The path of the object in a word of a command, where it is the value of that option or has it in itself.
fn object_in(placed: Placed<'_>) -> Option<&[u8]> {
    let word = placed.word.as_bytes();
    match placed.option {
        Some(option) if matches!(option.as_bytes(), b"-o") => Some(word),
        Some(_) => None,
        None => word.strip_prefix(b"-o"),
    }
}

/// A path without the front that means nothing.
fn short_path(path: &[u8]) -> &[u8] {
    path.strip_prefix(b"./").unwrap_or(path)
}

/// Whether a word asks for a dependency file.
fn asks(placed: Placed<'_>) -> bool {
    let word = placed.word.as_bytes();
    placed.option.is_none() && (is_among(&ASKING, word) || for_preprocessor(word).is_some())
}

/// The word that names a dependency file though none is asked for, of which compilers say that it's wrong, or names the object as that file.
pub fn odd_dependency_file(words: &[OsBytes]) -> Option<&OsBytes> {
    let mut is_asked = false;
    let mut named = None;
    let mut object = None;
    for placed in PlacedWords::of(words) {
        is_asked = is_asked || asks(placed);
        if let Some(path) = path_in(placed) {
            named = Some((placed.word, short_path(path)));
        }
        if let Some(path) = object_in(placed) {
            object = Some(short_path(path));
        }
    }
    let (word, path) = named?;
    match is_asked && object != Some(path) {
        true => None,
        false => Some(word),
    }
}

/// The name of a file, without the folders of its path.
pub(crate) fn file_name(path: &[u8]) -> &[u8] {
    match memrchr(b'/', path) {
        Some(at) => path.get(at.saturating_add(1)..).unwrap_or(path),
        None => path,
    }
}

/// What the words of a command say of its dependency file; nothing where it can't be determined which of several ones is written, or where
/// definitions for the preprocessor come before a last word that lacks its value.
pub fn dependencies_of(
    alloc: Global,
    words: &[OsBytes],
) -> Result<Option<Dependencies>, AllocError> {
    let mut found = Said::new(alloc);
    found.take_words(alloc, words)?;
    if found.is_unclear() {
        return Ok(None);
    }
    found.add_definitions(alloc)?;
    found.take_target(alloc)?;
    let file = found.file(alloc)?;
    let Said { others, said, .. } = found;
    Ok(Some(Dependencies { others, said, file }))
}
