//! The first word of a command to rustc that isn't known.

use crate::tables::{CODEGEN, FLAGS, FOLDER, GENERATION, LETTERS, SEARCHED, UNNAMED_FILES, VALUED};
use base_files::OsBytes;
use memchr::memchr;

/// Whether a word is one of these.
pub(crate) fn is_among(words: &[&str], word: &[u8]) -> bool {
    words.iter().any(|it| word == it.as_bytes())
}

/// Whether a text begins with one of these.
pub(crate) fn begins_with(fronts: &[&str], text: &[u8]) -> bool {
    for front in fronts {
        if text.starts_with(front.as_bytes()) {
            return true;
        }
    }
    false
}

/// What comes before the first `=`.
fn before_equals(word: &[u8]) -> &[u8] {
    match memchr(b'=', word) {
        Some(at) => word.get(..at).unwrap_or(word),
        None => word,
    }
}

/// What comes after an option's own letters: nothing where it is another option, or its value is the next word.
fn value_after<'a>(option: &str, word: &'a [u8]) -> Option<&'a [u8]> {
    let rest = word.strip_prefix(option.as_bytes())?;
    let rest = match option.starts_with("--") {
        true => rest.strip_prefix(b"=")?,
        false => rest,
    };
    match rest.is_empty() {
        true => None,
        false => Some(rest),
    }
}

/// What comes after the letters of the first of these options that has a value in the word.
fn value_after_one<'a>(options: &[&str], word: &'a [u8]) -> Option<&'a [u8]> {
    for option in options {
        if let Some(value) = value_after(option, word) {
            return Some(value);
        }
    }
    None
}

/// Whether the value of an option of code generation is known.
fn is_known_codegen(value: &[u8]) -> bool {
    is_among(&CODEGEN, before_equals(value)) && value != UNNAMED_FILES.as_bytes()
}

/// Whether a folder is searched for what is known.
fn is_known_folder(value: &[u8]) -> bool {
    begins_with(&SEARCHED, value)
}

/// Whether the word is an option whose value is the next one.
fn takes_next(word: &[u8]) -> bool {
    let is_valued = is_among(&VALUED, word) || is_among(&LETTERS, word);
    is_valued || is_among(&GENERATION, word) || word == FOLDER.as_bytes()
}

/// Whether a value is known of an option that takes the next word.
fn is_known_value(option: &[u8], value: &[u8]) -> bool {
    if option == FOLDER.as_bytes() {
        return is_known_folder(value);
    }
    !is_among(&GENERATION, option) || is_known_codegen(value)
}

/// Whether a word is known that is no option's value.
fn is_known(word: &[u8]) -> bool {
    if !word.starts_with(b"-") {
        return !word.starts_with(b"@");
    }
    if is_among(&FLAGS, word) || takes_next(word) || is_among(&VALUED, before_equals(word)) {
        return true;
    }
    if value_after_one(&LETTERS, word).is_some() {
        return true;
    }
    if let Some(value) = value_after(FOLDER, word) {
        return is_known_folder(value);
    }
    match value_after_one(&GENERATION, word) {
        Some(value) => is_known_codegen(value),
        None => false,
    }
}

/// Whether a user has the word kept, though it isn't known.
fn is_allowed(allowed: &str, word: &[u8]) -> bool {
    allowed.split(' ').any(|it| it.as_bytes() == word)
}

/// A word that isn't known, with the option whose value it is, if it is one.
#[derive(Clone, Copy)]
pub struct UnknownWord<'a> {
    pub option: Option<&'a OsBytes>,
    pub word: &'a OsBytes,
}

/// The first word of a command that isn't known, and isn't one of those that a user allows, with spaces between them.
pub fn unknown_word<'a>(words: &'a [OsBytes], allowed: &str) -> Option<UnknownWord<'a>> {
    let mut option: Option<&OsBytes> = None;
    for word in words {
        let bytes = word.as_bytes();
        let is_fine = match option {
            Some(option) => is_known_value(option.as_bytes(), bytes),
            None => is_known(bytes),
        };
        if !is_fine && !is_allowed(allowed, bytes) {
            return Some(UnknownWord { option, word });
        }
        option = match option {
            None if takes_next(bytes) => Some(word),
            _ => None,
        };
    }
    None
}
