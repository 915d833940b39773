//! Which words are known: with these alone the object hangs on the text, the words and the compiler, and nothing else is written.

use crate::dependencies::{for_preprocessor, target_for_preprocessor};
use crate::handed_on::definitions_in;
use crate::placed::{Placed, PlacedWords, after_front, is_among, takes_any, takes_next};
use crate::side_files::side_ending;
use crate::tables::{ASSEMBLER, CLANG, LLVM, VALUED, WHOLE};
use base_files::OsBytes;
use memchr::{memchr, memmem};
use std::alloc::{AllocError, Global};

/// What words begin with that only look as if they began as one of `FRONTS`.
const OTHERS: [&str; 4] = ["-obj", "-lang", "-include-pch", "-fbuiltin-module-map"];

/// Words that name a file which is written, or is read before the input, whether its name follows in the same word or is the next word.
const NAME_FILES: [&str; 4] = ["-o", "-MF", "-include", "-imacros"];

/// What words begin with that may go on in any way.
const FRONTS: [&str; 28] = [
    "-D",
    "-U",
    "-I",
    "-L",
    "-l",
    "-o",
    "-x",
    "-MF",
    "-MT",
    "-MQ",
    "-include",
    "-imacros",
    "-idirafter",
    "-iprefix",
    "-iwithprefix",
    "-isystem",
    "-iquote",
    "-isysroot",
    "-Wl,",
    "-R",
    "-fbuiltin-",
    "-fno-builtin-",
    "-fcall-saved-",
    "-fcall-used-",
    "-ffixed-",
    "-finline-limit-",
    "-ftemplate-depth-",
    "-stdlib++-isystem",
];

/// What a word begins with that names a file of specs, in which a driver reads what it hands to the programs that it runs.
const OF_SPECS: [&str; 2] = ["-specs=", "--specs="];

/// Words that are known though the options aren't that they turn off: by these an object has the command line in it.
const OFF: [&str; 4] = [
    "-fno-record-command-line",
    "-fno-record-gcc-switches",
    "-gno-record-command-line",
    "-gno-record-gcc-switches",
];

/// Whether a word begins with one of these.
fn begins_with(fronts: &[&'static str], word: &[u8]) -> bool {
    after_front(fronts, word).is_some()
}

/// Whether a word names a file of specs.
pub fn names_specs(word: &[u8]) -> bool {
    begins_with(&OF_SPECS, word)
}

/// What comes after a front with which a word of the table begins, up to that word's end.
fn rest_after<'a>(table: &'a str, front: &[u8]) -> Option<&'a [u8]> {
    let table = table.as_bytes();
    let at = memmem::find(table, front)?;
    let after = table.get(at..)?.strip_prefix(front)?;
    match memchr(b' ', after) {
        Some(end) => after.get(..end),
        None => Some(after),
    }
}

/// A word as a table has it, after a space: an option that turns off what another one turns on loses its `no-`.
fn front_of(alloc: Global, word: &[u8]) -> Result<Vec<u8>, AllocError> {
    let mut front = Vec::with_capacity(alloc, 64)?;
    front.push(b' ')?;
    match word {
        [b'-', letter, b'n', b'o', b'-', name @ ..] if matches!(*letter, b'f' | b'm' | b'g') => {
            front.extend_from_slice(&[b'-', *letter])?;
            front.extend_from_slice(name)?;
        }
        _ => front.extend_from_slice(word)?,
    }
    Ok(front)
}

/// Whether the table has that word.
fn is_listed(alloc: Global, table: &str, word: &[u8]) -> Result<bool, AllocError> {
    // With a space in it, it could match two words of the table.
    if word.contains(&b' ') {
        return Ok(false);
    }
    let mut front = front_of(alloc, word)?;
    front.push(b' ')?;
    Ok(memmem::find(table.as_bytes(), front.as_slice()).is_some())
}

/// Whether it is a number, or several with colons or commas between them.
fn is_number(value: &[u8]) -> bool {
    !value.is_empty()
        && value.iter().all(|byte| byte.is_ascii_digit() || *byte == b':' || *byte == b',')
}

/// Whether a word is one of these, which have that byte between them.
fn is_one_of(words: &[u8], between: u8, word: &[u8]) -> bool {
    for it in words.split(|byte| *byte == between) {
        if it == word {
            return true;
        }
    }
    false
}

/// Whether a value is as the table says: a number, any text, or names with commas between them.
fn fits(said: &[u8], value: &[u8]) -> bool {
    match said {
        b"#" => is_number(value),
        b"*" => true,
        _ => value
            .split(|byte| *byte == b',')
            .all(|name| is_one_of(said, b',', name)),
    }
}

/// Whether the table has that word up to its first `=`, and allows what comes after it.
fn is_valued(alloc: Global, table: &str, word: &[u8]) -> Result<bool, AllocError> {
    let Some(at) = memchr(b'=', word) else {
        return Ok(false);
    };
    let Some((option, value)) = word.split_at_checked(at) else {
        return Ok(false);
    };
    if option.contains(&b' ') {
        return Ok(false);
    }
    let mut front = front_of(alloc, option)?;
    front.push(b'=')?;
    match rest_after(table, front.as_slice()) {
        Some(said) => Ok(fits(said, value.strip_prefix(b"=").unwrap_or(value))),
        None => Ok(false),
    }
}

/// Whether it is a name with a value after `=`, as `--param` takes one: lower-case letters, digits and dashes.
fn is_parameter(word: &[u8]) -> bool {
    memchr(b'=', word).is_some()
        && word.iter().all(|byte| {
            byte.is_ascii_lowercase() || byte.is_ascii_digit() || matches!(*byte, b'-' | b'=')
        })
}

/// Whether a word for the assembler is known.
fn is_for_assembler(alloc: Global, word: &[u8]) -> Result<bool, AllocError> {
    match is_listed(alloc, ASSEMBLER, word)? {
        true => Ok(true),
        false => is_valued(alloc, ASSEMBLER, word),
    }
}

/// Whether all words for the assembler are known, which have commas between them.
fn are_for_assembler(alloc: Global, words: &[u8]) -> Result<bool, AllocError> {
    for word in words.split(|byte| *byte == b',') {
        if !is_for_assembler(alloc, word)? {
            return Ok(false);
        }
    }
    Ok(true)
}

/// Whether it is the name of a warning, or of a group of these.
fn is_warning(name: &[u8]) -> bool {
    !name.contains(&b',')
}

/// Whether it is a level of optimisation.
fn is_level(level: &[u8]) -> bool {
    level.iter().all(|byte| byte.is_ascii_alphanumeric())
}

/// Whether it is the path of a file, and not of what another process reads or writes, which can be read only once.
fn is_file(path: &[u8]) -> bool {
    match path {
        b"/dev/null" => true,
        b"-" => false,
        _ => !path.starts_with(b"/dev/") && !path.starts_with(b"/proc/"),
    }
}

/// Whether a word that begins with one of `FRONTS`, and may contain a path, is known.
fn is_known_front(word: &[u8]) -> bool {
    match after_front(&NAME_FILES, word) {
        Some((_, path)) => is_file(path) && !begins_with(&OTHERS, word),
        None => !begins_with(&OTHERS, word),
    }
}

/// Whether an option is known that takes no other word.
fn is_known_option(alloc: Global, word: &[u8]) -> Result<bool, AllocError> {
    if begins_with(&FRONTS, word) {
        return Ok(is_known_front(word));
    }
    if let Some((_, path)) = for_preprocessor(word) {
        return Ok(!path.is_empty() && !path.contains(&b',') && is_file(path));
    }
    if let Some(target) = target_for_preprocessor(word) {
        return Ok(!target.is_empty() && !target.contains(&b','));
    }
    if definitions_in(word).is_some() || side_ending(word).is_some() || names_specs(word) {
        return Ok(true);
    }
    if let Some(words) = word.strip_prefix(b"-Wa,") {
        return are_for_assembler(alloc, words);
    }
    if let Some(name) = word.strip_prefix(b"-W") {
        return Ok(is_warning(name));
    }
    if let Some(level) = word.strip_prefix(b"-O") {
        return Ok(is_level(level));
    }
    if let Some(parameter) = word.strip_prefix(b"--param=") {
        return Ok(is_parameter(parameter));
    }
    match is_among(&OFF, word) || is_listed(alloc, WHOLE, word)? {
        true => Ok(true),
        false => is_valued(alloc, VALUED, word),
    }
}

/// Whether the value of an option is known.
fn is_known_value(alloc: Global, option: &[u8], value: &[u8]) -> Result<bool, AllocError> {
    if takes_any(option) {
        return Ok(!is_among(&NAME_FILES, option) || is_file(value));
    }
    match option {
        b"-Xassembler" => is_for_assembler(alloc, value),
        b"-Xclang" => is_listed(alloc, CLANG, value),
        b"-mllvm" => is_valued(alloc, LLVM, value),
        _ => Ok(is_parameter(value)),
    }
}

/// Whether a word is known in its place.
fn is_known(alloc: Global, placed: Placed<'_>) -> Result<bool, AllocError> {
    let word = placed.word.as_bytes();
    if let Some(option) = placed.option {
        return is_known_value(alloc, option.as_bytes(), word);
    }
    if !word.starts_with(b"-") || takes_next(word) {
        return Ok(!word.starts_with(b"@"));
    }
    is_known_option(alloc, word)
}

/// Whether a user says that a word may be kept: it is one of these, which have spaces between them.
fn is_allowed(allowed: &str, word: &[u8]) -> bool {
    is_one_of(allowed.as_bytes(), b' ', word)
}

/// The first of the words that isn't known, isn't among those that the compiler takes for granted, and that a user doesn't allow, by a list with
/// spaces between its words.
pub fn unknown_word<'a>(
    alloc: Global,
    words: &'a [OsBytes],
    granted: &[&str],
    allowed: &str,
) -> Result<Option<&'a OsBytes>, AllocError> {
    for placed in PlacedWords::of(words) {
        let word = placed.word.as_bytes();
        if !is_known(alloc, placed)? && !is_among(granted, word) && !is_allowed(allowed, word) {
            return Ok(Some(placed.word));
        }
    }
    Ok(None)
}
