//! What is passed through before the session is asked: words and variables of which it isn't known what rustc makes by them, and messages that
//! would be written for a terminal. docs/WRAPPER.md says what each does.

use crate::words::{UnknownWord, begins_with, is_among, unknown_word};
use base_files::OsBytes;
use cache_host::{CommandLine, HostError};
use cache_settings::Key;
use std::alloc::Global;
use std::fs;
use std::rt::Files;

/// Variables under which rustc, or what loads it, reads, writes or prints something else.
const VARIABLES: [&str; 5] = [
    "LD_AUDIT",
    "LD_PRELOAD",
    "RUSTC_LOG",
    "RUST_DEP_GRAPH",
    "RUST_TARGET_PATH",
];

/// This process's standard error, which is the caller's.
const STANDARD_ERROR: &str = "/proc/self/fd/2";

/// Where terminals lie.
const TERMINALS: [&str; 2] = ["/dev/pts/", "/dev/tty"];

/// Words by which messages are written as JSON.
const AS_JSON: &str = "--error-format=json";

/// The option that says how wide a terminal is.
const WIDTH: &str = "--diagnostic-width";

/// Whether one of the words is that one, or begins so.
fn has_front(words: &[OsBytes], front: &str) -> bool {
    words
        .iter()
        .any(|word| word.as_bytes().starts_with(front.as_bytes()))
}

/// Whether messages are written as JSON.
pub fn has_json(line: &CommandLine) -> bool {
    has_front(line.words.as_slice(), AS_JSON)
}

/// Whether standard error is a terminal.
fn is_at_terminal<R: Files + AllocGlobal>(rt: &R) -> bool {
    match fs::read_link(rt, STANDARD_ERROR) {
        Ok(path) => begins_with(&TERMINALS, path.as_str().as_bytes()),
        Err(_) => false,
    }
}

/// Whether messages hang on the terminal that they are written to: on its width, and where they aren't written as JSON on its colours.
fn depend_on_terminal<R: Files + AllocGlobal>(rt: &R, line: &CommandLine) -> bool {
    let is_told = has_json(line) && has_front(line.words.as_slice(), WIDTH);
    !is_told && is_at_terminal(rt)
}

/// The word, after the option whose value it is.
fn written(alloc: Global, unknown: UnknownWord<'_>) -> Result<String, HostError> {
    let word = unknown.word.clone()?;
    let Some(option) = unknown.option else {
        return Ok(format!(in alloc; "{word}")?);
    };
    let option = option.clone()?;
    Ok(format!(in alloc; "{option} {word}")?)
}

/// The variable that speaks against keeping, or the word that isn't known, or that messages are written for a terminal.
pub fn reason_against<R: Files + AllocGlobal>(
    rt: &R,
    line: &CommandLine,
    words: &[OsBytes],
) -> Result<Option<String>, HostError> {
    let alloc = rt.alloc();
    for (name, value) in line.env.as_slice() {
        if is_among(&VARIABLES, name.as_bytes()) && !value.as_bytes().is_empty() {
            let name = name.clone()?;
            return Ok(Some(format!(in alloc; "{name}")?));
        }
    }
    if let Some(unknown) = unknown_word(words, line.settings.value_of(Key::AllowOptions)) {
        return Ok(Some(written(alloc, unknown)?));
    }
    match depend_on_terminal(rt, line) {
        true => Ok(Some(String::from_str(alloc, "messages for a terminal")?)),
        false => Ok(None),
    }
}
