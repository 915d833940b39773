//! The counters of a call that was passed through, by its reason: `pass: ..`, `fault: ..` or `stop: ..` and what is said of it.

use crate::names::{ERROR, UNCACHEABLE, name_of};
use base_files::OsBytes;
use std::alloc::{AllocError, Global};

/// Reasons by their beginning, with the counter of each. A fault that isn't here has one by its first word.
const BEGINNINGS: [(&str, &str); 19] = [
    ("pass: disabled", "disabled"),
    ("pass: multiple input files", "multiple_source_files"),
    ("pass: no input file", "no_input_file"),
    (
        "pass: unknown source language",
        "unsupported_source_language",
    ),
    ("pass: argument parse", "bad_compiler_arguments"),
    ("fault: preprocess ", "preprocessor_error"),
    ("fault: compile ", "compile_failed"),
    ("fault: read ", "error_file_not_read"),
    ("fault: tool ", "error_compiler_not_run"),
    ("fault: missing ", "uncacheable_missing_output"),
    ("fault: memory", "error_memory"),
    ("fault: answer ", "error_answer_no_text"),
    ("fault: digest ", "error_bad_digest"),
    ("fault: too many attempts", "error_too_many_attempts"),
    (
        "stop: the text takes in files",
        "unsupported_code_directive",
    ),
    (
        "stop: a file was changed while it was compiled",
        "modified_input_file",
    ),
    ("stop: the compiler is a script", "unsupported_compiler"),
    (
        "stop: a precompiled header is in reach",
        "could_not_use_precompiled_header",
    ),
    (
        "stop: the text tells its own time",
        "uncacheable_time_in_text",
    ),
];

/// Why a call is passed through whose object goes to standard output.
pub const TO_STANDARD_OUTPUT: &str = "-o -";

/// Whether a word is there that is no option.
fn has_input(words: &[OsBytes]) -> bool {
    words.iter().any(|it| !it.as_bytes().starts_with(b"-"))
}

/// The counter of a call that doesn't ask for an object.
fn without_object(words: &[OsBytes]) -> &'static str {
    match has_input(words) {
        true => "called_for_link",
        false => "no_input_file",
    }
}

/// The counter of a reason that begins with one of `BEGINNINGS`.
fn by_beginning(reason: &str) -> Option<&'static str> {
    for (beginning, counter) in &BEGINNINGS {
        if reason.starts_with(*beginning) {
            return Some(*counter);
        }
    }
    None
}

/// Whether it is the name of a variable.
fn is_variable(text: &str) -> bool {
    for byte in text.as_bytes() {
        if !matches!(byte, b'A'..=b'Z' | b'_') {
            return false;
        }
    }
    true
}

/// A text up to its first colon.
fn front_of(text: &str) -> &str {
    match text.split_once(':') {
        Some((front, _)) => front,
        None => text,
    }
}

/// A text up to its first space: of a fault what it is, without the word that it holds.
fn first_word(text: &str) -> &str {
    match text.split_once(' ') {
        Some((word, _)) => word,
        None => text,
    }
}

/// Adds a counter.
fn push(alloc: Global, counter: &str, counters: &mut Vec<String>) -> Result<(), AllocError> {
    Ok(counters.push(String::from_str(alloc, counter)?)?)
}

/// Adds a counter whose name is that front, followed by a text.
fn push_name(
    alloc: Global,
    front: &str,
    text: &str,
    counters: &mut Vec<String>,
) -> Result<(), AllocError> {
    Ok(counters.push(name_of(alloc, front, text)?)?)
}

/// The counter of a call that was passed through for a reason that has one.
fn of_reason(why: &str, words: &[OsBytes]) -> Option<&'static str> {
    match why {
        "not a compilation" => Some(without_object(words)),
        "-E" => Some("called_for_preprocessing"),
        TO_STANDARD_OUTPUT => Some("output_to_stdout"),
        "-" => Some("uncacheable_standard_input"),
        _ => None,
    }
}

/// Adds the counters of a call that the session passed through, or for which it wasn't asked.
fn push_pass(
    alloc: Global,
    why: &str,
    words: &[OsBytes],
    counters: &mut Vec<String>,
) -> Result<(), AllocError> {
    if let Some(counter) = of_reason(why, words) {
        return push(alloc, counter, counters);
    }
    let front = if why.starts_with('-') || why.starts_with('@') {
        push(alloc, "unsupported_compiler_option", counters)?;
        "option_"
    } else if is_variable(why) {
        push(alloc, "unsupported_environment_variable", counters)?;
        "variable_"
    } else {
        UNCACHEABLE
    };
    push_name(alloc, front, front_of(why), counters)
}

/// Adds the counters of a call with these words that was passed through for this reason.
fn push_counters(
    alloc: Global,
    reason: &str,
    words: &[OsBytes],
    counters: &mut Vec<String>,
) -> Result<(), AllocError> {
    if let Some(counter) = by_beginning(reason) {
        return push(alloc, counter, counters);
    }
    match reason.split_once(": ") {
        Some(("pass", why)) => push_pass(alloc, why, words, counters),
        Some(("fault", why)) => push_name(alloc, ERROR, first_word(why), counters),
        Some((_, why)) => push_name(alloc, ERROR, why, counters),
        None => push_name(alloc, ERROR, reason, counters),
    }
}

/// The counters of a call with these words that was passed through for this reason: the first says what it came to, and one after it says
/// which option or variable that was.
pub fn counters_of(
    alloc: Global,
    reason: &str,
    words: &[OsBytes],
) -> Result<Vec<String>, AllocError> {
    let mut counters = Vec::new(alloc);
    push_counters(alloc, reason, words, &mut counters)?;
    Ok(counters)
}
