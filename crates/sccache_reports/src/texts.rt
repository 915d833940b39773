//! Lines and lists of words as text.

use base_files::OsBytes;
use std::alloc::AllocError;
use std::fmt::Write;

/// Adds a line. A line end that a word of it holds is shown as U+FFFD, so that it stays one line.
pub(crate) fn push_line(text: &mut String, line: &str) -> Result<(), AllocError> {
    let mut is_first = true;
    for piece in line.split('\n') {
        if !is_first {
            text.push('\u{fffd}')?;
        }
        is_first = false;
        text.push_str(piece)?;
    }
    text.push('\n')
}

/// Adds words, each after a space, an empty one as two quotes.
pub(crate) fn write_words(text: &mut String, words: &[OsBytes]) -> Result<(), AllocError> {
    for word in words {
        if word.as_bytes().is_empty() {
            text.push_str(" ''")?;
        } else {
            write!(text, " {word}")?;
        }
    }
    Ok(())
}

/// Adds a list with its name, where it isn't empty.
pub(crate) fn write_list(
    text: &mut String,
    name: &str,
    list: &[OsBytes],
) -> Result<(), AllocError> {
    if list.is_empty() {
        return Ok(());
    }
    write!(text, "; {name}")?;
    write_words(text, list)
}
