//! Texts that tests write of lists, and compare; and facts that they ask for.
//!
//! A test asks by these functions, which are proved once: each assertion by a macro is proved where it is written.

use base_files::OsBytes;
use std::alloc::AllocError;
use std::fmt::Write;
use std::test::Fail;

/// A text that isn't the wanted one fails the test, and the failure names the line.
pub fn is_that(text: &str, want: &str, line: &str) -> Result<(), Fail> {
    if text == want {
        return Ok(());
    }
    Err(Fail::new(format_args!("{line:?}: {text:?}, and not {want:?}")))
}

/// What isn't so fails the test, and the failure says what.
pub fn holds(is_so: bool, what: &str) -> Result<(), Fail> {
    if is_so {
        return Ok(());
    }
    Err(Fail::new(format_args!("not so: {what}")))
}

/// Adds words, each after a space, an empty one as two quotes.
pub fn write_words(text: &mut String, words: &[OsBytes]) -> Result<(), AllocError> {
    for word in words {
        if word.as_bytes().is_empty() {
            text.push_str(" ''")?;
        } else {
            write!(text, " {word}")?;
        }
    }
    Ok(())
}

/// Adds a list with its name, where it isn't empty.
pub fn write_list(text: &mut String, name: &str, list: &[OsBytes]) -> Result<(), AllocError> {
    if list.is_empty() {
        return Ok(());
    }
    write!(text, "; {name}")?;
    write_words(text, list)
}
