//! Rows of tests: each line of a text says what is given, in up to three columns, and what is answered, as `FIRST | SECOND | THIRD => ANSWER`.
//! Columns at the end that have nothing are left out, and lines between rows may be empty.
//!
//! A row has escapes: `\n`, `\t`, `\r` and `\0` as in Rust, `\u` for a byte order mark, and `\\`.

use std::alloc::{AllocError, Global};
use std::test::Fail;
use tests_kit::is_that;

/// What a row gives.
#[derive(Clone, Copy)]
pub struct Row<'a> {
    pub first: &'a str,
    pub second: &'a str,
    pub third: &'a str,
}

/// What a test asks of each of its rows.
pub trait Question {
    /// The answer, as text.
    fn answer(&self, rt: &HostRuntime, row: &Row<'_>) -> Result<String, Fail>;
}

/// What comes before a separator, and what comes after it: nothing where there is none.
pub fn cut<'a>(text: &'a str, separator: &str) -> (&'a str, &'a str) {
    match text.split_once(separator) {
        Some(parts) => parts,
        None => (text, ""),
    }
}

/// What a letter after a `\` stands for.
fn escaped(letter: char) -> char {
    match letter {
        'n' => '\n',
        't' => '\t',
        'r' => '\r',
        '0' => '\0',
        'u' => '\u{feff}',
        _ => letter,
    }
}

/// A line with what its escapes stand for.
fn unescaped(alloc: Global, line: &str) -> Result<String, AllocError> {
    let mut whole = String::new(alloc);
    let mut is_escape = false;
    for letter in line.chars() {
        if letter == '\\' && !is_escape {
            is_escape = true;
        } else {
            let letter = if is_escape { escaped(letter) } else { letter };
            is_escape = false;
            whole.push(letter)?;
        }
    }
    Ok(whole)
}

/// Asserts that a question is answered as a row says. Spaces before an answer don't count.
fn is_answered<Q: Question>(rt: &HostRuntime, row: &str, question: &Q) -> Result<(), Fail> {
    let Some((given, want)) = row.split_once(" =>") else {
        return Err("a row without an answer".into());
    };
    let (first, rest) = cut(given, " | ");
    let (second, third) = cut(rest, " | ");
    let row = Row {
        first,
        second,
        third,
    };
    let answer = question.answer(rt, &row)?;
    is_that(answer.as_str().trim_start(), want.trim_start(), given)
}

/// Asserts that a question is answered as these rows say, one after the other.
pub fn are_answered<Q: Question>(rt: &HostRuntime, rows: &str, question: &Q) -> Result<(), Fail> {
    for line in rows.lines() {
        if !line.is_empty() {
            let row = unescaped(rt.alloc(), line)?;
            is_answered(rt, row.as_str(), question)?;
        }
    }
    Ok(())
}

/// This text, where there was memory for it.
pub fn text_or_fail(text: Result<String, AllocError>) -> Result<String, Fail> {
    match text {
        Ok(text) => Ok(text),
        Err(_) => Err("no memory".into()),
    }
}

/// This answer.
pub fn says(alloc: Global, text: &str) -> Result<String, Fail> {
    text_or_fail(String::from_str(alloc, text))
}

/// Yes or no.
pub fn yes_or_no(alloc: Global, is_so: bool) -> Result<String, Fail> {
    says(alloc, if is_so { "yes" } else { "no" })
}

/// Yes or no, where there was memory to find out.
pub fn whether(alloc: Global, is_so: Result<bool, AllocError>) -> Result<String, Fail> {
    match is_so {
        Ok(is_so) => yes_or_no(alloc, is_so),
        Err(_) => Err("no memory".into()),
    }
}
