//! Commands of calls, as a shell reads them.

use crate::writer::Writer;
use cache_build_log::{Call, Texts};
use std::alloc::{AllocError, Global};

/// Whether a shell reads this word as itself.
fn is_plain(word: &str) -> bool {
    for byte in word.as_bytes() {
        match byte {
            b'a'..=b'z' | b'A'..=b'Z' | b'_' | b'@' | b'%' | b'=' | b'^' => {}
            // The digits are among these, and `,`, `-`, `.` and `/`.
            b'+'..=b':' => {}
            _ => return false,
        }
    }
    !word.is_empty()
}

/// Writes a letter of a word in quotes.
fn push_letter(text: &mut Writer, letter: char) {
    match letter {
        '\'' => text.push("'\\''"),
        _ => text.push_char(letter),
    }
}

/// Writes a word, in quotes where it needs some.
fn push_word(text: &mut Writer, word: &str) {
    if is_plain(word) {
        text.push(word);
        return;
    }
    text.push("'");
    for letter in word.chars() {
        push_letter(text, letter);
    }
    text.push("'");
}

/// The command of a call.
pub fn command_of(alloc: Global, texts: &Texts, call: &Call) -> Result<String, AllocError> {
    let mut text = Writer::new(alloc);
    push_word(&mut text, texts.text(call.compiler));
    for word in call.words.as_slice() {
        text.push(" ");
        push_word(&mut text, texts.text(*word));
    }
    text.done()
}

/// The name by which a call is shown: its input, its output or its compiler.
pub fn name_of<'a>(texts: &'a Texts, call: &Call) -> &'a str {
    let (input, output) = (texts.text(call.input), texts.text(call.output));
    let compiler = texts.text(call.compiler);
    if !input.is_empty() {
        return input;
    }
    if !output.is_empty() {
        return output;
    }
    match compiler.is_empty() {
        true => "(no name)",
        false => compiler,
    }
}

/// Why a call came to what it did: what differed, or why it was passed through or has no manifest.
pub fn explanation_of<'a>(texts: &'a Texts, call: &Call) -> &'a str {
    let why = texts.text(call.why);
    match why.is_empty() {
        true => texts.text(call.reason),
        false => why,
    }
}
