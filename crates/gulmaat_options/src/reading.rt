//! Options as they are read from words, in order. `-zs` is `-z -s`, `-M5G` is `-M 5G`, and `--max-size=5G` is `--max-size 5G`.

use crate::asked::Asked;
use crate::error::OptionError;
use std::alloc::Global;

/// A word that is no option, or lacks its value.
fn wrong(alloc: Global, word: &str) -> Result<OptionError, OptionError> {
    Ok(OptionError::Wrong(format!(in alloc;
        "{word} is no option, or lacks its value: gulmaat --help lists all options"
    )?))
}

/// The words that are left.
#[derive(Drop)]
struct Words<'a> {
    words: &'a [String],
    next: usize,
}

impl<'a> Words<'a> {
    fn take(&mut self) -> Option<&'a str> {
        let word = self.words.get(self.next)?;
        self.next = self.next.wrapping_add(1);
        Some(word.as_str())
    }
}

/// Reads a long option.
fn read_long<'a>(
    alloc: Global,
    word: &'a str,
    words: &mut Words<'a>,
    asked: &mut Vec<Asked<'a>>,
) -> Result<(), OptionError> {
    if let Some(option) = Asked::plain(word) {
        return Ok(asked.push(option)?);
    }
    let option = match word.split_once('=') {
        Some((name, value)) => Asked::with_value(name, value),
        None => valued(word, "", words),
    };
    take(alloc, word, option, asked)
}

/// Takes what a word asks for. One that asks for nothing is wrong.
fn take<'a>(
    alloc: Global,
    word: &str,
    option: Option<Asked<'a>>,
    asked: &mut Vec<Asked<'a>>,
) -> Result<(), OptionError> {
    match option {
        Some(option) => Ok(asked.push(option)?),
        None => Err(wrong(alloc, word)?),
    }
}

/// The value of an option: what comes right after its name, or the next word.
fn value_after<'a>(rest: &'a str, words: &mut Words<'a>) -> Option<&'a str> {
    match rest.is_empty() {
        true => words.take(),
        false => Some(rest),
    }
}

/// The option of that name, with the value after it.
fn valued<'a>(name: &str, rest: &'a str, words: &mut Words<'a>) -> Option<Asked<'a>> {
    match value_after(rest, words) {
        Some(value) => Asked::with_value(name, value),
        None => None,
    }
}

/// Reads a word of short options, each a letter, of which the last may have a value.
fn read_short<'a>(
    alloc: Global,
    word: &'a str,
    words: &mut Words<'a>,
    asked: &mut Vec<Asked<'a>>,
) -> Result<(), OptionError> {
    let Some((_, letters)) = word.split_at_checked(1) else {
        return Err(wrong(alloc, word)?);
    };
    for (place, letter) in letters.char_indices() {
        let name = format!(in alloc; "-{letter}")?;
        if let Some(option) = Asked::plain(name.as_str()) {
            asked.push(option)?;
            continue;
        }
        let rest = match letters.split_at_checked(place.saturating_add(letter.len_utf8())) {
            Some((_, rest)) => rest,
            None => "",
        };
        return take(alloc, word, valued(name.as_str(), rest, words), asked);
    }
    Ok(())
}

/// What these words ask for, in order.
pub fn read_options<'a>(alloc: Global, words: &'a [String]) -> Result<Vec<Asked<'a>>, OptionError> {
    let mut asked = Vec::new(alloc);
    let mut words = Words { words, next: 0 };
    for _ in 0..words.words.len() {
        let Some(word) = words.take() else {
            break;
        };
        if word.starts_with("--") {
            read_long(alloc, word, &mut words, &mut asked)?;
        } else if word.starts_with('-') && word.len() > 1 {
            read_short(alloc, word, &mut words, &mut asked)?;
        } else {
            return Err(wrong(alloc, word)?);
        }
    }
    Ok(asked)
}
