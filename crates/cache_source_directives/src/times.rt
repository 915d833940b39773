//! Words and sources by which a day or a time may come into a text though no source has its macro whole.

use crate::directives::{after_spaces, stands_alone, word_ahead};
use base_files::OsBytes;
use memchr::memmem;

/// The macros that give a day or a time.
const MACROS: &[&[u8]] = &[b"__TIME__", b"__DATE__", b"__TIMESTAMP__"];

/// What the first of two pieces begins with, of which such a macro may be pasted.
const FRONTS: &[&[u8]] = &[b"__TI", b"__DA"];

/// Whether a name is the first piece of such a macro.
fn is_piece(name: &[u8]) -> bool {
    for it in MACROS {
        if it.len() > name.len() && it.starts_with(name) {
            return true;
        }
    }
    false
}

/// Whether a name before these bytes may be pasted: it is pasted there, is an argument, or is all that a macro stands for.
pub(crate) fn may_be_pasted(after: &[u8]) -> bool {
    match after_spaces(after) {
        // By `##`, which other spellings have for `#`.
        [byte, ..] => matches!(
            *byte,
            b'#' | b'%' | b'?' | b',' | b')' | b'\n' | b'\\' | b'/'
        ),
        [] => true,
    }
}

/// Whether a source contains a piece of such a macro that begins so.
fn has_piece(source: &[u8], front: &[u8]) -> bool {
    for at in memmem::find_iter(source, front) {
        let (name, after) = word_ahead(source.get(at..).unwrap_or(&[]));
        if stands_alone(source, at) && is_piece(name) && may_be_pasted(after) {
            return true;
        }
    }
    false
}

/// Whether a source has a piece from which a macro that gives a day or a time may be pasted.
pub fn pastes_time(source: &[u8]) -> bool {
    for front in FRONTS {
        if has_piece(source, front) {
            return true;
        }
    }
    false
}

/// Whether a text contains such a macro whole.
fn has_macro(text: &[u8]) -> bool {
    for it in MACROS {
        if memmem::find(text, it).is_some() {
            return true;
        }
    }
    false
}

/// What of a word may bring a day or a time into a text: all of it, except the name of such a macro that it defines.
fn telling_part(word: &[u8]) -> &[u8] {
    let definition = word.strip_prefix(b"-D").unwrap_or(word);
    for it in MACROS {
        let after = definition.strip_prefix(*it);
        if let Some(value) = after.and_then(|after| after.strip_prefix(b"=")) {
            return value;
        }
    }
    word
}

/// Whether a word of a command has such a macro, or a piece of one, but for the name of one that it defines.
pub fn tells_time(words: &[OsBytes]) -> bool {
    for word in words {
        let text = telling_part(word.as_bytes());
        if pastes_time(text) || has_macro(text) {
            return true;
        }
    }
    false
}
