//! What asks for a file though no directive and no whole probe shows it: a probe of two pieces, a pragma in a string or a macro's argument,
//! and a definition by a word of a command.

use crate::definitions::before_gap;
use crate::directives::{PROBE, after_spaces, stands_alone, word_ahead};
use crate::times::may_be_pasted;
use base_files::OsBytes;
use memchr::memmem;

/// What the first of two pieces begins with of which a probe may be pasted. A shorter one may be a name of any kind.
pub(crate) const PIECE: &[u8] = b"__ha";

/// The pragma that asks for the time of a file, by its first word and its second one.
const PRAGMA: (&[u8], &[u8]) = (b"GCC", b"dependency");

/// Whether a name before these bytes, which lacks that end of a probe's, may be pasted to it: it isn't where something else comes after `##`,
/// as the parameter of a macro.
fn may_be_completed(end: &[u8], after: &[u8]) -> bool {
    let Some(pasted) = after_spaces(after).strip_prefix(b"##") else {
        return may_be_pasted(after);
    };
    let (word, _) = word_ahead(after_spaces(pasted));
    end.starts_with(word)
}

/// Whether the word at that place of a text is the first piece of a probe, and may be pasted to the rest of it.
fn pastes_at(text: &[u8], at: usize) -> bool {
    let (name, after) = word_ahead(text.get(at..).unwrap_or(&[]));
    match PROBE.strip_prefix(name) {
        Some([]) | None => false,
        Some(end) => stands_alone(text, at) && may_be_completed(end, after),
    }
}

/// Whether a text has a piece of which a probe may be pasted.
pub(crate) fn pastes_probe(text: &[u8]) -> bool {
    for at in memmem::find_iter(text, PIECE) {
        if pastes_at(text, at) {
            return true;
        }
    }
    false
}

/// Whether the second word of that pragma, which is at that place of a text, may come after the first one: there are spaces, the end of a line
/// that goes on or a comment between them.
fn has_pragma_at(text: &[u8], at: usize) -> bool {
    let (first, second) = PRAGMA;
    let (word, _) = word_ahead(text.get(at..).unwrap_or(&[]));
    let front = before_gap(text.get(..at).unwrap_or(&[]));
    word == second && stands_alone(text, at) && (front.ends_with(first) || front.ends_with(b"*/"))
}

/// Whether the words of the pragma that asks for the time of a file are in a text. `_Pragma` takes them from a string, which a macro may
/// make of its argument.
pub(crate) fn has_pragma(text: &[u8]) -> bool {
    let (_, second) = PRAGMA;
    for at in memmem::find_iter(text, second) {
        if has_pragma_at(text, at) {
            return true;
        }
    }
    false
}

/// Whether a word of a command has a probe, a piece of one, or the pragma that asks for the time of a file: a macro that it defines may ask
/// for a file wherever a source uses it.
pub fn asks_for_files(words: &[OsBytes]) -> bool {
    for word in words {
        let text = word.as_bytes();
        if memmem::find(text, PROBE).is_some() || pastes_probe(text) || has_pragma(text) {
            return true;
        }
    }
    false
}
