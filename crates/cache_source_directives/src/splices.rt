//! Names that the end of a line cuts in two, where that line goes on: no search for such a name finds it.

use crate::definitions::before_gap;
use crate::directives::{is_letter, is_space};
use memchr::memchr_iter;

/// What comes after the end of a line that a text begins with. None where it begins with none.
fn after_line_end(text: &[u8]) -> Option<&[u8]> {
    match text {
        [b'\r', b'\n', rest @ ..] => Some(rest),
        [b'\n', b'\r', rest @ ..] => Some(rest),
        [b'\r' | b'\n', rest @ ..] => Some(rest),
        _ => None,
    }
}

/// What comes after the end of the line that a text begins in. None where anything but spaces comes before that.
fn next_line(text: &[u8]) -> Option<&[u8]> {
    for (at, byte) in text.iter().enumerate() {
        if *byte == b'\r' || !is_space(*byte) {
            return after_line_end(text.get(at..).unwrap_or(&[]));
        }
    }
    None
}

/// Whether bytes before the end of a line that goes on end within a name. Lines that go on and have nothing else may come after that. Letters
/// after a `\` are of a string, as in a text of several lines (`\n\`).
fn ends_in_name(front: &[u8]) -> bool {
    let name = match front.last() {
        Some(b'\r' | b'\n') => before_gap(front),
        _ => front,
    };
    let mut has_letters = false;
    for byte in name.iter().rev() {
        if !is_letter(*byte) {
            return has_letters && *byte != b'\\';
        }
        has_letters = true;
    }
    has_letters
}

/// Whether the line of the `\` at that place of a source goes on, and a name does so with it.
fn cuts_name(source: &[u8], at: usize) -> bool {
    let Some((front, [_, after @ ..])) = source.split_at_checked(at) else {
        return false;
    };
    match next_line(after) {
        Some([first, ..]) => is_letter(*first) && ends_in_name(front),
        _ => false,
    }
}

/// Whether a source has a name that is cut in two.
pub(crate) fn cuts_names(source: &[u8]) -> bool {
    for at in memchr_iter(b'\\', source) {
        if cuts_name(source, at) {
            return true;
        }
    }
    false
}
