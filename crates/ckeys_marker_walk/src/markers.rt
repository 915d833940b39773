//! The markers of a text, one after another.

ghost use Rattle.std.specs.Prelude.{◌≡◌, ◌≤◌, length};
ghost use Rattle.ckeys_marker_walk.specs.Lines.{lines, line_of, after_line};
ghost use Rattle.ckeys_marker_walk.specs.Left.{sights_left};
ghost use Rattle.ckeys_marker_walk.specs.Scanning.{begins_with_hash, sights};
ghost use Rattle.ckeys_marker_walk.specs.Told.{Tell};

use crate::line::{Mark, mark_in};
use memchr::{memchr, memmem};

/// What the lines of a preprocessed text say, from the first to the last: each item is a marker's name, which is a part of the text,
/// or says that a line refuses the text. Plain lines say nothing. It goes on after a line that refuses, and ends with the text. It
/// takes no memory.
#[derive(Drop)]
pub struct Markers<'a> {
    /// The text after the lines that were looked at.
    pub(crate) rest: &'a [u8],
}

impl<'a> Markers<'a> {
    /// The markers of that text.
    pub fn new(text: &'a [u8]) -> Markers<'a>
        ensures sights { sights_left result ≡ sights text.now }
        ensures lines { Tell (lines text.now) (sights_left result) }
    {
        Markers { rest: text }
    }
}

/// The first line of a text, and what comes after its end.
fn cut_line(text: &[u8]) -> (&[u8], &[u8])
    ensures line { result.0.now ≡ line_of text.now }
    ensures after { result.1.now ≡ after_line text.now }
{
    match memchr(b'\n', text) {
        Some(end) => (&text[..end], &text[end + 1..]),
        None => (text, &text[text.len()..]),
    }
}

/// Whether a text begins with `#`.
fn begins_with_hash(text: &[u8]) -> bool
    ensures { result ≡ begins_with_hash text.now }
{
    match text.split_first() {
        Some((first, _)) => *first == b'#',
        None => false,
    }
}

/// The text from its first line on that begins with `#`. Those before it are plain.
fn from_hash(text: &[u8]) -> &[u8]
    ensures sights { sights result.now ≡ sights text.now }
    ensures shorter { length result.now ≤ length text.now }
{
    if begins_with_hash(text) {
        return text;
    }
    match memmem::find(text, b"\n#") {
        Some(end) => &text[end + 1..],
        None => &text[text.len()..],
    }
}

impl<'a> Iterator for Markers<'a> {
    ghost use Rattle.std.specs.Iterator.{YieldsFirstBy, item_count};
    ghost use Rattle.ckeys_marker_walk.specs.Left.{sights_left};
    ghost use Rattle.ckeys_marker_walk.specs.Scanning.{sight_of_mark};

    type Item = Mark<'a>;

    ghost next_gives = { YieldsFirstBy sight_of_mark sights_left };

    ghost remaining = { item_count sights_left };

    fn next(&mut self) -> Option<Mark<'a>> {
        while !self.rest.is_empty() {
            let marked = from_hash(self.rest);
            let (line, after) = cut_line(marked);
            self.rest = after;
            if let Some(mark) = mark_in(line) {
                return Some(mark);
            }
        }
        None
    }
}
