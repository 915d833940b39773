//! Where a folder counts in a text or in an argument.

ghost use Rattle.std.specs.Prelude.{◌≡◌, ◌≤◌, ◌+◌, max, length};
ghost use Rattle.ckeys_base.specs.FolderPlaces.{longest};
ghost use Rattle.ckeys_base.specs.FromTheLeft.{places_of};
ghost use Rattle.ckeys_base.specs.FolderPlaces as spec;

use base_files::OsBytes;

/// What folders go from.
#[derive(Clone, Copy, Debug, PartialEq, Eq)]
pub(super) enum Kind {
    Text,
    Argument,
}

/// Whether a folder of a text may come after this byte.
fn opens(byte: u8) -> bool
    ensures { result ≡ spec.opens byte }
{
    byte.is_ascii_whitespace() || byte == b'"' || byte == b'\'' || byte == b'<'
}

/// Whether a folder of a text may end before this byte.
fn closes(byte: u8) -> bool
    ensures { result ≡ spec.closes byte }
{
    byte == b'/' || byte.is_ascii_whitespace() || byte == b'"' || byte == b'\'' || byte == b'>'
}

/// Whether a folder may begin at this place.
fn may_begin(kind: Kind, text: &[u8], at: usize) -> bool
    requires { at ≤ length text.now }
    ensures { result ≡ (places_of kind).may_begin text.now at }
{
    match kind {
        Kind::Text => at == 0 || opens(text[at - 1]),
        Kind::Argument => {
            !text.starts_with(b"-D")
                && (at == 0
                    || text[at - 1] == b'='
                    || at == 2 && text[0] == b'-' && text[1] != b'-')
        }
    }
}

/// Whether a folder may end at this place.
fn may_end(kind: Kind, text: &[u8], at: usize) -> bool
    requires { at ≤ length text.now }
    ensures { result ≡ (places_of kind).may_end text.now at }
{
    match kind {
        Kind::Text => at == text.len() || closes(text[at]),
        Kind::Argument => at == text.len() || text[at] == b'/' || text[at] == b'=',
    }
}

/// Whether the folder counts at this place.
#[tactic(auto, unfolding(crate::specs::FolderPlaces::counts))]
fn counts(kind: Kind, text: &[u8], at: usize, folder: &[u8]) -> bool
    requires { at ≤ length text.now }
    ensures { result ≡ spec.counts (places_of kind) text.now at folder.now }
{
    may_begin(kind, text, at)
        && text[at..].starts_with(folder)
        && may_end(kind, text, at + folder.len())
}

/// The folder's length where it counts, or 0.
#[tactic(auto, unfolding(crate::specs::FolderPlaces::counted_len))]
fn counted_len(kind: Kind, text: &[u8], at: usize, folder: &[u8]) -> usize
    requires { at ≤ length text.now }
    ensures value { result ≡ spec.counted_len (places_of kind) text.now at folder.now }
    ensures within { at + result ≤ length text.now }
{
    if counts(kind, text, at, folder) {
        folder.len()
    } else {
        0
    }
}

fn larger(a: usize, b: usize) -> usize
    ensures { result ≡ max a b }
{
    if a < b { b } else { a }
}

/// The length of the longest folder that counts there, or 0.
pub(super) fn longest_at(kind: Kind, folders: &[OsBytes], text: &[u8], at: usize) -> usize
    requires { at ≤ length text.now }
    ensures value { result ≡ longest (places_of kind) folders.now text.now at }
    ensures within { at + result ≤ length text.now }
{
    let mut best = 0;
    for folder in folders {
        best = larger(best, counted_len(kind, text, at, folder.as_bytes()));
    }
    best
}
