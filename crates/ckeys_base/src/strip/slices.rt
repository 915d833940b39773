//! The slices of a text between the folders that go.

ghost use Rattle.std.specs.Prelude.{◌≡◌, ◌≤◌, ◌<◌, ℕ, IsTrue, length};
ghost use Rattle.std.specs.Option.{ForSome};
ghost use Rattle.ckeys_base.specs.FolderPlaces.{longest};
ghost use Rattle.ckeys_base.specs.FromTheLeft.{places_of, start_after};
ghost use Rattle.ckeys_base.specs.FromTheLeft as left;

use super::places::{Kind, longest_at};
use base_files::OsBytes;
use memchr::memchr;

/// The slices of a text or an argument between the folders that go, from a place on, in their order. None of them is empty. It ends, and
/// takes no memory.
#[derive(Drop)]
pub struct KeptSlices<'a> {
    pub(super) kind: Kind,
    pub(super) folders: &'a [OsBytes],
    pub(super) text: &'a [u8],
    /// Where the next slice begins, which may be an empty one, unless the last one was given.
    pub(super) next: Option<usize>,
    ghost within: { ForSome next (λ i. i ≤ length text.now) },
}

impl<'a> Iterator for KeptSlices<'a> {
    ghost use Rattle.std.specs.Iterator.{YieldsFirstRef, item_count};
    ghost use Rattle.ckeys_base.specs.KeptParts.{slices_left};

    type Item = &'a [u8];

    ghost next_gives = { YieldsFirstRef slices_left };

    ghost remaining = { item_count slices_left };

    fn next(&mut self) -> Option<&'a [u8]> {
        while let Some(from) = self.next {
            let end = next_place(self.kind, self.folders, self.text, from);
            self.next = next_start(self.kind, self.folders, self.text, end);
            if from < end {
                return Some(&self.text[from..end]);
            }
        }
        None
    }
}

/// The first place from there on at which a folder goes, or the end.
pub(super) fn next_place(kind: Kind, folders: &[OsBytes], text: &[u8], from: usize) -> usize
    requires { from ≤ length text.now }
    ensures within { (from ≤ result) × (result ≤ length text.now) }
    ensures none_before { (k : ℕ) → from ≤ k → k < result
        → longest (places_of kind) folders.now text.now k ≡ 0 }
    ensures found { result < length text.now
        → 0 < longest (places_of kind) folders.now text.now result }
{
    if all_begin_with_slash(folders) {
        next_slash(kind, folders, text, from)
    } else {
        next_byte(kind, folders, text, from)
    }
}

/// Whether each folder begins with a slash, as an absolute one does.
fn all_begin_with_slash(folders: &[OsBytes]) -> bool
    ensures { result ≡ left.all_begin_with_slash folders.now }
{
    folders
        .iter()
        .all(|folder| folder.as_bytes().starts_with(b"/"))
}

/// The same where folders go at slashes alone: a search from slash to slash.
fn next_slash(kind: Kind, folders: &[OsBytes], text: &[u8], from: usize) -> usize
    requires start { from ≤ length text.now }
    requires slashes { IsTrue (left.all_begin_with_slash folders.now) }
    ensures within { (from ≤ result) × (result ≤ length text.now) }
    ensures none_before { (k : ℕ) → from ≤ k → k < result
        → longest (places_of kind) folders.now text.now k ≡ 0 }
    ensures found { result < length text.now
        → 0 < longest (places_of kind) folders.now text.now result }
{
    let mut rest = from;
    while let Some(slash) = memchr(b'/', &text[rest..]) {
        let at = rest + slash;
        if longest_at(kind, folders, text, at) > 0 {
            return at;
        }
        rest = at + 1;
    }
    text.len()
}

/// The same where folders may go anywhere: each place is asked.
fn next_byte(kind: Kind, folders: &[OsBytes], text: &[u8], from: usize) -> usize
    requires { from ≤ length text.now }
    ensures within { (from ≤ result) × (result ≤ length text.now) }
    ensures none_before { (k : ℕ) → from ≤ k → k < result
        → longest (places_of kind) folders.now text.now k ≡ 0 }
    ensures found { result < length text.now
        → 0 < longest (places_of kind) folders.now text.now result }
{
    for i in from..text.len() {
        if longest_at(kind, folders, text, i) > 0 {
            return i;
        }
    }
    text.len()
}

/// Where the slice after the folder at this place begins, unless this is the end.
pub(super) fn next_start(kind: Kind, folders: &[OsBytes], text: &[u8], end: usize) -> Option<usize>
    requires { end ≤ length text.now }
    ensures value { result
        ≡ start_after (longest (places_of kind) folders.now text.now) (length text.now) end }
    ensures within { ForSome result (λ i. i ≤ length text.now) }
{
    if end < text.len() {
        Some(end + longest_at(kind, folders, text, end))
    } else {
        None
    }
}
