//! Texts and arguments without the folders that are no part of a key.

ghost use Rattle.std.specs.Prelude.{◌≡◌, ◌↔◌, ◌<◌, ◌≤◌, ℕ, Bool, false, List, [], IfOk, IsOk, length};
ghost use Rattle.std.specs.List.{AllByRecursion, list_any};
ghost use Rattle.std.specs.Cow.{cow_slice_items, IsBorrowedSlice};
ghost use Rattle.base_files.specs.Bytes.{Bytes};
ghost use Rattle.ckeys_base.specs.FolderPlaces.{Places, text_places, argument_places, longest};
ghost use Rattle.ckeys_base.specs.FromTheLeft.{places_of, stripped_of};
ghost use Rattle.ckeys_base.specs.Feeding.{joined};
ghost use Rattle.ckeys_base.specs.KeptParts.{slices_left};
ghost use Rattle.ckeys_base.specs.Stripping.{IsStripping, HasExactlyOne, filled, left_by, parts};

mod places;
mod slices;

use base_files::OsBytes;
use places::Kind;
pub use slices::KeptSlices;
use slices::{next_place, next_start};
use std::alloc::{AllocError, Global};
use std::borrow::CowSlice;

/// A text without the folders that count in it: an occurrence of a folder counts where the byte
/// before it is the start, ASCII white space, `"`, `'` or `<`, and the byte after it is `/`, ASCII
/// white space, `"`, `'`, `>` or the end. From the left, at each such place outside of what went
/// before, the longest folder goes. It is the text itself, and no memory is taken, where nothing goes.
pub fn strip_basedirs<'a>(
    alloc: Global,
    text: &'a [u8],
    folders: &[OsBytes],
) -> Result<CowSlice<'a, u8>, AllocError>
    ensures one { HasExactlyOne
        (IsStripping (longest text_places folders.now text.now) 0 (length text.now)) }
    ensures left { (starts : List ℕ)
        → IsStripping (longest text_places folders.now text.now) 0 (length text.now) starts
        → IfOk result
        (λ cut. cow_slice_items cut
        ≡ left_by (longest text_places folders.now text.now) text.now starts) }
    ensures borrowed { (starts : List ℕ)
        → IsStripping (longest text_places folders.now text.now) 0 (length text.now) starts
        → IfOk result (λ cut. IsBorrowedSlice cut ↔ (starts ≡ [])) }
    ensures value { IfOk result
        (λ cut. cow_slice_items cut ≡ stripped_of text_places folders.now text.now) }
    ensures memory { IsStripping (longest text_places folders.now text.now) 0 (length text.now) [] → IsOk result }
{
    strip(alloc, Kind::Text, text, folders)
}

/// The slices of a text that `strip_basedirs` leaves, in their order: joined they are its result. None of them is empty. It takes no
/// memory, and neither do its items.
pub fn kept_slices<'a>(text: &'a [u8], folders: &'a [OsBytes]) -> KeptSlices<'a>
    ensures slices { (starts : List ℕ)
        → IsStripping (longest text_places folders.now text.now) 0 (length text.now) starts
        → slices_left result
        ≡ filled (parts (longest text_places folders.now text.now) text.now 0 starts) }
    ensures joined { joined (slices_left result) ≡ stripped_of text_places folders.now text.now }
    ensures full { AllByRecursion (λ slice. 0 < length slice) (slices_left result) }
{
    KeptSlices {
        kind: Kind::Text,
        folders,
        text,
        next: Some(0),
    }
}

/// An argument without the folders that count in it: the places are the start, the byte after each
/// `=`, and byte 2 of a word that begins with `-` and another byte than `-`, and an occurrence ends
/// at the end, `/` or `=`. A word that begins with `-D` has no such place. From the left, at each
/// place outside of what went before, the longest folder goes. It is the argument itself, and no
/// memory is taken, where nothing goes.
pub fn strip_basedirs_from_arg<'a>(
    alloc: Global,
    argument: &'a [u8],
    folders: &[OsBytes],
) -> Result<CowSlice<'a, u8>, AllocError>
    ensures one { HasExactlyOne
        (IsStripping (longest argument_places folders.now argument.now) 0 (length argument.now)) }
    ensures left { (starts : List ℕ)
        → IsStripping (longest argument_places folders.now argument.now) 0 (length argument.now)
        starts
        → IfOk result
        (λ cut. cow_slice_items cut
        ≡ left_by (longest argument_places folders.now argument.now) argument.now starts) }
    ensures borrowed { (starts : List ℕ)
        → IsStripping (longest argument_places folders.now argument.now) 0 (length argument.now)
        starts
        → IfOk result (λ cut. IsBorrowedSlice cut ↔ (starts ≡ [])) }
    ensures value { IfOk result
        (λ cut. cow_slice_items cut ≡ stripped_of argument_places folders.now argument.now) }
    ensures memory { IsStripping (longest argument_places folders.now argument.now) 0 (length argument.now) [] → IsOk result }
{
    strip(alloc, Kind::Argument, argument, folders)
}

/// What is left, borrowed where all of it is.
fn strip<'a>(
    alloc: Global,
    kind: Kind,
    text: &'a [u8],
    folders: &[OsBytes],
) -> Result<CowSlice<'a, u8>, AllocError>
    ensures one { HasExactlyOne
        (IsStripping (longest (places_of kind) folders.now text.now) 0 (length text.now)) }
    ensures left { (starts : List ℕ)
        → IsStripping (longest (places_of kind) folders.now text.now) 0 (length text.now) starts
        → IfOk result
        (λ cut. cow_slice_items cut
        ≡ left_by (longest (places_of kind) folders.now text.now) text.now starts) }
    ensures borrowed { (starts : List ℕ)
        → IsStripping (longest (places_of kind) folders.now text.now) 0 (length text.now) starts
        → IfOk result (λ cut. IsBorrowedSlice cut ↔ (starts ≡ [])) }
    ensures value { IfOk result
        (λ cut. cow_slice_items cut ≡ stripped_of (places_of kind) folders.now text.now) }
    ensures memory { IsStripping (longest (places_of kind) folders.now text.now) 0 (length text.now) []
        → IsOk result }
{
    let first = next_place(kind, folders, text, 0);
    if first == text.len() {
        return Ok(CowSlice::Borrowed(text));
    }
    Ok(CowSlice::Owned(join_kept(alloc, kind, text, folders, first)?))
}

/// The parts that stay, in one, where the first folder goes at that place.
fn join_kept(
    alloc: Global,
    kind: Kind,
    text: &[u8],
    folders: &[OsBytes],
    first: usize,
) -> Result<Vec<u8>, AllocError>
    requires within { first ≤ length text.now }
    requires none_before { (k : ℕ) → k < first → longest (places_of kind) folders.now text.now k ≡ 0 }
    requires found { first < length text.now
        → 0 < longest (places_of kind) folders.now text.now first }
    ensures { IfOk result (λ kept. kept.items ≡ stripped_of (places_of kind) folders.now text.now) }
{
    let mut kept = Vec::with_capacity(alloc, text.len())?;
    kept.extend_from_slice(&text[..first])?;
    let after = KeptSlices {
        kind,
        folders,
        text,
        next: next_start(kind, folders, text, first),
    };
    for slice in after {
        kept.extend_from_slice(slice)?;
    }
    Ok(kept)
}

/// Of each text or argument, by whichever places, one set of intervals alone is what goes, and what `stripped_of` says is left,
/// is what that leaves. Calls of it do nothing.
pub fn stripping_leaves_one_text()
    ensures one { (places : Places) (folders : List Bytes) (text : Bytes)
        → HasExactlyOne (IsStripping (longest places folders text) 0 (length text)) }
    ensures left { (places : Places) (folders : List Bytes) (text : Bytes) (starts : List ℕ)
        → IsStripping (longest places folders text) 0 (length text) starts
        → stripped_of places folders text ≡ left_by (longest places folders text) text starts }
{}

/// Stripping adds no byte: what no byte of a text is, none of what is left is. Calls of it do nothing.
pub fn stripping_adds_no_byte()
    ensures { (places : Places) (folders : List Bytes) (text : Bytes) (test : ℕ → Bool)
        → list_any test text ≡ false → list_any test (stripped_of places folders text) ≡ false }
{}
