//! Names as written between quotes, and the bytes that they mean.

ghost use Rattle.std.specs.Prelude.{◌≡◌, ◌↔◌, ◌&&◌, false, not, IfOk, IsOk};
ghost use Rattle.std.specs.List.{list_any};
ghost use Rattle.std.specs.Cow.{cow_slice_items, IsBorrowedSlice};
ghost use Rattle.ckeys_marker_walk.specs.Spelling.{is_backslash, meant};

use memchr::memchr;
use std::alloc::{AllocError, Global};
use std::borrow::CowSlice;

/// The name written like this between quotes: without the first of each two bytes that begin with a backslash. It is the slice itself,
/// and no memory is taken, where it has no backslash.
pub fn unescaped<'a>(alloc: Global, raw: &'a [u8]) -> Result<CowSlice<'a, u8>, AllocError>
    ensures value { IfOk result (λ name. cow_slice_items name ≡ meant raw.now) }
    ensures borrowed { IfOk result (λ name.
        IsBorrowedSlice name ↔ (list_any is_backslash raw.now ≡ false)) }
    ensures plain { list_any is_backslash raw.now ≡ false → IsOk result }
{
    match memchr(b'\\', raw) {
        None => Ok(CowSlice::Borrowed(raw)),
        Some(_) => Ok(CowSlice::Owned(without_escapes(alloc, raw)?)),
    }
}

/// Whether a byte, after a backslash that counts or not, is itself a backslash that counts.
fn begins_escape(escaped: bool, byte: u8) -> bool
    ensures { result ≡ (not escaped && is_backslash byte) }
{
    !escaped && byte == b'\\'
}

/// The bytes without the first of each two that begin with a backslash.
fn without_escapes(alloc: Global, raw: &[u8]) -> Result<Vec<u8>, AllocError>
    ensures { IfOk result (λ name. name.items ≡ meant raw.now) }
{
    let mut name = Vec::with_capacity(alloc, raw.len())?;
    let mut escaped = false;
    for byte in raw {
        escaped = begins_escape(escaped, *byte);
        if !escaped {
            name.push(*byte)?;
        }
    }
    Ok(name)
}
