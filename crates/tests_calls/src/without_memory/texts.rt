//! Calls on bytes: they are digested, searched and stripped; and one call that takes memory.

use super::say_ready;
use crate::Fault;
use base_files::OsBytes;
use ckeys_base::{Digest, kept_slices};
use ckeys_time_macros::TimeMacroFinder;
use sha2::Sha256;
use tests_kit::words;

/// `update` of a digest, with more bytes than fill one block. What the bytes come to can't be determined without memory.
pub(crate) fn digest<R: Eprint>(rt: &R) -> bool {
    let mut digest: Digest<Sha256> = Digest::new();
    say_ready(rt);
    digest.update(b"abc");
    digest.update([b'x'; 200].as_slice());
    true
}

/// The calls of a finder, which sees a macro in two pieces.
pub(crate) fn finder<R: Eprint>(rt: &R) -> bool {
    say_ready(rt);
    let mut finder = TimeMacroFinder::new();
    finder.find_time_macros(b"int __DA");
    let is_early = finder.found_time_macros();
    finder.find_time_macros(b"TE__;");
    !is_early && found_date_alone(&finder)
}

fn found_date_alone(finder: &TimeMacroFinder) -> bool {
    finder.found_date()
        && finder.found_time_macros()
        && !finder.found_time()
        && !finder.found_timestamp()
}

/// The items of `kept_slices`.
pub(crate) fn slices<R: Eprint + AllocGlobal>(rt: &R) -> Result<bool, Fault> {
    let folders = words(rt.alloc(), "/p")?;
    say_ready(rt);
    Ok(leaves_the_rest(folders.as_slice()))
}

/// The folder goes at both of its places, and what is between, before and after them stays.
fn leaves_the_rest(folders: &[OsBytes]) -> bool {
    let mut slices = kept_slices(b"\"/p/a\" /p", folders);
    matches!(slices.next(), Some(b"\""))
        && matches!(slices.next(), Some(b"/a\" "))
        && slices.next().is_none()
}

/// A word is copied, which takes memory.
pub(crate) fn copy<R: Eprint + AllocGlobal>(rt: &R) -> Result<bool, Fault> {
    let alloc = rt.alloc();
    say_ready(rt);
    let copy = OsBytes::from_slice(alloc, b"word")?;
    Ok(matches!(copy.as_bytes(), b"word"))
}
