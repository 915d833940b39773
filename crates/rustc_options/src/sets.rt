//! Words between commas, and ordered sets of words.

ghost use Rattle.std.specs.Prelude.{◌≡◌, IfOk};
ghost use Rattle.rustc_options.specs.Sets.{between_commas, joined_by_commas, in_order};

use base_files::{Listed, OsBytes};
use std::alloc::{AllocError, Global};
use std::collections::BTreeSet;

/// The words between the commas of a word.
pub fn between_commas(alloc: Global, word: &[u8]) -> Result<Listed<OsBytes>, AllocError>
    ensures { IfOk result (λ words. words ≡ between_commas word.now) }
{
    let mut words = Vec::new(alloc);
    for piece in word.split(|byte| *byte == b',') {
        words.push(OsBytes::from_slice(alloc, piece)?)?;
    }
    Ok(Listed::from_vec(words))
}

/// Each of the words once, in the order of their bytes.
#[tactic(auto, unfolding(crate::specs::Sets::in_order))]
pub fn in_order(alloc: Global, words: Listed<OsBytes>) -> Result<Listed<OsBytes>, AllocError>
    ensures { IfOk result (λ list. list ≡ in_order words) }
{
    let mut set = BTreeSet::new(alloc);
    for word in words.into_vec() {
        set.insert(word)?;
    }
    let mut list = Vec::with_capacity(alloc, set.len())?;
    for word in set {
        list.push(word)?;
    }
    Ok(Listed::from_vec(list))
}

/// The words with a comma between each two.
pub fn joined_by_commas(alloc: Global, words: &[OsBytes]) -> Result<OsBytes, AllocError>
    ensures { IfOk result (λ word. word ≡ joined_by_commas words.now) }
{
    let mut text = Vec::new(alloc);
    let mut rest = words;
    while let Some((word, more)) = rest.split_first() {
        text.extend_from_slice(word.as_bytes())?;
        if !more.is_empty() {
            text.push(b',')?;
        }
        rest = more;
    }
    Ok(OsBytes::from_vec(text))
}
