//! Calls on keys and on what is recorded: it is compared and counted.

use super::say_ready;
use crate::Fault;
use base_files::{Listed, OsBytes};
use ckeys_include_records::{IncludeEntry, KeyText, PreprocessorCacheEntry};
use ckeys_records::shape::CShape;
use ckeys_time_macros::Timestamp;
use cmdlines_tables::language::Language;
use std::alloc::{AllocError, Global};
use wrap_base::store_key::{Family, Shape, StoreKey};
use wrap_fingerprints::explain::explain;
use wrap_fingerprints::{CParts, Fingerprint, Part};

/// Comparisons of keys that differ in their last field.
pub(crate) fn compare_keys<R: Eprint + AllocGlobal>(rt: &R) -> Result<bool, Fault> {
    let keys = two_keys(rt.alloc())?;
    say_ready(rt);
    let [held, other] = keys.as_slice() else {
        return Ok(false);
    };
    Ok(held < other && held != other)
}

/// Two keys, in order.
pub(crate) fn two_keys(alloc: Global) -> Result<Vec<StoreKey>, AllocError> {
    let mut keys = Vec::new(alloc);
    keys.push(key(alloc, b"held")?)?;
    keys.push(key(alloc, b"other")?)?;
    Ok(keys)
}

/// A key with that digest.
pub(crate) fn key(alloc: Global, digest: &[u8]) -> Result<StoreKey, AllocError> {
    let digest = OsBytes::from_slice(alloc, digest)?;
    Ok(StoreKey {
        family: Family::C,
        shape: Shape::C(CShape {
            language: Language::C,
            compiler_digest: 64,
            words: 0,
            extra_hashes: Listed::new(alloc),
            assembler_digest: None,
            variables: 0,
        }),
        names: Listed::new(alloc),
        digest,
    })
}

/// Comparisons of moments: the seconds count first.
pub(crate) fn compare_moments<R: Eprint>(rt: &R) -> bool {
    let (early, late) = (Timestamp::new(1, 2), Timestamp::new(2, 1));
    say_ready(rt);
    early < late && early != late
}

/// `number_of_entries` of a record whose one text named one file.
pub(crate) fn count_includes<R: Eprint + AllocGlobal>(rt: &R) -> Result<bool, Fault> {
    let record = include_record(rt.alloc())?;
    say_ready(rt);
    Ok(record.number_of_entries() == 1)
}

fn include_record(alloc: Global) -> Result<PreprocessorCacheEntry, AllocError> {
    let mut record = PreprocessorCacheEntry::new(alloc);
    record.add_result(digest_text(alloc, "text")?, includes(alloc)?)?;
    Ok(record)
}

/// The one file that the text named.
fn includes(alloc: Global) -> Result<Listed<IncludeEntry>, AllocError> {
    let mut includes = Vec::with_capacity(alloc, 1)?;
    includes
        .push(IncludeEntry {
            path: OsBytes::from_slice(alloc, b"/w/h.h")?,
            size: 4,
            digest: digest_text(alloc, "file")?,
            day: None,
            second: None,
        })
        .map_err(AllocError::from)?;
    Ok(Listed::from_vec(includes))
}

fn digest_text(alloc: Global, text: &str) -> Result<KeyText, AllocError> {
    Ok(KeyText::new(String::from_str(alloc, text)?))
}

/// `explain` of fingerprints that differ in their text, and of one and the same.
pub(crate) fn explain_fingerprints<R: Eprint + AllocGlobal>(rt: &R) -> Result<bool, Fault> {
    let fingerprints = two_fingerprints(rt.alloc())?;
    say_ready(rt);
    let [one, other] = fingerprints.as_slice() else {
        return Ok(false);
    };
    Ok(matches!(explain(one, other), Some(Part::Text)) && explain(one, one).is_none())
}

/// Fingerprints of two texts.
fn two_fingerprints(alloc: Global) -> Result<Vec<Fingerprint>, AllocError> {
    let mut fingerprints = Vec::new(alloc);
    fingerprints.push(fingerprint(alloc, b"int x;")?)?;
    fingerprints.push(fingerprint(alloc, b"int y;")?)?;
    Ok(fingerprints)
}

fn fingerprint(alloc: Global, text: &[u8]) -> Result<Fingerprint, AllocError> {
    let text = OsBytes::from_slice(alloc, text)?;
    Ok(Fingerprint::C(CParts {
        compiler: OsBytes::empty(alloc),
        plusplus: false,
        language: Language::C,
        words: Listed::new(alloc),
        variables: Listed::new(alloc),
        extra_hashes: Listed::new(alloc),
        assembler: None,
        text,
        names: Listed::new(alloc),
    }))
}
