//! The names of metadata, which rustc doesn't report.

ghost use Rattle.std.specs.Prelude.{◌≡◌, false, true, List, IfOk, filter, fold};
ghost use Rattle.base_files.specs.Bytes.{Bytes};
ghost use Rattle.rustc_texts.specs.Outputs.{has_name, is_rlib, metadata_name, with_metadata, with_metadata_of};
ghost use Rattle.rustc_texts.specs.Places.{TellsLast, is_none_of};

use crate::name_sets::{add_name, insert_name, last_places, name_set, remove_name, stands_from};
use base_files::OsBytes;
use std::alloc::{AllocError, Global};
use std::collections::BTreeMap;

/// Whether one of the names is that name.
fn has_name(names: &[OsBytes], name: &[u8]) -> bool
    ensures { result ≡ has_name names.now name.now }
{
    names.iter().any(|other| name == other.as_bytes())
}

pub(crate) fn is_rlib(name: &[u8]) -> bool
    ensures { result ≡ is_rlib name.now }
{
    name.ends_with(b".rlib")
}

/// The name of a library's metadata: its first `.rlib` is `.rmeta`.
fn metadata_name(alloc: Global, library: &[u8]) -> Result<OsBytes, AllocError>
    ensures { IfOk result (λ name. name ≡ metadata_name library.now) }
{
    let mut name = Vec::with_capacity(alloc, library.len() + 1)?;
    let mut rest = library;
    while let Some((byte, after)) = rest.split_first() {
        if let Some(ending) = rest.strip_prefix(b".rlib") {
            name.extend_from_slice(b".rmeta")?;
            name.extend_from_slice(ending)?;
            return Ok(OsBytes::from_vec(name));
        }
        name.push(*byte)?;
        rest = after;
    }
    Ok(OsBytes::from_vec(name))
}

/// Those of the names that are of libraries.
fn libraries(alloc: Global, names: &[OsBytes]) -> Result<Vec<OsBytes>, AllocError>
    ensures { IfOk result (λ kept. kept.items ≡ filter is_rlib names.now) }
{
    let mut kept = Vec::new(alloc);
    for name in names {
        if is_rlib(name.as_bytes()) {
            kept.push(name.clone()?)?;
        }
    }
    Ok(kept)
}

/// The names with that of each library's metadata after them.
fn beside(
    alloc: Global,
    names: Vec<OsBytes>,
    libraries: &[OsBytes],
) -> Result<Vec<OsBytes>, AllocError>
    ensures { IfOk result
        (λ made. made.items ≡ fold (with_metadata_of true) names.items libraries.now) }
{
    let mut known = name_set(alloc, names.as_slice())?;
    let mut names = names;
    for library in libraries {
        let name = metadata_name(alloc, library.as_bytes())?;
        add_name(&mut names, &mut known, name)?;
    }
    Ok(names)
}

/// The names that aren't in a list, by where each of its names occurs last.
fn others(
    alloc: Global,
    names: Vec<OsBytes>,
    last: &BTreeMap<OsBytes, usize>,
) -> Result<Vec<OsBytes>, AllocError>
    ensures { (listed : List Bytes) → TellsLast last.now listed
        → IfOk result (λ kept. kept.items ≡ filter (is_none_of listed) names.items) }
{
    let mut kept = Vec::with_capacity(alloc, names.len())?;
    for name in names {
        if !stands_from(last, 0, &name) {
            kept.push(name)?;
        }
    }
    Ok(kept)
}

/// The names with that of each library's metadata in the library's place.
fn in_place(
    alloc: Global,
    names: Vec<OsBytes>,
    libraries: &[OsBytes],
) -> Result<Vec<OsBytes>, AllocError>
    ensures { IfOk result
        (λ made. made.items ≡ fold (with_metadata_of false) names.items libraries.now) }
{
    let mut known = name_set(alloc, names.as_slice())?;
    let last = last_places(alloc, libraries)?;
    let mut made = others(alloc, names, &last)?;
    for (place, library) in libraries.iter().enumerate() {
        let name = metadata_name(alloc, library.as_bytes())?;
        let is_new = insert_name(&mut known, &name)?;
        remove_name(&mut known, library);
        if is_new && !stands_from(&last, place, &name) {
            made.push(name)?;
        }
    }
    Ok(made)
}

/// The names with those of the metadata of each library, where metadata is written: beside libraries that are linked, and else in
/// their places.
pub(crate) fn with_metadata(
    alloc: Global,
    names: Vec<OsBytes>,
    emit: &[OsBytes],
) -> Result<Vec<OsBytes>, AllocError>
    ensures { IfOk result (λ made. made.items ≡ with_metadata emit.now names.items) }
{
    if !has_name(emit, b"metadata") {
        return Ok(names);
    }
    let libraries = libraries(alloc, names.as_slice())?;
    if has_name(emit, b"link") {
        beside(alloc, names, libraries.as_slice())
    } else {
        in_place(alloc, names, libraries.as_slice())
    }
}
