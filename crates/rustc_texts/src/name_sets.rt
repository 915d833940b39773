//! Sets of names, and where names occur last in a list.

ghost use Rattle.std.specs.Prelude.{◌≡◌, List, drop, not, IfOk, OnOk};
ghost use Rattle.base_files.specs.Bytes.{Bytes};
ghost use Rattle.rustc_texts.specs.Outputs.{Tells, has_name, with_name, without_name};
ghost use Rattle.rustc_texts.specs.Places.{TellsLast};

use base_files::OsBytes;
use std::alloc::{AllocError, Global};
use std::collections::{BTreeMap, BTreeSet};

/// Adds a name to a set of names, and returns whether it's new there.
pub(crate) fn insert_name(known: &mut BTreeSet<OsBytes>, name: &OsBytes) -> Result<bool, AllocError>
    ensures told { (names : List Bytes) → Tells known.old names
        → OnOk result (Tells known.new (with_name names name.now)) }
    ensures is_new { (names : List Bytes) → Tells known.old names
        → IfOk result (λ is_new. is_new ≡ not (has_name names name.now)) }
{
    Ok(known.insert(name.clone()?)?)
}

/// Takes a name out of a set of names.
pub(crate) fn remove_name(known: &mut BTreeSet<OsBytes>, name: &OsBytes)
    ensures { (names : List Bytes) → Tells known.old names
        → Tells known.new (without_name names name.now) }
{
    known.remove(name);
}

/// The set of the names.
pub(crate) fn name_set(alloc: Global, names: &[OsBytes]) -> Result<BTreeSet<OsBytes>, AllocError>
    ensures { IfOk result (λ known. Tells known names.now) }
{
    let mut known = BTreeSet::new(alloc);
    for name in names {
        insert_name(&mut known, name)?;
    }
    Ok(known)
}

/// Adds a name, unless it's there, which is looked up in a set of the names.
pub(crate) fn add_name(
    names: &mut Vec<OsBytes>,
    known: &mut BTreeSet<OsBytes>,
    name: OsBytes,
) -> Result<(), AllocError>
    requires { Tells known.old names.old.items }
    ensures names { OnOk result (names.new.items ≡ with_name names.old.items name) }
    ensures told { OnOk result (Tells known.new names.new.items) }
{
    if insert_name(known, &name)? {
        names.push(name)?;
    }
    Ok(())
}

/// Where each of the names occurs last.
pub(crate) fn last_places(
    alloc: Global,
    names: &[OsBytes],
) -> Result<BTreeMap<OsBytes, usize>, AllocError>
    ensures { IfOk result (λ last. TellsLast last names.now) }
{
    let mut last = BTreeMap::new(alloc);
    for (place, name) in names.iter().enumerate() {
        last.insert(name.clone()?, place)?;
    }
    Ok(last)
}

/// Whether a name occurs at that place of a list or after it, by where each occurs last.
pub(crate) fn stands_from(last: &BTreeMap<OsBytes, usize>, place: usize, name: &OsBytes) -> bool
    ensures { (names : List Bytes) → TellsLast last.now names
        → result ≡ has_name (drop place names) name.now }
{
    match last.get(name) {
        Some(last) => place <= *last,
        None => false,
    }
}
