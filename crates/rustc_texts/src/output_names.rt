//! The names of what a request writes: those that rustc tells, less what isn't written, and with the metadata that it doesn't tell.

ghost use Rattle.std.specs.Prelude.{◌≡◌, IfOk, filter};
ghost use Rattle.std.specs.List.{list_all};
ghost use Rattle.rustc_texts.specs.Outputs.{each_once, is_no_binary, is_of_crate, named, output_names, without_binaries, writes_no_binary};

use crate::metadata::{is_rlib, with_metadata};
use crate::name_sets::add_name;
use base_files::{Listed, OsBytes};
use std::alloc::{AllocError, Global};
use std::collections::BTreeSet;

/// The names that rustc prints: the lines of its answer, each once, where it comes first.
fn named(alloc: Global, text: &str) -> Result<Vec<OsBytes>, AllocError>
    ensures { IfOk result (λ names. names.items ≡ named text.now) }
{
    let mut names = Vec::new(alloc);
    let mut known = BTreeSet::new(alloc);
    for line in text.lines() {
        let name = OsBytes::from_slice(alloc, line.as_bytes())?;
        add_name(&mut names, &mut known, name)?;
    }
    Ok(names)
}

fn is_no_binary(kind: &[u8]) -> bool
    ensures { result ≡ is_no_binary kind.now }
{
    kind == b"metadata".as_slice() || kind == b"dep-info".as_slice()
}

/// Whether none of the kinds is a binary.
fn are_no_binaries(emit: &[OsBytes]) -> bool
    ensures { result ≡ list_all is_no_binary emit.now }
{
    emit.iter().all(|kind| is_no_binary(kind.as_bytes()))
}

/// Whether nothing but metadata and dependencies is written.
fn writes_no_binary(emit: &[OsBytes]) -> bool
    ensures { result ≡ writes_no_binary emit.now }
{
    !emit.is_empty() && are_no_binaries(emit)
}

fn is_of_crate(name: &[u8]) -> bool
    ensures { result ≡ is_of_crate name.now }
{
    is_rlib(name) || name.ends_with(b".rmeta")
}

/// The names of crates.
fn of_crates(alloc: Global, names: Vec<OsBytes>) -> Result<Vec<OsBytes>, AllocError>
    ensures { IfOk result (λ kept. kept.items ≡ filter is_of_crate names.items) }
{
    let mut kept = Vec::with_capacity(alloc, names.len())?;
    for name in names {
        if is_of_crate(name.as_bytes()) {
            kept.push(name)?;
        }
    }
    Ok(kept)
}

/// The names without those of binaries, where none is written.
fn without_binaries(
    alloc: Global,
    names: Vec<OsBytes>,
    emit: &[OsBytes],
) -> Result<Vec<OsBytes>, AllocError>
    ensures { IfOk result (λ kept. kept.items ≡ without_binaries emit.now names.items) }
{
    if writes_no_binary(emit) {
        of_crates(alloc, names)
    } else {
        Ok(names)
    }
}

/// The names of what a request writes that asks for these kinds of outputs, by rustc's answer to the question for its file names: a
/// line of it is a name. Where only metadata and dependencies are written, names of binaries are left out. Metadata of a library is
/// listed after the library where that is linked, and else in its place. Each name is listed once, in rustc's order.
pub fn output_names(
    alloc: Global,
    emit: &[OsBytes],
    text: &str,
) -> Result<Listed<OsBytes>, AllocError>
    ensures { IfOk result (λ names. names ≡ output_names emit.now text.now) }
{
    let names = without_binaries(alloc, named(alloc, text)?, emit)?;
    Ok(Listed::from_vec(with_metadata(alloc, names, emit)?))
}
