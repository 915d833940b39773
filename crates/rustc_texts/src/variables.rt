//! The variables of a call: those that count in keys, and those with which it's compiled.

ghost use Rattle.std.specs.Prelude.{◌≡◌, IfOk, IsPermutation, filter};
ghost use Rattle.std.specs.List.Sorted.{IsSorted};
ghost use Rattle.rustc_parts.specs.Orders.{pair_cmp};
ghost use Rattle.rustc_texts.specs.Variables.{compiles_with, counts};

use base_files::{Listed, OsBytes};
use rustc_parts::{compare_pairs, variables_have_one_order};
use std::alloc::{AllocError, Global};

/// Whether a variable of this name counts in keys.
fn counts(name: &[u8]) -> bool
    ensures { result ≡ counts name.now }
{
    name.starts_with(b"CARGO_")
        && !name.starts_with(b"CARGO_REGISTRIES_")
        && name != b"CARGO_MAKEFLAGS".as_slice()
        && name != b"CARGO_BUILD_JOBS".as_slice()
        && name != b"CARGO_ENCODED_RUSTFLAGS".as_slice()
}

/// Whether a variable of this name is kept when a request is compiled.
fn compiles_with(name: &[u8]) -> bool
    ensures { result ≡ compiles_with name.now }
{
    name != b"RUSTC_COLOR".as_slice()
}

/// The pairs in order.
fn in_order(pairs: Vec<(OsBytes, OsBytes)>) -> Listed<(OsBytes, OsBytes)>
    ensures same { IsPermutation pairs.items result }
    ensures sorted { IsSorted pair_cmp result }
{
    // A law, which costs nothing: what follows from it is said above.
    variables_have_one_order();
    let mut pairs = pairs;
    pairs.sort_unstable_by(|left, right| compare_pairs(left, right));
    Listed::from_vec(pairs)
}

/// The variables that count in keys: those of cargo but for its registries, its job server, its count of jobs and its flags, by name
/// and value, each as often as it occurs.
pub fn hashed_variables(
    alloc: Global,
    env: &[(OsBytes, OsBytes)],
) -> Result<Listed<(OsBytes, OsBytes)>, AllocError>
    ensures same { IfOk result
        (λ pairs. IsPermutation (filter (λ pair. counts pair.0) env.now) pairs) }
    ensures sorted { IfOk result (λ pairs. IsSorted pair_cmp pairs) }
{
    let mut kept = Vec::new(alloc);
    for pair in env {
        if counts(pair.0.as_bytes()) {
            kept.push((pair.0.clone()?, pair.1.clone()?))?;
        }
    }
    Ok(in_order(kept))
}

/// The variables with which a request is compiled: all but `RUSTC_COLOR`, by name and value, each as often as it occurs.
pub fn compile_env(
    alloc: Global,
    env: &[(OsBytes, OsBytes)],
) -> Result<Listed<(OsBytes, OsBytes)>, AllocError>
    ensures same { IfOk result
        (λ pairs. IsPermutation (filter (λ pair. compiles_with pair.0) env.now) pairs) }
    ensures sorted { IfOk result (λ pairs. IsSorted pair_cmp pairs) }
{
    let mut kept = Vec::new(alloc);
    for pair in env {
        if compiles_with(pair.0.as_bytes()) {
            kept.push((pair.0.clone()?, pair.1.clone()?))?;
        }
    }
    Ok(in_order(kept))
}
