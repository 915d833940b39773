//! The orders of the variables of a key.

ghost use Rattle.std.specs.Prelude.{◌≡◌, ◌↔◌, true};
ghost use Rattle.std.specs.List.Sorted.{IsSorted};
ghost use Rattle.rustc_parts.specs.Formed.{IsSortedByNames};
ghost use Rattle.rustc_parts.specs.Orders.{env_dep_cmp, pair_cmp};

use crate::parts::{EnvDep, Parts};
use base_files::OsBytes;
use std::cmp::Ordering;

/// Whether a variable that a source names comes before another one: by name, one that isn't set before those that are, and by value.
pub fn compare_env_deps(left: &EnvDep, right: &EnvDep) -> Ordering
    ensures { result ≡ env_dep_cmp left.now right.now }
{
    left.name
        .cmp(&right.name)
        .then_with(|| left.value.cmp(&right.value))
}

/// Whether a variable with a value comes before another one: by name, and by value.
pub fn compare_pairs(left: &(OsBytes, OsBytes), right: &(OsBytes, OsBytes)) -> Ordering
    ensures { result ≡ pair_cmp left.now right.now }
{
    left.0.cmp(&right.0).then_with(|| left.1.cmp(&right.1))
}

/// Whether none is less than the one before it.
fn env_deps_are_sorted(deps: &[EnvDep]) -> bool
    ensures { (result ≡ true) ↔ IsSorted env_dep_cmp deps.now }
{
    for i in 1..deps.len() {
        if compare_env_deps(&deps[i], &deps[i - 1]) == Ordering::Less {
            return false;
        }
    }
    true
}

/// Whether none is less than the one before it.
fn pairs_are_sorted(pairs: &[(OsBytes, OsBytes)]) -> bool
    ensures { (result ≡ true) ↔ IsSorted pair_cmp pairs.now }
{
    for i in 1..pairs.len() {
        if compare_pairs(&pairs[i], &pairs[i - 1]) == Ordering::Less {
            return false;
        }
    }
    true
}

/// Whether the variables are in order.
pub(crate) fn is_sorted_by_names(parts: &Parts) -> bool
    ensures { (result ≡ true) ↔ IsSortedByNames parts.now }
{
    env_deps_are_sorted(parts.env_deps.as_slice()) && pairs_are_sorted(parts.variables.as_slice())
}
