//! The sources that a text on dependencies names.

ghost use Rattle.std.specs.Prelude.{◌≡◌, ◌↔◌, None, IfOk, IfSome, IsErrOf, IsPermutation, map};
ghost use Rattle.std.specs.List.Sorted.{IsSorted};
ghost use Rattle.std.specs.Option.{option_copied};
ghost use Rattle.base_files.specs.Path.{join, path_cmp};
ghost use Rattle.rustc_texts.specs.DepInfo.{after_colon, names_in, rule_of, sources_of};
ghost use Rattle.rustc_texts.specs.declared.fault.TextFault.TheVariants.{NoRule};

use crate::fault::TextFault;
use base_files::{Listed, OsBytes, compare_paths, join, paths_have_one_order};
use std::alloc::{AllocError, Global};
use std::mem;

/// What comes after the first `: ` of a line.
pub(crate) fn after_colon(line: &[u8]) -> Option<&[u8]>
    ensures { option_copied result ≡ after_colon line.now }
{
    let mut rest = line;
    while let Some((_, after)) = rest.split_first() {
        if let Some(rule) = rest.strip_prefix(b": ") {
            return Some(rule);
        }
        rest = after;
    }
    None
}

/// The rule with which a text starts: what comes after the first `: ` of its first line.
fn rule_of(text: &str) -> Option<&[u8]>
    ensures { option_copied result ≡ rule_of text.now }
{
    after_colon(text.lines().next()?.as_bytes())
}

/// The names of a rule: a space ends one, `\ ` is a space within one, and a last one that is empty is none.
fn names_in(alloc: Global, rule: &[u8]) -> Result<Vec<OsBytes>, AllocError>
    ensures { IfOk result (λ names. names.items ≡ names_in rule.now) }
{
    let mut names = Vec::new(alloc);
    let mut name = Vec::new(alloc);
    let mut rest = rule;
    while let Some((byte, after)) = rest.split_first() {
        if let Some(later) = rest.strip_prefix(b"\\ ") {
            name.push(b' ')?;
            rest = later;
        } else if *byte == b' ' {
            names.push(OsBytes::from_vec(mem::replace(&mut name, Vec::new(alloc))))?;
            rest = after;
        } else {
            name.push(*byte)?;
            rest = after;
        }
    }
    if !name.is_empty() {
        names.push(OsBytes::from_vec(name))?;
    }
    Ok(names)
}

/// The names as read from the directory.
fn join_names(alloc: Global, dir: &[u8], names: &[OsBytes]) -> Result<Vec<OsBytes>, AllocError>
    ensures { IfOk result (λ paths. paths.items ≡ map (join dir.now) names.now) }
{
    let mut paths = Vec::with_capacity(alloc, names.len())?;
    for name in names {
        paths.push(join(alloc, dir, name.as_bytes())?)?;
    }
    Ok(paths)
}

/// The paths in order.
fn in_order(paths: Vec<OsBytes>) -> Listed<OsBytes>
    ensures same { IsPermutation paths.items result }
    ensures sorted { IsSorted path_cmp result }
{
    // A law, which costs nothing: what follows from it is said above.
    paths_have_one_order();
    let mut paths = paths;
    paths.sort_unstable_by(|left, right| compare_paths(left.as_bytes(), right.as_bytes()));
    Listed::from_vec(paths)
}

/// The sources that a text on dependencies names, in order: those of the rule with which it starts, each as read from the directory.
pub fn parse_dep_info(alloc: Global, text: &str, dir: &[u8]) -> Result<Listed<OsBytes>, TextFault>
    ensures same { IfOk result (λ paths.
        IfSome (sources_of dir.now text.now) (λ sources. IsPermutation sources paths)) }
    ensures sorted { IfOk result (λ paths. IsSorted path_cmp paths) }
    ensures no_rule { IsErrOf result NoRule ↔ (sources_of dir.now text.now ≡ None) }
{
    let rule = rule_of(text).ok_or(TextFault::NoRule)?;
    let names = names_in(alloc, rule)?;
    Ok(in_order(join_names(alloc, dir, names.as_slice())?))
}
