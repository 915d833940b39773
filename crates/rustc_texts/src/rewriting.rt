//! A text on dependencies, rewritten for the targets of another request.

ghost use Rattle.std.specs.Prelude.{◌≡◌, ◌↔◌, ◌++◌, None, Some, IfOk, OnOk, IsErrOf, map};
ghost use Rattle.std.specs.List.{after_first, before_first, flat_map, join_with_byte};
ghost use Rattle.std.specs.Str.{byte};
ghost use Rattle.rustc_texts.specs.Rewriting.{escaped, is_line_end, phony_rule, rewritten_of, rule_for, where_any, without_line_end};
ghost use Rattle.rustc_texts.specs.declared.fault.TextFault.TheVariants.{NoRule};

use crate::dep_info::after_colon;
use crate::fault::TextFault;
use base_files::OsBytes;
use std::alloc::{AllocError, Global};

/// The first line, and what comes after it.
fn first_line(text: &str) -> (&[u8], &[u8])
    ensures line { result.0.now ≡ before_first is_line_end text.now }
    ensures rest { result.1.now ≡ after_first is_line_end text.now }
{
    match text.split_once('\n') {
        None => (text.as_bytes(), b""),
        Some((line, rest)) => (line.as_bytes(), rest.as_bytes()),
    }
}

/// A path as a prerequisite, each space with a backslash before it.
fn escaped(alloc: Global, path: &[u8]) -> Result<OsBytes, AllocError>
    ensures { IfOk result (λ written. written ≡ escaped path.now) }
{
    let mut written = Vec::with_capacity(alloc, path.len())?;
    for byte in path {
        if *byte == b' ' {
            written.push(b'\\')?;
        }
        written.push(*byte)?;
    }
    Ok(OsBytes::from_vec(written))
}

/// The paths as prerequisites.
fn all_escaped(alloc: Global, paths: &[OsBytes]) -> Result<Vec<OsBytes>, AllocError>
    ensures { IfOk result (λ all. all.items ≡ map escaped paths.now) }
{
    let mut all = Vec::with_capacity(alloc, paths.len())?;
    for path in paths {
        all.push(escaped(alloc, path.as_bytes())?)?;
    }
    Ok(all)
}

/// The pieces with a space between each two.
fn joined_by_spaces(alloc: Global, pieces: &[OsBytes]) -> Result<Vec<u8>, AllocError>
    ensures { IfOk result (λ joined. joined.items ≡ join_with_byte (byte " ") pieces.now) }
{
    let Some((first, later)) = pieces.split_first() else {
        return Ok(Vec::new(alloc));
    };
    let mut joined = Vec::from_slice(alloc, first.as_bytes())?;
    for piece in later {
        joined.push(b' ')?;
        joined.extend_from_slice(piece.as_bytes())?;
    }
    Ok(joined)
}

/// Writes the rule of each target.
fn write_rules(written: &mut Vec<u8>, targets: &[OsBytes], wanted: &[u8]) -> Result<(), AllocError>
    ensures { OnOk result
        (written.new.items ≡ written.old.items
        ++ flat_map (rule_for wanted.now) targets.now) }
{
    for target in targets {
        written.extend_from_slice(target.as_bytes())?;
        written.extend_from_slice(b": ")?;
        written.extend_from_slice(wanted)?;
        written.extend_from_slice(b"\n\n")?;
    }
    Ok(())
}

/// Writes the rule of each path that depends on nothing.
fn write_phony_rules(written: &mut Vec<u8>, paths: &[OsBytes]) -> Result<(), AllocError>
    ensures { OnOk result
        (written.new.items ≡ written.old.items ++ flat_map phony_rule paths.now) }
{
    for path in paths {
        written.extend_from_slice(path.as_bytes())?;
        written.extend_from_slice(b":\n")?;
    }
    Ok(())
}

/// The text less one line end with which it begins.
fn without_line_end(text: &[u8]) -> &[u8]
    ensures { result.now ≡ without_line_end text.now }
{
    text.strip_prefix(b"\n").unwrap_or(text)
}

/// The prerequisites of each target: the extra ones, which are escaped, and those of the text, where it names any.
fn prerequisites(alloc: Global, old: &[u8], escaped: &[OsBytes]) -> Result<OsBytes, AllocError>
    ensures { IfOk result
        (λ joined. joined ≡ join_with_byte (byte " ") (escaped.now ++ where_any old.now)) }
{
    let mut joined = joined_by_spaces(alloc, escaped)?;
    if old.is_empty() {
        return Ok(OsBytes::from_vec(joined));
    }
    if !escaped.is_empty() {
        joined.push(b' ')?;
    }
    joined.extend_from_slice(old)?;
    Ok(OsBytes::from_vec(joined))
}

/// The text on dependencies for these targets: in the place of its first rule, one for each target, with the extra prerequisites
/// before the old ones; then a rule for each extra prerequisite, and what comes after the first line, less a line end.
pub fn dep_info_with_targets(
    alloc: Global,
    text: &str,
    targets: &[OsBytes],
    extras: &[OsBytes],
) -> Result<OsBytes, TextFault>
    ensures written { IfOk result
        (λ written. rewritten_of text.now targets.now extras.now ≡ Some written) }
    ensures no_rule { IsErrOf result NoRule
        ↔ (rewritten_of text.now targets.now extras.now ≡ None) }
{
    let (line, rest) = first_line(text);
    let old = after_colon(line).ok_or(TextFault::NoRule)?;
    let extras = all_escaped(alloc, extras)?;
    let wanted = prerequisites(alloc, old, extras.as_slice())?;
    let mut written = Vec::new(alloc);
    write_rules(&mut written, targets, wanted.as_bytes())?;
    write_phony_rules(&mut written, extras.as_slice())?;
    written.extend_from_slice(without_line_end(rest))?;
    Ok(OsBytes::from_vec(written))
}
