//! The pieces of which the parts of a request to a C compiler are made.

ghost use Rattle.std.specs.Prelude.{◌≡◌, ◌++◌, filter, IfOk};
ghost use Rattle.ckeys_records.specs.Params.{is_cached, stripped_words};
ghost use Rattle.wrap_base.specs.Commands.{traits_of};

use base_files::{Listed, OsBytes};
use ckeys_base::strip_basedirs_from_arg;
use ckeys_records::is_cached;
use std::alloc::{AllocError, Global};
use wrap_base::AnyC;

/// Words without the folders that don't count, after others.
fn with_stripped(
    alloc: Global,
    kept: Vec<OsBytes>,
    words: &[OsBytes],
    folders: &[OsBytes],
) -> Result<Vec<OsBytes>, AllocError>
    ensures { IfOk result (λ all. all.items ≡ kept.items ++ stripped_words folders.now words.now) }
{
    let mut all = kept;
    for word in words {
        let stripped = strip_basedirs_from_arg(alloc, word.as_bytes(), folders)?;
        all.push(OsBytes::from_vec(stripped.into_owned(alloc)?))?;
    }
    Ok(all)
}

/// Two lists of words, one after the other, without the folders that don't count.
pub(crate) fn stripped(
    alloc: Global,
    words: &[OsBytes],
    others: &[OsBytes],
    folders: &[OsBytes],
) -> Result<Listed<OsBytes>, AllocError>
    ensures { IfOk result (λ kept. kept ≡ stripped_words folders.now (words.now ++ others.now)) }
{
    let kept = with_stripped(alloc, Vec::new(alloc), words, folders)?;
    Ok(Listed::from_vec(with_stripped(alloc, kept, others, folders)?))
}

/// Whether a variable counts.
fn counts(variable: &(OsBytes, OsBytes)) -> bool
    ensures { result ≡ is_cached variable.now }
{
    is_cached(variable.0.as_bytes())
}

/// The variables that count.
pub(crate) fn cached_variables(
    alloc: Global,
    variables: &[(OsBytes, OsBytes)],
) -> Result<Listed<(OsBytes, OsBytes)>, AllocError>
    ensures { IfOk result (λ counted. counted ≡ filter is_cached variables.now) }
{
    let mut counted = Vec::new(alloc);
    for variable in variables {
        if counts(variable) {
            counted.push((variable.0.clone()?, variable.1.clone()?))?;
        }
    }
    Ok(Listed::from_vec(counted))
}

/// The digest of a compiler's assembler, where it has one.
pub(crate) fn assembler_of(alloc: Global, compiler: AnyC<'_>) -> Result<Option<OsBytes>, AllocError>
    ensures { IfOk result (λ digest. digest ≡ (traits_of compiler.entry).assembler_digest) }
{
    match compiler.found.assembler_digest() {
        Some(digest) => Ok(Some(OsBytes::from_slice(alloc, digest.as_bytes())?)),
        None => Ok(None),
    }
}
