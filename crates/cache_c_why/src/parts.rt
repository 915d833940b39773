//! Of what the key of a compiled call was made, as a session has it and as it lies on a disk.

ghost use Rattle.std.specs.Prelude.{◌≡◌, IfOk};
ghost use Rattle.cache_c_why.specs.Parts.{parts_in};

use base_files::{Listed, OsBytes};
use cache_files::copied_names;
use cache_format::KeptParts;
use std::alloc::{AllocError, Global};
use wrap_fingerprints::CParts;

/// Another list of the same variables.
fn copied_variables(
    alloc: Global,
    variables: &[(OsBytes, OsBytes)],
) -> Result<Listed<(OsBytes, OsBytes)>, AllocError>
    ensures { IfOk result (λ copy. copy ≡ variables.now) }
{
    let mut copy = Listed::new(alloc);
    for variable in variables {
        let name = variable.0.clone()?;
        copy.push((name, variable.1.clone()?))?;
    }
    Ok(copy)
}

/// The parts as they are kept, with what differed.
pub(crate) fn kept_parts(
    alloc: Global,
    parts: &CParts,
    difference: OsBytes,
) -> Result<KeptParts, AllocError>
    // What is read back of them are the same parts.
    ensures parts { IfOk result (λ kept. parts_in kept ≡ parts.now) }
    ensures difference { IfOk result (λ kept. kept.difference ≡ difference) }
{
    Ok(KeptParts {
        compiler: parts.compiler.clone()?,
        plusplus: parts.plusplus,
        language: parts.language,
        words: parts.words.clone()?,
        variables: copied_variables(alloc, parts.variables.as_slice())?,
        extra_hashes: parts.extra_hashes.clone()?,
        assembler: parts.assembler.clone()?,
        text: parts.text.clone()?,
        names: copied_names(alloc, parts.names.as_slice())?,
        difference,
    })
}

/// The parts that are kept so.
pub(crate) fn parts_of(kept: KeptParts) -> CParts
    ensures { result ≡ parts_in kept }
{
    let KeptParts {
        compiler,
        plusplus,
        language,
        words,
        variables,
        extra_hashes,
        assembler,
        text,
        names,
        difference: _,
    } = kept;
    CParts {
        compiler,
        plusplus,
        language,
        words,
        variables,
        extra_hashes,
        assembler,
        text,
        names,
    }
}
