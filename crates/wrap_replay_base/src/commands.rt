//! Words, paths and outputs of commands: compared with recorded ones, and copied.

ghost use Rattle.std.specs.Prelude.{◌≡◌, true, [], ◌∷◌, Some, IfOk};
ghost use Rattle.wrap_replay_base.specs.Recorded.{paths_in, same_outputs};

use base_files::{Listed, OsBytes};
use ckeys_records::output_name::OutputName;
use cmdlines_base::ArtifactDescriptor;
use cmdlines_tables::CCompilerKind;
use std::alloc::{AllocError, Global};
use wrap_base::Compiled;

/// Copies of words.
pub(crate) fn copies(alloc: Global, words: &[OsBytes]) -> Result<Listed<OsBytes>, AllocError>
    ensures { IfOk result (λ copy. copy ≡ words.now) }
{
    let mut copy = Vec::with_capacity(alloc, words.len())?;
    for word in words {
        copy.push(word.clone()?)?;
    }
    Ok(Listed::from_vec(copy))
}

/// A copy of the word, alone.
pub(crate) fn one_word(alloc: Global, word: &OsBytes) -> Result<Vec<OsBytes>, AllocError>
    ensures { IfOk result (λ words. words.items ≡ word.now ∷ []) }
{
    Ok(vec![in alloc; word.clone()?]?)
}

/// Copies of the paths of outputs.
pub(crate) fn paths_of(
    alloc: Global,
    outputs: &[(OsBytes, ArtifactDescriptor)],
) -> Result<Listed<OsBytes>, AllocError>
    ensures { IfOk result (λ paths. paths ≡ paths_in outputs.now) }
{
    let mut paths = Vec::with_capacity(alloc, outputs.len())?;
    for output in outputs {
        paths.push(output.1.path.clone()?)?;
    }
    Ok(Listed::from_vec(paths))
}

/// A copy of contents, where there are some.
fn contents_again(contents: &Option<OsBytes>) -> Result<Option<OsBytes>, AllocError>
    ensures { IfOk result (λ copy. copy ≡ contents.now) }
{
    match contents {
        Some(contents) => Ok(Some(contents.clone()?)),
        None => Ok(None),
    }
}

/// A copy of what was made.
pub(crate) fn made_again(alloc: Global, made: &Compiled) -> Result<Compiled, AllocError>
    ensures { IfOk result (λ copy. copy ≡ made.now) }
{
    let mut contents = Listed::new(alloc);
    for made_one in made.contents.as_slice() {
        contents.push(contents_again(made_one)?)?;
    }
    Ok(Compiled {
        status: made.status,
        contents,
    })
}

/// Whether they are the same words.
pub(crate) fn same_words(words: &Listed<OsBytes>, other: &Listed<OsBytes>) -> bool
    ensures same { result ≡ true → words.now ≡ other.now }
    ensures own { words.now ≡ other.now → result ≡ true }
{
    *words == *other
}

/// Whether they are the same bytes.
pub(crate) fn same_bytes(bytes: &OsBytes, other: &OsBytes) -> bool
    ensures same { result ≡ true → bytes.now ≡ other.now }
    ensures own { bytes.now ≡ other.now → result ≡ true }
{
    *bytes == *other
}

/// Whether it is the C compiler of that kind, and not rustc.
pub(crate) fn is_of(kind: Option<CCompilerKind>, own: CCompilerKind) -> bool
    ensures same { result ≡ true → kind ≡ Some own }
    ensures own { kind ≡ Some own → result ≡ true }
{
    match kind {
        Some(kind) => kind == own,
        None => false,
    }
}

/// Whether the outputs have these names, with their marks.
pub(crate) fn have_names(outputs: &[(OsBytes, ArtifactDescriptor)], names: &[OutputName]) -> bool
    ensures { result ≡ same_outputs outputs.now names.now }
{
    let mut outputs = outputs;
    let mut names = names;
    while let Some((output, outputs_after)) = outputs.split_first() {
        let Some((name, names_after)) = names.split_first() else {
            return false;
        };
        if output.0 != name.name || output.1.optional != name.optional {
            return false;
        }
        outputs = outputs_after;
        names = names_after;
    }
    names.is_empty()
}
