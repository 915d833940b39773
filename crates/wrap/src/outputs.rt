//! Outputs by name: what a compile made, and where a request wants them.

ghost use Rattle.std.specs.Prelude.{◌≡◌, IfOk, IfErr};
ghost use Rattle.std.specs.Vec.Iter.{into_iter_items};
ghost use Rattle.ckeys_records.specs.Meaning.{names_of};
ghost use Rattle.cmdlines_base.specs.Artifacts.{Artifacts};
ghost use Rattle.wrap_keys.specs.Account.{collected, all, first_file, files_after, path_of, placed};
ghost use Rattle.wrap.specs.PathMap.{HasPaths};
ghost use Rattle.wrap.specs.Steps.{CollectCause};

use base_files::{Listed, OsBytes};
use ckeys_records::Fault;
use cmdlines_base::ArtifactDescriptor;
use std::alloc::{AllocError, Global};
use std::collections::BTreeMap;
use std::vec::IntoIter;
use wrap_base::Output;
use wrap_base::store_key::Pairs;

/// Takes the next file, where there is one and it was made.
fn next_file(rest: &mut IntoIter<Option<OsBytes>>) -> Option<OsBytes>
    ensures file { result ≡ first_file (into_iter_items rest.old) }
    ensures after { into_iter_items rest.new ≡ files_after (into_iter_items rest.old) }
{
    rest.next().flatten()
}

/// Name and contents of each output that was made, in the order in which they were asked for. The first demanded one that
/// wasn't made is a fault.
pub fn collected(
    alloc: Global,
    outputs: &[(OsBytes, ArtifactDescriptor)],
    files: Listed<Option<OsBytes>>,
) -> Result<Pairs, Fault>
    ensures made { IfOk result (λ pairs. collected (names_of outputs.now) files ≡ all pairs) }
    ensures cause { IfErr result (CollectCause (collected (names_of outputs.now) files)) }
{
    let mut pairs = Vec::with_capacity(alloc, outputs.len())?;
    let mut rest = files.into_vec().into_iter();
    for (name, artifact) in outputs {
        match next_file(&mut rest) {
            Some(contents) => pairs.push((name.clone()?, contents))?,
            None => {
                if !artifact.optional {
                    return Err(Fault::MissingOutput(name.clone()?));
                }
            }
        }
    }
    Ok(Listed::from_vec(pairs))
}

/// Where the outputs are wanted, by their names.
fn paths_of<'a>(
    alloc: Global,
    outputs: &'a [(OsBytes, ArtifactDescriptor)],
) -> Result<BTreeMap<OsBytes, &'a [u8]>, AllocError>
    ensures { IfOk result (λ paths. HasPaths paths outputs.now) }
{
    let mut paths = BTreeMap::new(alloc);
    let mut rest = outputs;
    // The first output of a name stands for it, so it comes last.
    while let Some(((name, artifact), before)) = rest.split_last() {
        paths.insert(name.clone()?, artifact.path.as_bytes())?;
        rest = before;
    }
    Ok(paths)
}

/// Where the output of this name is wanted.
fn path_of<'a>(paths: &BTreeMap<OsBytes, &'a [u8]>, name: &OsBytes) -> &'a [u8]
    ensures { (outputs : Artifacts) → HasPaths paths.now outputs
        → result.now ≡ path_of outputs name.now }
{
    match paths.get(name) {
        Some(path) => *path,
        None => &[],
    }
}

/// The output of this name with these contents, on that path.
fn output_at(
    alloc: Global,
    path: &[u8],
    name: &OsBytes,
    contents: &OsBytes,
) -> Result<Output, AllocError>
    ensures { IfOk result
        (λ made. made ≡ record { name = name.now; path = path.now; contents = contents.now }) }
{
    Ok(Output {
        name: name.clone()?,
        path: OsBytes::from_slice(alloc, path)?,
        contents: contents.clone()?,
    })
}

/// Outputs on a request's own paths.
pub fn placed(
    alloc: Global,
    outputs: &[(OsBytes, ArtifactDescriptor)],
    pairs: &[(OsBytes, OsBytes)],
) -> Result<Listed<Output>, AllocError>
    ensures { IfOk result (λ map. map ≡ placed outputs.now pairs.now) }
{
    let paths = paths_of(alloc, outputs)?;
    let mut map = Vec::with_capacity(alloc, pairs.len())?;
    for (name, contents) in pairs {
        map.push(output_at(alloc, path_of(&paths, name), name, contents)?)?;
    }
    Ok(Listed::from_vec(map))
}
