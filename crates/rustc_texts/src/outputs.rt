//! Where what a request writes goes.

ghost use Rattle.std.specs.Prelude.{◌≡◌, ◌++◌, IfOk, map};
ghost use Rattle.std.specs.Option.{option_copied, option_to_list};
ghost use Rattle.base_files.specs.Path.{join};
ghost use Rattle.rustc_options.specs.Asks.{asks_in};
ghost use Rattle.rustc_texts.specs.Outputs.{demanded, is_there, optional, optional_if, outputs_with, targets_with, with_optional};

use base_files::{Listed, OsBytes, join};
use cmdlines_base::ArtifactDescriptor;
use rustc_options::parsed::ParsedArguments;
use std::alloc::{AllocError, Global};

/// An output: its name, and where it goes.
pub type Output = (OsBytes, ArtifactDescriptor);

/// Outputs in that folder, which have to be written.
fn demanded(alloc: Global, folder: &[u8], names: &[OsBytes]) -> Result<Vec<Output>, AllocError>
    ensures { IfOk result (λ outputs. outputs.items ≡ map (demanded folder.now) names.now) }
{
    let mut outputs = Vec::with_capacity(alloc, names.len())?;
    for name in names {
        let path = join(alloc, folder, name.as_bytes())?;
        let optional = false;
        outputs.push((name.clone()?, ArtifactDescriptor { path, optional }))?;
    }
    Ok(outputs)
}

/// Whether one of the outputs has that name.
fn is_there(outputs: &[Output], name: &[u8]) -> bool
    ensures { result ≡ is_there outputs.now name.now }
{
    outputs.iter().any(|output| name == output.0.as_bytes())
}

/// The outputs, of which those of that name may be left out.
fn optional_where(
    alloc: Global,
    outputs: Vec<Output>,
    name: &[u8],
) -> Result<Vec<Output>, AllocError>
    ensures { IfOk result (λ made. made.items ≡ map (optional_if name.now) outputs.items) }
{
    let mut made = Vec::with_capacity(alloc, outputs.len())?;
    for (own, descriptor) in outputs {
        let optional = descriptor.optional || name == own.as_bytes();
        let path = descriptor.path;
        made.push((own, ArtifactDescriptor { path, optional }))?;
    }
    Ok(made)
}

/// The outputs with one more that may be left out: in its place where it's there, and else at the end.
fn with_optional(
    alloc: Global,
    folder: &[u8],
    outputs: Vec<Output>,
    name: Option<&OsBytes>,
) -> Result<Vec<Output>, AllocError>
    ensures { IfOk result
        (λ made. made.items
        ≡ with_optional folder.now outputs.items (option_copied name.entry)) }
{
    let Some(name) = name else {
        return Ok(outputs);
    };
    if is_there(outputs.as_slice(), name.as_bytes()) {
        return optional_where(alloc, outputs, name.as_bytes());
    }
    let path = join(alloc, folder, name.as_bytes())?;
    let optional = true;
    let mut outputs = outputs;
    outputs.push((name.clone()?, ArtifactDescriptor { path, optional }))?;
    Ok(outputs)
}

/// The outputs of a request that writes these names: each in the folder of its outputs, and then the profile and the file of notes,
/// which a compile may leave out; one of these that is among the names may be left out in its place.
pub fn outputs(
    alloc: Global,
    parsed: &ParsedArguments,
    names: &[OsBytes],
) -> Result<Listed<Output>, AllocError>
    ensures { IfOk result (λ outputs. outputs ≡ outputs_with (asks_in parsed.now) names.now) }
{
    let folder = parsed.output_dir.as_bytes();
    let demanded = demanded(alloc, folder, names)?;
    let profiled = with_optional(alloc, folder, demanded, parsed.profile.as_ref())?;
    let noted = with_optional(alloc, folder, profiled, parsed.gcno.as_ref())?;
    Ok(Listed::from_vec(noted))
}

/// The path of the text on dependencies, where one is written.
fn dep_info_path(alloc: Global, parsed: &ParsedArguments) -> Result<Vec<OsBytes>, AllocError>
    ensures { IfOk result
        (λ paths. paths.items
        ≡ map (join parsed.now.output_dir) (option_to_list parsed.now.dep_info)) }
{
    let mut paths = Vec::new(alloc);
    if let Some(name) = &parsed.dep_info {
        paths.push(join(alloc, parsed.output_dir.as_bytes(), name.as_bytes())?)?;
    }
    Ok(paths)
}

/// The targets of the text on dependencies of a request that writes these names: the path of that text, and those of the names; the
/// profile and the file of notes are none.
pub fn targets(
    alloc: Global,
    parsed: &ParsedArguments,
    names: &[OsBytes],
) -> Result<Listed<OsBytes>, AllocError>
    ensures { IfOk result (λ targets. targets ≡ targets_with (asks_in parsed.now) names.now) }
{
    let mut paths = dep_info_path(alloc, parsed)?;
    for name in names {
        paths.push(join(alloc, parsed.output_dir.as_bytes(), name.as_bytes())?)?;
    }
    Ok(Listed::from_vec(paths))
}
