//! What the scripted rustc makes of a crate.

ghost use Rattle.std.specs.Prelude.{◌≡◌, ℤ, IfOk, IsErrOf};
ghost use Rattle.base_files.specs.Bytes.{ticked};
ghost use Rattle.ckeys_records.specs.Meaning.{made_of, names_of, scene_of};
ghost use Rattle.sccache_script_tool.specs.ScriptedCrates.{compiled_crate, crate_text, joined_contents, made_of_text, made_where, told_sources};

use crate::scripting::made_nothing;
use crate::statuses::Statuses;
use base_files::{FileFail, Files, Listed, OsBytes, paths_have_one_order};
use cmdlines_base::{ArtifactDescriptor, SingleCompileCommand};
use rustc_texts::{TextFault, parse_dep_info};
use std::alloc::{AllocError, Global};
use wrap_base::Compiled;

/// The sources that a text on dependencies names, in order: none where it isn't UTF-8 or begins with no rule.
fn told_sources(
    alloc: Global,
    dir: &[u8],
    text: &[u8],
) -> Result<Option<Listed<OsBytes>>, AllocError>
    ensures { IfOk result (λ sources. sources ≡ told_sources dir.now text.now) }
{
    // A law, which costs nothing: what follows from it is said above.
    paths_have_one_order();
    let Ok(text) = str::from_utf8(text) else {
        return Ok(None);
    };
    match parse_dep_info(alloc, text, dir) {
        Ok(sources) => Ok(Some(sources)),
        Err(TextFault::NoRule) => Ok(None),
        Err(TextFault::Memory) => Err(AllocError),
    }
}

/// The contents of files in a row, where all of them are there.
fn joined_contents<F: Files>(
    alloc: Global,
    paths: &[OsBytes],
    files: &mut F,
) -> Result<Option<OsBytes>, FileFail>
    ensures text { IfOk result (λ text. text ≡ joined_contents (F.tree files.old) paths.now) }
    ensures tree { F.tree files.new ≡ F.tree files.old }
    ensures device { IsErrOf result FileFail.Device
        → F.failed files.new ≡ ticked (F.failed files.old) }
    ensures steady { (IsErrOf result FileFail.Device → ⊥) → F.failed files.new ≡ F.failed files.old }
{
    let mut text = Vec::new(alloc);
    let mut rest = paths;
    while let Some((path, others)) = rest.split_first() {
        let Some(contents) = files.read(alloc, path)? else {
            return Ok(None);
        };
        text.extend_from_slice(contents.as_bytes())?;
        rest = others;
    }
    Ok(Some(OsBytes::from_vec(text)))
}

/// The text of the crate that a command compiles, by what rustc reports of what it depends on.
pub fn crate_text<F: Files>(
    alloc: Global,
    dep_info: &OsBytes,
    command: &SingleCompileCommand,
    files: &mut F,
) -> Result<Option<OsBytes>, FileFail>
    ensures text { (moment : ℤ)
        → IfOk result
        (λ text. text
        ≡ crate_text dep_info.now (scene_of command.now (F.tree files.old) moment)) }
    ensures tree { F.tree files.new ≡ F.tree files.old }
    ensures device { IsErrOf result FileFail.Device
        → F.failed files.new ≡ ticked (F.failed files.old) }
    ensures steady { (IsErrOf result FileFail.Device → ⊥) → F.failed files.new ≡ F.failed files.old }
{
    let Some(sources) = told_sources(alloc, command.cwd.as_bytes(), dep_info.as_bytes())? else {
        return Ok(None);
    };
    joined_contents(alloc, sources.as_slice(), files)
}

/// What is made of an output that is optional or not.
fn made_where(optional: bool, text: &OsBytes) -> Result<Option<OsBytes>, AllocError>
    ensures { IfOk result (λ made. made ≡ made_where optional text.now) }
{
    if optional {
        Ok(None)
    } else {
        Ok(Some(text.clone()?))
    }
}

/// What is made of each output.
fn made(
    alloc: Global,
    text: &OsBytes,
    outputs: &[(OsBytes, ArtifactDescriptor)],
) -> Result<Listed<Option<OsBytes>>, AllocError>
    ensures { IfOk result (λ files. files ≡ made_of_text text.now (names_of outputs.now)) }
{
    let mut files = Vec::with_capacity(alloc, outputs.len())?;
    for output in outputs {
        files.push(made_where(output.1.optional, text)?)?;
    }
    Ok(Listed::from_vec(files))
}

/// What rustc makes of a crate's text.
pub fn compiled_crate(
    alloc: Global,
    statuses: &Statuses,
    text: Option<OsBytes>,
    outputs: &[(OsBytes, ArtifactDescriptor)],
) -> Result<Compiled, AllocError>
    ensures { IfOk result
        (λ made. made_of made.status made.contents ≡ compiled_crate text (names_of outputs.now)) }
{
    let Some(text) = text else {
        return Ok(made_nothing(alloc, 1));
    };
    let status = statuses.of_compile(text.as_bytes());
    if status != 0 {
        return Ok(made_nothing(alloc, status));
    }
    Ok(Compiled {
        status,
        contents: made(alloc, &text, outputs)?,
    })
}
