//! The texts of the scripted tool, and what it makes of them.

ghost use Rattle.std.specs.Prelude.{◌≡◌, ℤ, [], ◌∷◌, ◌++◌, IfOk, OnOk, IsErrOf, Some, None, if◌then◌else◌, map, codes};
ghost use Rattle.std.specs.Option.{option_map};
ghost use Rattle.base_files.specs.Bytes.{ticked};
ghost use Rattle.cmdlines_tables.specs.Tables.{reading_of};
ghost use Rattle.ckeys_records.specs.Meaning.{names_of, made_of, scene_of};
ghost use Rattle.sccache_script_tool.specs.Lines.{lines};
ghost use Rattle.sccache_script_tool.specs.Scripted.{source_in, marker, inclusion, replaced, text_at, text_of, printed, compiled, without};
ghost use Rattle.sccache_script_tool.specs.Texts.{holds, whole};

use crate::lines::{included, push_with_end, split_line};
use crate::source::{source_of, takes_as_it_stands};
use crate::statuses::Statuses;
use base_files::{FileFail, Files, Listed, OsBytes, join};
use ckeys_base::strip_basedirs;
use ckeys_records::{Printed, Step};
use cmdlines::EachKind;
use cmdlines_base::{ArtifactDescriptor, SingleCompileCommand};
use cmdlines_tables::CCompilerKind;
use memchr::memmem;
use std::alloc::{AllocError, Global};
use wrap_base::Compiled;

/// Adds the line that says which file the lines after it are from.
fn push_marker(path: &[u8], text: &mut Vec<u8>) -> Result<(), AllocError>
    ensures { OnOk result (text.new.items ≡ text.old.items ++ marker path.now) }
{
    text.extend_from_slice(b"# 1 \"")?;
    text.extend_from_slice(path)?;
    text.extend_from_slice(b"\"\n")?;
    Ok(())
}

/// Adds what replaces a line of that path that includes a file.
fn push_inclusion(
    path: &[u8],
    file: &[u8],
    contents: &[u8],
    text: &mut Vec<u8>,
) -> Result<(), AllocError>
    ensures { OnOk result
        (text.new.items ≡ text.old.items ++ inclusion path.now file.now contents.now) }
{
    push_marker(file, text)?;
    push_with_end(contents, text)?;
    push_marker(path, text)
}

/// Adds what replaces a line of that path. Answers whether all that it includes is there.
fn push_line<F: Files>(
    alloc: Global,
    dir: &[u8],
    path: &[u8],
    line: &[u8],
    files: &mut F,
    text: &mut Vec<u8>,
) -> Result<bool, FileFail>
    ensures text { IfOk result
        (λ is_there. (if is_there then Some text.new.items else None)
        ≡ option_map (λ part. text.old.items ++ part)
        (replaced (F.tree files.old) dir.now path.now line.now)) }
    ensures tree { F.tree files.new ≡ F.tree files.old }
    ensures device { IsErrOf result FileFail.Device
        → F.failed files.new ≡ ticked (F.failed files.old) }
    ensures steady { (IsErrOf result FileFail.Device → ⊥) → F.failed files.new ≡ F.failed files.old }
{
    let Some(name) = included(line) else {
        text.extend_from_slice(line)?;
        return Ok(true);
    };
    let file = join(alloc, dir, name)?;
    let Some(contents) = files.read(alloc, &file)? else {
        return Ok(false);
    };
    push_inclusion(path, file.as_bytes(), contents.as_bytes(), text)?;
    Ok(true)
}

/// Adds what replaces each line of the contents of that path. Answers whether all that they include is
/// there.
fn push_lines<F: Files>(
    alloc: Global,
    dir: &[u8],
    path: &[u8],
    contents: &[u8],
    files: &mut F,
    text: &mut Vec<u8>,
) -> Result<bool, FileFail>
    ensures text { IfOk result
        (λ is_there. (if is_there then Some text.new.items else None)
        ≡ option_map (λ part. text.old.items ++ part)
        (whole (map (replaced (F.tree files.old) dir.now path.now) (lines contents.now)))) }
    ensures tree { F.tree files.new ≡ F.tree files.old }
    ensures device { IsErrOf result FileFail.Device
        → F.failed files.new ≡ ticked (F.failed files.old) }
    ensures steady { (IsErrOf result FileFail.Device → ⊥) → F.failed files.new ≡ F.failed files.old }
{
    let mut rest = contents;
    while let Some((line, others)) = split_line(rest) {
        if !push_line(alloc, dir, path, line, files, text)? {
            return Ok(false);
        }
        rest = others;
    }
    Ok(true)
}

/// The text of the file of that path.
fn text_at<F: Files>(
    alloc: Global,
    dir: &[u8],
    path: &OsBytes,
    files: &mut F,
) -> Result<Option<OsBytes>, FileFail>
    ensures text { IfOk result (λ text. text ≡ text_at (F.tree files.old) dir.now path.now) }
    ensures tree { F.tree files.new ≡ F.tree files.old }
    ensures device { IsErrOf result FileFail.Device
        → F.failed files.new ≡ ticked (F.failed files.old) }
    ensures steady { (IsErrOf result FileFail.Device → ⊥) → F.failed files.new ≡ F.failed files.old }
{
    let Some(contents) = files.read(alloc, path)? else {
        return Ok(None);
    };
    let mut text = Vec::new(alloc);
    push_marker(path.as_bytes(), &mut text)?;
    if push_lines(
        alloc,
        dir,
        path.as_bytes(),
        contents.as_bytes(),
        files,
        &mut text,
    )? {
        Ok(Some(OsBytes::from_vec(text)))
    } else {
        Ok(None)
    }
}

/// The text that a step goes over.
pub fn text_of<F: Files>(
    alloc: Global,
    compilers: &EachKind,
    step: Step,
    kind: CCompilerKind,
    command: &SingleCompileCommand,
    files: &mut F,
) -> Result<Option<OsBytes>, FileFail>
    ensures text { (moment : ℤ)
        → IfOk result
        (λ text. text
        ≡ text_of step (scene_of command.now (F.tree files.old) moment)
        (source_in (reading_of kind command.now.arguments))) }
    ensures tree { F.tree files.new ≡ F.tree files.old }
    ensures device { IsErrOf result FileFail.Device
        → F.failed files.new ≡ ticked (F.failed files.old) }
    ensures steady { (IsErrOf result FileFail.Device → ⊥) → F.failed files.new ≡ F.failed files.old }
{
    let source = source_of(alloc, compilers, kind, command.arguments.as_slice())?;
    let Some(input) = &source.input else {
        return Ok(None);
    };
    let dir = command.cwd.as_bytes();
    let path = join(alloc, dir, input.as_bytes())?;
    if takes_as_it_stands(step, source.language.as_ref()) {
        files.read(alloc, &path)
    } else {
        text_at(alloc, dir, &path, files)
    }
}

/// What a preprocessor prints of a text.
pub fn printed(alloc: Global, statuses: &Statuses, text: Option<OsBytes>) -> Printed
    ensures { made_of result.status (Some result.text ∷ []) ≡ printed text }
{
    match text {
        Some(text) => Printed {
            status: statuses.of_print(text.as_bytes()),
            text,
        },
        None => Printed {
            status: 1,
            text: OsBytes::empty(alloc),
        },
    }
}

/// Whether the text holds `#error`.
pub fn holds_error(text: &[u8]) -> bool
    ensures { result ≡ holds (codes "#error") text.now }
{
    memmem::find(text, b"#error").is_some()
}

/// The text for each output.
fn made(
    alloc: Global,
    text: &[u8],
    outputs: &[(OsBytes, ArtifactDescriptor)],
) -> Result<Listed<Option<OsBytes>>, AllocError>
    ensures { IfOk result (λ files. files ≡ map (λ output. Some text.now) (names_of outputs.now)) }
{
    let mut files = Vec::new(alloc);
    for _output in outputs {
        files.push(Some(OsBytes::from_slice(alloc, text)?))?;
    }
    Ok(Listed::from_vec(files))
}

/// What a compiler makes of a text without the folders.
pub fn compiled(
    alloc: Global,
    statuses: &Statuses,
    text: Option<OsBytes>,
    folders: &[OsBytes],
    outputs: &[(OsBytes, ArtifactDescriptor)],
) -> Result<Compiled, AllocError>
    ensures { IfOk result
        (λ result. made_of result.status result.contents
        ≡ compiled (without folders.now text) (names_of outputs.now)) }
{
    let Some(text) = text else {
        return Ok(made_nothing(alloc, 1));
    };
    let left = strip_basedirs(alloc, text.as_bytes(), folders)?;
    let status = statuses.of_compile(&left);
    if status != 0 {
        return Ok(made_nothing(alloc, status));
    }
    Ok(Compiled {
        status,
        contents: made(alloc, &left, outputs)?,
    })
}

/// A compile that ends with that status and makes nothing.
pub fn made_nothing(alloc: Global, status: i32) -> Compiled
    ensures { made_of result.status result.contents ≡ made_of status [] }
{
    Compiled {
        status,
        contents: Listed::from_vec(Vec::new(alloc)),
    }
}
