//! Which compiler a name refers to, where that name may lead to the wrapper itself.

ghost use Rattle.std.specs.Prelude.{◌≡◌, IfOk, IsErrOf, map};
ghost use Rattle.std.specs.Option.{option_copied};
ghost use Rattle.base_files.specs.Bytes.{Bytes};
ghost use Rattle.base_files.specs.Views.{FilesFail};
ghost use Rattle.ckeys_base.specs.Wrapper.{resolved, names_wrapper};
ghost use Rattle.ckeys_base.specs.Wrapper as spec;

use base_files::{FileFail, Files, OsBytes, file_name, join};
use std::alloc::{AllocError, Global};

/// The executable, unless the file name of its canonical name is `sccache`. Then the first file of
/// its own file name in a folder of `PATH`, cut at `:`, whose canonical name has another file name,
/// and the executable where there is none. `Memory` when out of memory, and `Device` on an
/// I/O error on a name.
pub fn resolve_compiler_avoiding_wrapper<F: Files>(
    alloc: Global,
    files: &mut F,
    executable: &OsBytes,
    env: &[(OsBytes, OsBytes)],
) -> Result<OsBytes, FileFail>
    ensures answer { IfOk result
        (λ compiler. compiler ≡ resolved (F.tree files.old) executable.now env.now) }
    ensures tree { F.tree files.new ≡ F.tree files.old }
    ensures device { IsErrOf result FileFail.Device
        → (name : Bytes) × FilesFail F.Files files.old files.new name }
    ensures steady { (IsErrOf result FileFail.Device → ⊥) → F.failed files.new ≡ F.failed files.old }
{
    if !is_wrapper(alloc, files, executable)? {
        return Ok(executable.clone()?);
    }
    match first_compiler(alloc, files, executable.as_bytes(), env)? {
        Some(compiler) => Ok(compiler),
        None => Ok(executable.clone()?),
    }
}

/// Whether the file name of the canonical name is the wrapper's.
fn is_wrapper<F: Files>(alloc: Global, files: &mut F, path: &OsBytes) -> Result<bool, FileFail>
    ensures answer { IfOk result (λ found. found ≡ spec.is_wrapper (F.tree files.old) path.now) }
    ensures tree { F.tree files.new ≡ F.tree files.old }
    ensures device { IsErrOf result FileFail.Device
        → FilesFail F.Files files.old files.new path.now }
    ensures steady { (IsErrOf result FileFail.Device → ⊥) → F.failed files.new ≡ F.failed files.old }
{
    let canonical = files.canonical(alloc, path)?;
    Ok(canonical.is_some_and(|name| is_wrapper_name(&name)))
}

/// Whether the file name of this name is the wrapper's.
fn is_wrapper_name(canonical: &OsBytes) -> bool
    ensures { result ≡ names_wrapper canonical.now }
{
    file_name(canonical.as_bytes()) == Some(b"sccache".as_slice())
}

/// Whether a file is there whose canonical name isn't the wrapper's.
fn is_compiler<F: Files>(alloc: Global, files: &mut F, path: &OsBytes) -> Result<bool, FileFail>
    ensures answer { IfOk result (λ found. found ≡ spec.is_compiler (F.tree files.old) path.now) }
    ensures tree { F.tree files.new ≡ F.tree files.old }
    ensures device { IsErrOf result FileFail.Device
        → FilesFail F.Files files.old files.new path.now }
    ensures steady { (IsErrOf result FileFail.Device → ⊥) → F.failed files.new ≡ F.failed files.old }
{
    if !files.is_file(alloc, path)? {
        return Ok(false);
    }
    Ok(!is_wrapper(alloc, files, path)?)
}

/// The first file of the executable's file name in a folder of `PATH` that isn't the wrapper.
fn first_compiler<F: Files>(
    alloc: Global,
    files: &mut F,
    executable: &[u8],
    env: &[(OsBytes, OsBytes)],
) -> Result<Option<OsBytes>, FileFail>
    ensures answer { IfOk result
        (λ found. found ≡ spec.first_compiler (F.tree files.old) executable.now env.now) }
    ensures tree { F.tree files.new ≡ F.tree files.old }
    ensures device { IsErrOf result FileFail.Device
        → (name : Bytes) × FilesFail F.Files files.old files.new name }
    ensures steady { (IsErrOf result FileFail.Device → ⊥) → F.failed files.new ≡ F.failed files.old }
{
    let Some(name) = file_name(executable) else {
        return Ok(None);
    };
    let Some(path) = value_of(env, b"PATH") else {
        return Ok(None);
    };
    let folders = folders_in(alloc, path)?;
    for folder in &folders {
        let candidate = join(alloc, folder, name)?;
        if is_compiler(alloc, files, &candidate)? {
            return Ok(Some(candidate));
        }
    }
    Ok(None)
}

/// The value of the first variable of that name.
fn value_of<'a>(env: &'a [(OsBytes, OsBytes)], name: &[u8]) -> Option<&'a [u8]>
    ensures { option_copied result ≡ spec.value_of env.now name.now }
{
    for (variable, value) in env {
        if name == variable.as_bytes() {
            return Some(value.as_bytes());
        }
    }
    None
}

/// The folders between colons.
fn folders_in(alloc: Global, path: &[u8]) -> Result<Vec<&[u8]>, AllocError>
    ensures { IfOk result
        (λ folders. map (λ folder. folder.now) folders.items ≡ spec.folders_in path.now) }
{
    path.split(|byte| *byte == b':').collect(alloc)
}
