//! Static libraries, where they lie.

ghost use Rattle.std.specs.Prelude.{◌≡◌, ◌++◌, IfOk, IfErr, IsErrOf, OnOk, find, map, filter_map};
ghost use Rattle.std.specs.List.{Contains, flat_map};
ghost use Rattle.base_files.specs.Path.{join};
ghost use Rattle.base_files.specs.Tree.{exists_at};
ghost use Rattle.base_files.specs.Views.{FilesFail};
ghost use Rattle.cmdlines_response_files.specs.Causes.{CauseOf};
ghost use Rattle.rustkeys_base.specs.Requests.{library_names, library_in, library_paths};

use base_files::{FileFail, Files, Listed, OsBytes, join};
use cmdlines_response_files::ParseFault;
use std::alloc::{AllocError, Global};

/// Paths in that directory.
pub(crate) fn join_paths(
    alloc: Global,
    dir: &OsBytes,
    paths: &[OsBytes],
) -> Result<Listed<OsBytes>, AllocError>
    ensures { IfOk result (λ list. list ≡ map (join dir.now) paths.now) }
{
    let mut list = Vec::with_capacity(alloc, paths.len())?;
    for path in paths {
        list.push(join(alloc, dir.as_bytes(), path.as_bytes())?)?;
    }
    Ok(Listed::from_vec(list))
}

/// A file name of these three parts.
fn file_name(
    alloc: Global,
    before: &[u8],
    name: &OsBytes,
    after: &[u8],
) -> Result<OsBytes, AllocError>
    ensures { IfOk result (λ joined. joined ≡ before.now ++ (name.now ++ after.now)) }
{
    let mut text = Vec::from_slice(alloc, before)?;
    text.extend_from_slice(name.as_bytes())?;
    text.extend_from_slice(after)?;
    Ok(OsBytes::from_vec(text))
}

/// The file names that a static library may have.
fn library_names(alloc: Global, name: &OsBytes) -> Result<Listed<OsBytes>, AllocError>
    ensures { IfOk result (λ names. names ≡ library_names name.now) }
{
    let mut names = Listed::new(alloc);
    names.push(file_name(alloc, b"lib", name, b".a")?)?;
    names.push(file_name(alloc, b"", name, b".lib")?)?;
    names.push(file_name(alloc, b"", name, b".a")?)?;
    Ok(names)
}

/// Whether anything is there.
fn exists<F: Files>(alloc: Global, path: &OsBytes, files: &mut F) -> Result<bool, ParseFault>
    ensures answer { IfOk result (λ is_there. is_there ≡ exists_at (F.tree files.old) path.now) }
    ensures cause { IfErr result (CauseOf (FilesFail F.Files files.old files.new)) }
    ensures asked { IfErr result (CauseOf (λ name. path.now ≡ name)) }
    ensures tree { F.tree files.new ≡ F.tree files.old }
    ensures steady { OnOk result (F.failed files.new ≡ F.failed files.old) }
    ensures memory { IsErrOf result ParseFault.Memory → F.failed files.new ≡ F.failed files.old }
{
    // The copy is made first, so that out of memory is never returned in place of an I/O error.
    let path = path.clone()?;
    match files.exists(alloc, &path) {
        Ok(is_there) => Ok(is_there),
        Err(FileFail::Memory) => Err(ParseFault::Memory),
        Err(FileFail::Device) => Err(ParseFault::Read(path)),
    }
}

/// The first of these paths that is there.
fn first_there<F: Files>(
    alloc: Global,
    paths: &[OsBytes],
    files: &mut F,
) -> Result<Option<OsBytes>, ParseFault>
    ensures answer { IfOk result (λ found. found ≡ find (exists_at (F.tree files.old)) paths.now) }
    ensures cause { IfErr result (CauseOf (FilesFail F.Files files.old files.new)) }
    ensures asked { IfErr result (CauseOf (Contains paths.now)) }
    ensures tree { F.tree files.new ≡ F.tree files.old }
    ensures steady { OnOk result (F.failed files.new ≡ F.failed files.old) }
    ensures memory { IsErrOf result ParseFault.Memory → F.failed files.new ≡ F.failed files.old }
{
    let mut rest = paths;
    while let Some((path, more)) = rest.split_first() {
        if exists(alloc, path, files)? {
            return Ok(Some(path.clone()?));
        }
        rest = more;
    }
    Ok(None)
}

/// The static library of that name, in the first of the folders that has it.
fn library_in<F: Files>(
    alloc: Global,
    folders: &[OsBytes],
    name: &OsBytes,
    files: &mut F,
) -> Result<Option<OsBytes>, ParseFault>
    ensures answer { IfOk result
        (λ found. found ≡ library_in (F.tree files.old) folders.now name.now) }
    ensures cause { IfErr result (CauseOf (FilesFail F.Files files.old files.new)) }
    ensures asked { IfErr result (CauseOf (Contains (library_paths folders.now name.now))) }
    ensures tree { F.tree files.new ≡ F.tree files.old }
    ensures steady { OnOk result (F.failed files.new ≡ F.failed files.old) }
    ensures memory { IsErrOf result ParseFault.Memory → F.failed files.new ≡ F.failed files.old }
{
    let names = library_names(alloc, name)?;
    let mut rest = folders;
    while let Some((folder, more)) = rest.split_first() {
        let paths = join_paths(alloc, folder, names.as_slice())?;
        if let Some(path) = first_there(alloc, paths.as_slice(), files)? {
            return Ok(Some(path));
        }
        rest = more;
    }
    Ok(None)
}

/// The static libraries of these names that are there, in the folders.
pub(crate) fn libraries_in<F: Files>(
    alloc: Global,
    folders: &[OsBytes],
    names: &[OsBytes],
    files: &mut F,
) -> Result<Listed<OsBytes>, ParseFault>
    ensures answer { IfOk result
        (λ found. found ≡ filter_map (library_in (F.tree files.old) folders.now) names.now) }
    ensures cause { IfErr result (CauseOf (FilesFail F.Files files.old files.new)) }
    ensures asked { IfErr result
        (CauseOf (Contains (flat_map (library_paths folders.now) names.now))) }
    ensures tree { F.tree files.new ≡ F.tree files.old }
    ensures steady { OnOk result (F.failed files.new ≡ F.failed files.old) }
    ensures memory { IsErrOf result ParseFault.Memory → F.failed files.new ≡ F.failed files.old }
{
    let mut found = Vec::new(alloc);
    let mut rest = names;
    while let Some((name, more)) = rest.split_first() {
        if let Some(path) = library_in(alloc, folders, name, files)? {
            found.push(path)?;
        }
        rest = more;
    }
    Ok(Listed::from_vec(found))
}
