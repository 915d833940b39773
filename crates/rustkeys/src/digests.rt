//! The digests of files that a key needs: they are there, or there is no key.

ghost use Rattle.std.specs.Prelude.{◌≡◌, None, [], ◌∷◌, map, IfOk, IfErr, OnOk};
ghost use Rattle.std.specs.Option.{option_map, option_to_list};
ghost use Rattle.base_files.specs.Path.{join};
ghost use Rattle.base_files.specs.Views.{FilesFail};
ghost use Rattle.ckeys_records.specs.Faults.{FileCause, first_missing};
ghost use Rattle.ckeys_records.specs.Untouched.{FilesUntouched};
ghost use Rattle.ckeys_include_records.specs.Surroundings.{contents_in};
ghost use Rattle.rustkeys.specs.Records.{digest_text};

use base_files::{FileFail, Files, Listed, OsBytes, join};
use ckeys_base::{Digest, HashState};
use ckeys_records::Fault;
use std::alloc::{AllocError, Global};

/// The paths as read from the directory.
pub(crate) fn join_paths(
    alloc: Global,
    dir: &OsBytes,
    paths: &[OsBytes],
) -> Result<Listed<OsBytes>, AllocError>
    ensures { IfOk result (λ list. list ≡ map (join dir.now) paths.now) }
{
    let mut list = Vec::with_capacity(alloc, paths.len())?;
    for path in paths {
        list.push(join(alloc, dir.as_bytes(), path.as_bytes())?)?;
    }
    Ok(Listed::from_vec(list))
}

/// The digest of a file that is needed.
fn needed_digest<H: HashState, F: Files>(
    alloc: Global,
    path: &OsBytes,
    files: &mut F,
) -> Result<OsBytes, Fault>
    ensures digest { IfOk result
        (λ digest. digest ≡ digest_text H.digest_of (contents_in (F.tree files.old) path.now)) }
    ensures there { OnOk result (first_missing (F.tree files.old) (path.now ∷ []) ≡ None) }
    ensures cause { IfErr result
        (FileCause (first_missing (F.tree files.old) (path.now ∷ []))
        (FilesFail F.Files files.old files.new)) }
    ensures untouched { FilesUntouched F.Files files.old files.new result }
{
    // The copy is made first, so that out of memory isn't reported as an I/O error.
    let path = path.clone()?;
    match Digest::<H>::file(alloc, &path, files) {
        Ok(Some(digest)) => Ok(OsBytes::from_vec(digest.into_bytes())),
        Ok(None) | Err(FileFail::Device) => Err(Fault::Read(path)),
        Err(FileFail::Memory) => Err(Fault::Memory),
    }
}

/// The digests of files that are needed, in order.
pub(crate) fn needed_digests<H: HashState, F: Files>(
    alloc: Global,
    paths: &[OsBytes],
    files: &mut F,
) -> Result<Listed<OsBytes>, Fault>
    ensures digests { let contents = map (contents_in (F.tree files.old)) paths.now in
        IfOk result (λ digests. digests ≡ map (digest_text H.digest_of) contents) }
    ensures there { OnOk result (first_missing (F.tree files.old) paths.now ≡ None) }
    ensures cause { IfErr result
        (FileCause (first_missing (F.tree files.old) paths.now)
        (FilesFail F.Files files.old files.new)) }
    ensures untouched { FilesUntouched F.Files files.old files.new result }
{
    let mut digests = Listed::new(alloc);
    let mut rest = paths;
    while let Some((path, others)) = rest.split_first() {
        digests.push(needed_digest::<H, F>(alloc, path, files)?)?;
        rest = others;
    }
    Ok(digests)
}

/// The digests of the files of these names, which are read from that directory, in order.
pub(crate) fn needed_in<H: HashState, F: Files>(
    alloc: Global,
    dir: &OsBytes,
    names: &[OsBytes],
    files: &mut F,
) -> Result<Listed<OsBytes>, Fault>
    ensures digests { let contents = map (contents_in (F.tree files.old))
        (map (join dir.now) names.now) in
        IfOk result (λ digests. digests ≡ map (digest_text H.digest_of) contents) }
    ensures there { OnOk result
        (first_missing (F.tree files.old) (map (join dir.now) names.now) ≡ None) }
    ensures cause { IfErr result
        (FileCause (first_missing (F.tree files.old) (map (join dir.now) names.now))
        (FilesFail F.Files files.old files.new)) }
    ensures untouched { FilesUntouched F.Files files.old files.new result }
{
    let paths = join_paths(alloc, dir, names)?;
    needed_digests::<H, F>(alloc, paths.as_slice(), files)
}

/// The digest of a file that may be needed, which is read from that directory.
pub(crate) fn needed_where_named<H: HashState, F: Files>(
    alloc: Global,
    dir: &OsBytes,
    name: &Option<OsBytes>,
    files: &mut F,
) -> Result<Option<OsBytes>, Fault>
    ensures digest { let contents = option_map (contents_in (F.tree files.old))
        (option_map (join dir.now) name.now) in
        IfOk result (λ digest. digest ≡ option_map (digest_text H.digest_of) contents) }
    ensures there { OnOk result
        (first_missing (F.tree files.old) (option_to_list (option_map (join dir.now) name.now))
        ≡ None) }
    ensures cause { IfErr result
        (FileCause
        (first_missing (F.tree files.old) (option_to_list (option_map (join dir.now) name.now)))
        (FilesFail F.Files files.old files.new)) }
    ensures untouched { FilesUntouched F.Files files.old files.new result }
{
    let Some(name) = name else {
        return Ok(None);
    };
    let path = join(alloc, dir.as_bytes(), name.as_bytes())?;
    Ok(Some(needed_digest::<H, F>(alloc, &path, files)?))
}
