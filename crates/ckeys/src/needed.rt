//! Files that a key needs: they are there, or there is no key.

ghost use Rattle.std.specs.Prelude.{◌≡◌, None, [], ◌∷◌, map, string_bytes, IfOk, IfErr, OnOk};
ghost use Rattle.base_files.specs.Path.{join};
ghost use Rattle.base_files.specs.Views.{FilesFail};
ghost use Rattle.ckeys_base.specs.Hex.{hex_of};
ghost use Rattle.ckeys_include_records.specs.Surroundings.{contents_in};
ghost use Rattle.ckeys_records.specs.Faults.{FileCause, first_missing};
ghost use Rattle.ckeys_records.specs.Untouched.{FilesUntouched};

use base_files::{FileFail, Files, Listed, OsBytes, join};
use ckeys_base::{Digest, HashState};
use ckeys_records::Fault;
use std::alloc::Global;

/// The digest of a file that is needed, which is read from that directory.
fn needed_digest<H: HashState, F: Files>(
    alloc: Global,
    dir: &OsBytes,
    name: &OsBytes,
    files: &mut F,
) -> Result<String, Fault>
    ensures digest { IfOk result
        (λ digest. string_bytes digest
        ≡ hex_of (H.digest_of (contents_in (F.tree files.old) (join dir.now name.now)))) }
    ensures there { OnOk result
        (first_missing (F.tree files.old) (join dir.now name.now ∷ []) ≡ None) }
    ensures cause { IfErr result
        (FileCause (first_missing (F.tree files.old) (join dir.now name.now ∷ []))
        (FilesFail F.Files files.old files.new)) }
    ensures untouched { FilesUntouched F.Files files.old files.new result }
{
    let path = join(alloc, dir.as_bytes(), name.as_bytes())?;
    match Digest::<H>::file(alloc, &path, files) {
        Ok(Some(digest)) => Ok(digest),
        Ok(None) | Err(FileFail::Device) => Err(Fault::Read(path)),
        Err(FileFail::Memory) => Err(Fault::Memory),
    }
}

/// The contents of a file that is needed, which is read from that directory.
pub(crate) fn needed_contents<F: Files>(
    alloc: Global,
    dir: &OsBytes,
    name: &OsBytes,
    files: &mut F,
) -> Result<OsBytes, Fault>
    ensures contents { IfOk result (λ contents.
        contents ≡ contents_in (F.tree files.old) (join dir.now name.now)) }
    ensures there { OnOk result
        (first_missing (F.tree files.old) (join dir.now name.now ∷ []) ≡ None) }
    ensures cause { let missing = first_missing (F.tree files.old) (join dir.now name.now ∷ []) in
        IfErr result (FileCause missing (FilesFail F.Files files.old files.new)) }
    ensures untouched { FilesUntouched F.Files files.old files.new result }
{
    let path = join(alloc, dir.as_bytes(), name.as_bytes())?;
    match files.read(alloc, &path) {
        Ok(Some(contents)) => Ok(contents),
        Ok(None) | Err(FileFail::Device) => Err(Fault::Read(path)),
        Err(FileFail::Memory) => Err(Fault::Memory),
    }
}

/// The digests of the files whose contents count, in order.
pub(crate) fn extra_hashes<H: HashState, F: Files>(
    alloc: Global,
    dir: &OsBytes,
    names: &[OsBytes],
    files: &mut F,
) -> Result<Listed<String>, Fault>
    ensures digests { IfOk result
        (λ digests. map string_bytes digests
        ≡ map (λ contents. hex_of (H.digest_of contents))
        (map (contents_in (F.tree files.old)) (map (join dir.now) names.now))) }
    ensures there { OnOk result
        (first_missing (F.tree files.old) (map (join dir.now) names.now) ≡ None) }
    ensures cause { IfErr result
        (FileCause (first_missing (F.tree files.old) (map (join dir.now) names.now))
        (FilesFail F.Files files.old files.new)) }
    ensures untouched { FilesUntouched F.Files files.old files.new result }
{
    let mut digests = Listed::new(alloc);
    let mut rest = names;
    while let Some((name, others)) = rest.split_first() {
        digests.push(needed_digest::<H, F>(alloc, dir, name, files)?)?;
        rest = others;
    }
    Ok(digests)
}
