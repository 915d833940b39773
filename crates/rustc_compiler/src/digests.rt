//! The digests of files that a toolchain needs.

ghost use Rattle.std.specs.Prelude.{◌≡◌, Some, true, IfOk, IfErr, IsErrOf, OnOk};
ghost use Rattle.base_files.specs.Views.{FilesFail};
ghost use Rattle.ckeys_base.specs.FileDigests.{file_digest, file_digests};
ghost use Rattle.rustc_compiler.specs.Causes.{CauseOf, FileCause};

use crate::fault::RustFault;
use base_files::{FileFail, Files, Listed, OsBytes};
use ckeys_base::{Digest, HashState};
use std::alloc::Global;

/// The digest of a file that is needed, as text.
fn digest_of<H: HashState, F: Files>(
    alloc: Global,
    path: &OsBytes,
    files: &mut F,
) -> Result<OsBytes, RustFault>
    ensures digest { IfOk result
        (λ digest. Some digest ≡ file_digest H.digest_of (F.tree files.old) path.now) }
    ensures cause { IfErr result
        (FileCause (F.tree files.old) path.now
        (FilesFail F.Files files.old files.new)) }
    ensures tree { F.tree files.new ≡ F.tree files.old }
    ensures steady { OnOk result (F.failed files.new ≡ F.failed files.old) }
    ensures memory { IsErrOf result RustFault.Memory → F.failed files.new ≡ F.failed files.old }
{
    // Before the file is touched, so that no I/O error is returned as out of memory.
    let name = path.clone()?;
    match Digest::<H>::file(alloc, path, files) {
        Ok(Some(digest)) => Ok(OsBytes::from_vec(digest.into_bytes())),
        Ok(None) | Err(FileFail::Device) => Err(RustFault::Read(name)),
        Err(FileFail::Memory) => Err(RustFault::Memory),
    }
}

/// The digests of files that are needed, as texts, in their order.
pub(crate) fn digests_of<H: HashState, F: Files>(
    alloc: Global,
    paths: &[OsBytes],
    files: &mut F,
) -> Result<Listed<OsBytes>, RustFault>
    ensures digests { IfOk result
        (λ digests. Some digests ≡ file_digests H.digest_of (F.tree files.old) paths.now) }
    ensures cause { IfErr result
        (CauseOf true (F.tree files.old) paths.now
        (FilesFail F.Files files.old files.new)) }
    ensures tree { F.tree files.new ≡ F.tree files.old }
    ensures steady { OnOk result (F.failed files.new ≡ F.failed files.old) }
    ensures memory { IsErrOf result RustFault.Memory → F.failed files.new ≡ F.failed files.old }
{
    let mut digests = Vec::with_capacity(alloc, paths.len())?;
    for path in paths {
        digests.push(digest_of::<H, F>(alloc, path, files)?)?;
    }
    Ok(Listed::from_vec(digests))
}
