//! Parts of calls that are put in the folder and read from it. A broken or missing file is as one that isn't there.

use base_blake2::Blake2b256;
use base_files::OsBytes;
use base_formats::put_framed;
use cache_dir::{CacheDir, CacheDirError, Kind, digest_of};
use cache_format::{KeptParts, seal, unseal};
use cmdlines_base::ArtifactDescriptor;
use std::alloc::{AllocError, Global};
use std::rt::Files;

/// The name under which the parts lie of the last call in this folder that asked for outputs at these paths, as they were written.
pub(crate) fn name_of_parts(
    alloc: Global,
    dir: &OsBytes,
    outputs: &[(OsBytes, ArtifactDescriptor)],
) -> Result<String, CacheDirError> {
    let mut row = Vec::new(alloc);
    put_framed(&mut row, dir.as_bytes())?;
    for output in outputs {
        put_framed(&mut row, output.1.path.as_bytes())?;
    }
    digest_of(alloc, row.as_slice())
}

/// Puts the parts of a call in the place of those that have this name.
pub(crate) fn put_parts<R: Files + AllocGlobal>(
    rt: &R,
    folder: &CacheDir,
    name: &str,
    kept: &KeptParts,
) -> Result<(), CacheDirError> {
    let bytes = seal::<Blake2b256, KeptParts>(rt.alloc(), kept)?;
    folder.put(rt, Kind::Fingerprints, name, bytes.as_slice())
}

/// The parts of this name, if there are some.
pub(crate) fn parts_under<R: Files + AllocGlobal>(
    rt: &R,
    folder: &CacheDir,
    name: &str,
) -> Result<Option<KeptParts>, AllocError> {
    let Ok(bytes) = folder.read(rt, Kind::Fingerprints, name) else {
        return Ok(None);
    };
    unseal::<Blake2b256, KeptParts>(rt.alloc(), bytes.as_slice())
}
