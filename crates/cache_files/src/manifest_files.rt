//! Manifests that are put in the folder and read from it. A broken or missing file is as one that isn't there.

ghost use Rattle.std.specs.Prelude.{◌≡◌, IfOk, string_bytes};
ghost use Rattle.ckeys_base.specs.Hex.{hex_of};
ghost use Rattle.cache_files.specs.Manifests.{row_of};

use crate::manifests::{FoundManifest, found_in, kept_of};
use base_blake2::Blake2b256;
use base_files::OsBytes;
use base_formats::put_framed;
use cache_dir::{CacheDir, CacheDirError, Kind, digest_of};
use cache_format::{KeptManifest, seal, unseal};
use ckeys_base::HashState;
use ckeys_include_records::PreprocessorCacheEntry;
use ckeys_include_records::entry_key::EntryKey;
use std::alloc::Global;
use std::rt::Files;

/// The name of the manifest under this key for calls with dates in that time zone: the digest of both.
pub fn name_of_manifest(alloc: Global, zone: &str, key: &EntryKey) -> Result<String, CacheDirError>
    ensures { IfOk result (λ name. string_bytes name
        ≡ hex_of (⟦<Blake2b256 as HashState>⟧.digest_of (row_of zone.now key.now))) }
{
    let mut row = Vec::new(alloc);
    put_framed(&mut row, zone.as_bytes())?;
    put_framed(&mut row, key.identity.as_bytes())?;
    put_framed(&mut row, key.key.as_bytes())?;
    digest_of(alloc, row.as_slice())
}

/// Puts a manifest of calls with dates in that time zone under its key, which has this name, with what to watch of its results.
pub fn put_manifest<R: Files + AllocGlobal>(
    rt: &R,
    folder: &CacheDir,
    zone: &str,
    name: &str,
    key: &EntryKey,
    entry: &PreprocessorCacheEntry,
    watched: OsBytes,
) -> Result<(), CacheDirError> {
    let kept = kept_of(rt.alloc(), zone, key, entry, watched)?;
    let bytes = seal::<Blake2b256, KeptManifest>(rt.alloc(), &kept)?;
    folder.put(rt, Kind::Manifests, name, bytes.as_slice())
}

/// The manifest of this name, if there is one of calls with dates in that time zone.
pub fn manifest_under<R: Files + AllocGlobal>(
    rt: &R,
    folder: &CacheDir,
    zone: &str,
    name: &str,
) -> Result<Option<FoundManifest>, CacheDirError> {
    let Ok(bytes) = folder.read(rt, Kind::Manifests, name) else {
        return Ok(None);
    };
    let Some(kept) = unseal::<Blake2b256, KeptManifest>(rt.alloc(), bytes.as_slice())? else {
        return Ok(None);
    };
    if kept.zone.as_bytes() != zone.as_bytes() {
        return Ok(None);
    }
    found_in(rt.alloc(), kept)
}
