//! What a kept manifest says.

ghost use Rattle.std.specs.Prelude.{◌≡◌, ◌++◌, IfOk, IfSome, OnOk};
ghost use Rattle.base_formats.specs.Formats.{IsOnly};
ghost use Rattle.ckeys_include_records.specs.Layout.{record_bytes};
ghost use Rattle.ckeys_include_records.specs.Refusals.{IsWrittenAs};
ghost use Rattle.cache_files.specs.Manifests.{included, names_in, results_found, results_in};

use base_files::{Listed, OsBytes};
use cache_dir::CacheDirError;
use cache_format::KeptManifest;
use ckeys_base::error::Error;
use ckeys_include_records::entry_key::EntryKey;
use ckeys_include_records::{CachedResult, IncludeEntry, PreprocessorCacheEntry};
use rustc_options::in_order;
use std::alloc::{AllocError, Global};

/// A manifest under its key, with the names of the files that its results name, each once, in the order of their bytes, and what to watch of
/// its results.
#[derive(Drop)]
pub struct FoundManifest {
    pub key: EntryKey,
    pub entry: PreprocessorCacheEntry,
    pub names: Listed<OsBytes>,
    pub watched: OsBytes,
}

/// Adds the names of these includes.
fn add_names(includes: &[IncludeEntry], names: &mut Listed<OsBytes>) -> Result<(), AllocError>
    ensures { OnOk result (names.new ≡ names.old ++ included includes.now) }
{
    for include in includes {
        names.push(include.path.clone()?)?;
    }
    Ok(())
}

/// The names of the files that these results name, each once, in the order of their bytes.
fn names_in(alloc: Global, results: &[CachedResult]) -> Result<Listed<OsBytes>, AllocError>
    ensures { IfOk result (λ names. names ≡ names_in results.now) }
{
    let mut names = Listed::new(alloc);
    for result in results {
        add_names(result.includes.as_slice(), &mut names)?;
    }
    in_order(alloc, names)
}

/// The manifest whose bytes these are. `None` where they are those of none.
fn entry_read(alloc: Global, bytes: &[u8]) -> Result<Option<PreprocessorCacheEntry>, CacheDirError>
    ensures { IfOk result (λ found. IsOnly (IsWrittenAs bytes.now) (results_in found)) }
{
    match PreprocessorCacheEntry::read(alloc, bytes) {
        Ok(entry) => Ok(Some(entry)),
        Err(Error::Memory) => Err(CacheDirError::Memory),
        Err(_) => Ok(None),
    }
}

/// The manifest that is kept so, under its key. `None` where its bytes are those of none.
pub fn found_in(alloc: Global, kept: KeptManifest) -> Result<Option<FoundManifest>, CacheDirError>
    ensures identity { IfOk result (λ found. IfSome found (λ f. f.key.identity ≡ kept.identity)) }
    ensures key { IfOk result (λ found. IfSome found (λ f. f.key.key ≡ kept.key)) }
    // What was written for a manifest is that manifest.
    ensures entry { IfOk result
        (λ found. IsOnly (IsWrittenAs kept.results) (results_found found)) }
    ensures watched { IfOk result (λ found. IfSome found (λ f. f.watched ≡ kept.watched)) }
    // The names are those of all results, each once.
    ensures names { IfOk result (λ found. IfSome found (λ f. f.names ≡ names_in f.entry.results)) }
{
    let KeptManifest {
        zone,
        identity,
        key,
        results,
        watched,
    } = kept;
    drop(zone);
    let Some(entry) = entry_read(alloc, results.as_bytes())? else {
        return Ok(None);
    };
    let names = names_in(alloc, entry.results())?;
    let key = EntryKey { identity, key };
    Ok(Some(FoundManifest {
        key,
        entry,
        names,
        watched,
    }))
}

/// The bytes of a manifest.
fn results_of(alloc: Global, entry: &PreprocessorCacheEntry) -> Result<OsBytes, AllocError>
    ensures { IfOk result (λ bytes. bytes ≡ record_bytes entry.now.results) }
{
    let mut bytes = Vec::new(alloc);
    match entry.serialize_to(&mut bytes) {
        Ok(()) => Ok(OsBytes::from_vec(bytes)),
        Err(_) => Err(AllocError),
    }
}

/// A manifest under its key with what to watch of its results, as it is kept of calls with dates in that time zone.
pub fn kept_of(
    alloc: Global,
    zone: &str,
    key: &EntryKey,
    entry: &PreprocessorCacheEntry,
    watched: OsBytes,
) -> Result<KeptManifest, AllocError>
    ensures zone { IfOk result (λ kept. kept.zone ≡ zone.now) }
    ensures identity { IfOk result (λ kept. kept.identity ≡ key.now.identity) }
    ensures key { IfOk result (λ kept. kept.key ≡ key.now.key) }
    ensures results { IfOk result (λ kept. kept.results ≡ record_bytes entry.now.results) }
    ensures watched { IfOk result (λ kept. kept.watched ≡ watched) }
{
    let zone = OsBytes::from_slice(alloc, zone.as_bytes())?;
    let identity = key.identity.clone()?;
    let key = key.key.clone()?;
    let results = results_of(alloc, entry)?;
    Ok(KeptManifest {
        zone,
        identity,
        key,
        results,
        watched,
    })
}
