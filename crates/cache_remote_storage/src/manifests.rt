//! Manifests of other machines.

ghost use Rattle.std.specs.Prelude.{◌≡◌};

use crate::asking::{Fetched, fetch, name_of, note_failure, note_sealed};
use crate::results::keep_here;
use base_blake2::Blake2b256;
use base_files::OsBytes;
use base_formats::put_framed;
use cache_dir::Kind;
use cache_files::manifests::{FoundManifest, found_in};
use cache_format::{KeptManifest, Sealed, seal, unseal};
use cache_host::{CommandLine, Host, HostError};
use cache_settings::Key;
use cache_watch_lists::{lists_taken, lists_to_send, noted_and_rows};
use ckeys_include_records::entry_key::EntryKey;
use std::alloc::Global;
use std::io::Read;
use std::rt::Files;

/// The name under which the manifest of that name lies.
pub(crate) fn name_of_manifest(alloc: Global, own: &str) -> Result<String, HostError> {
    name_of(alloc, "m", KeptManifest::VERSION, "c", own)
}

/// What a manifest has beside its results, with these lists and nothing noted of headers.
fn watched_with(alloc: Global, lists: &[u8]) -> Result<OsBytes, HostError> {
    let mut watched = Vec::new(alloc);
    put_framed(&mut watched, b"")?;
    put_framed(&mut watched, b"")?;
    watched.extend_from_slice(lists)?;
    Ok(OsBytes::from_vec(watched))
}

/// Takes from a manifest what is noted of headers and its states, and gives its bytes. None where nothing of it is of use then.
fn sealed_to_send(alloc: Global, kept: &mut KeptManifest) -> Result<Option<Vec<u8>>, HostError> {
    let rows = noted_and_rows(kept.watched.as_bytes()).1;
    let Some(lists) = lists_to_send(alloc, rows)? else {
        return Ok(None);
    };
    kept.watched = watched_with(alloc, lists.as_slice())?;
    Ok(Some(seal::<Blake2b256, KeptManifest>(alloc, &*kept)?))
}

/// The bytes of a manifest as others may have them: without what is noted of headers, and without states. None where nothing of it is of use then.
pub(crate) fn manifest_to_send(alloc: Global, bytes: &[u8]) -> Result<Option<Vec<u8>>, HostError> {
    let Some(mut kept) = unseal::<Blake2b256, KeptManifest>(alloc, bytes)? else {
        return Ok(None);
    };
    let sent = sealed_to_send(alloc, &mut kept);
    drop(kept);
    sent
}

/// The manifest of another machine of that name, under that key. It is kept here too. Nothing where all is to be kept anew.
pub fn fetched_manifest<P: Print + Files + AllocGlobal, I: Read>(
    rt: &P,
    line: &CommandLine,
    host: &mut Host<I>,
    key: &EntryKey,
    own: &str,
) -> Result<Option<FoundManifest>, HostError>
    ensures { host.new.compiled ≡ host.old.compiled }
{
    if line.settings.value_of(Key::RemoteStorage).is_empty() || line.settings.is_on(Key::Recache) {
        return Ok(None);
    }
    let name = name_of_manifest(rt.alloc(), own)?;
    match fetch(rt, line, host, name.as_str())? {
        Fetched::Came(bytes) => take_manifest(rt, line, host, key, own, bytes.as_slice()),
        Fetched::Nothing | Fetched::Unknown => Ok(None),
    }
}

/// Whether a manifest is of calls in this zone, under that key.
fn is_of(line: &CommandLine, kept: &KeptManifest, key: &EntryKey) -> bool {
    kept.zone.as_bytes() == line.zone.as_bytes()
        && kept.identity == key.identity
        && kept.key == key.key
}

/// What came, where it is sealed and of this key.
fn manifest_in(
    alloc: Global,
    line: &CommandLine,
    key: &EntryKey,
    bytes: &[u8],
) -> Result<Option<KeptManifest>, HostError> {
    match unseal::<Blake2b256, KeptManifest>(alloc, bytes)? {
        Some(kept) if is_of(line, &kept, key) => Ok(Some(kept)),
        _ => Ok(None),
    }
}

/// What a manifest has beside its results, with the states that folders and names have here.
fn watched_here<R: Files + AllocGlobal>(
    rt: &R,
    line: &CommandLine,
    watched: &OsBytes,
) -> Result<OsBytes, HostError> {
    let before = line.settled_before();
    let rows = noted_and_rows(watched.as_bytes()).1;
    let taken = lists_taken(rt, line.dir.as_bytes(), rows, before)?;
    watched_with(rt.alloc(), taken.as_slice())
}

/// Keeps a manifest here under this name, as far as it can.
fn keep_manifest<R: Files + AllocGlobal>(
    rt: &R,
    line: &CommandLine,
    own: &str,
    kept: &KeptManifest,
) -> Result<(), HostError> {
    let ours = seal::<Blake2b256, KeptManifest>(rt.alloc(), kept)?;
    keep_here(rt, line, Kind::Manifests, own, ours.as_slice());
    Ok(())
}

/// Notes that a manifest that came is sealed, and keeps it here with the states of this machine.
fn keep_with_states<R: Files + AllocGlobal>(
    rt: &R,
    line: &CommandLine,
    own: &str,
    kept: &mut KeptManifest,
) -> Result<(), HostError> {
    note_sealed(rt, line)?;
    kept.watched = watched_here(rt, line, &kept.watched)?;
    keep_manifest(rt, line, own, kept)
}

/// Takes a manifest that came, and keeps it with the states of this machine. What isn't sealed, or is of another key, is as if the server had
/// failed.
fn take_manifest<R: Files + AllocGlobal, I>(
    rt: &R,
    line: &CommandLine,
    host: &mut Host<I>,
    key: &EntryKey,
    own: &str,
    bytes: &[u8],
) -> Result<Option<FoundManifest>, HostError>
    ensures { host.new.compiled ≡ host.old.compiled }
{
    let Some(mut kept) = manifest_in(rt.alloc(), line, key, bytes)? else {
        note_failure(rt, line, host)?;
        return Ok(None);
    };
    if let Err(stop) = keep_with_states(rt, line, own, &mut kept) {
        drop(kept);
        return Err(stop);
    }
    Ok(found_in(rt.alloc(), kept)?)
}
