//! Results that other machines made.

ghost use Rattle.std.specs.Prelude.{◌≡◌};

use crate::asking::{Fetched, fetch, name_of, note_failure, note_sealed};
use base_blake2::Blake2b256;
use cache_dir::{Kind, make_room};
use cache_files::results::{Kept, kept_of};
use cache_format::{KeptResult, Sealed, unseal};
use cache_host::{CommandLine, Host, HostError, text_in};
use cache_settings::Key;
use std::alloc::Global;
use std::io::Read;
use std::rt::Files;
use wrap_base::store_key::{Family, StoreKey};

/// The name under which the result of that key lies.
pub(crate) fn name_of_result(alloc: Global, key: &StoreKey) -> Result<String, HostError> {
    let family = match key.family {
        Family::C => "c",
        Family::Rustc => "rustc",
    };
    name_of(
        alloc,
        "r",
        KeptResult::VERSION,
        family,
        text_in(&key.digest)?,
    )
}

/// Keeps what came in the folder of what is kept, as far as it can.
pub(crate) fn keep_here<R: Files + AllocGlobal>(
    rt: &R,
    line: &CommandLine,
    kind: Kind,
    name: &str,
    bytes: &[u8],
) {
    let folder = &line.folder;
    if folder.put(rt, kind, name, bytes).is_ok() {
        let _ = make_room(&rt, folder, &[name]);
    }
}

/// What another machine made under this key, where the preprocessor printed these messages then, if it ran. It is kept here too. Nothing where
/// all is to be kept anew.
pub fn fetched<P: Print + Files + AllocGlobal, I: Read>(
    rt: &P,
    line: &CommandLine,
    host: &mut Host<I>,
    key: &StoreKey,
    messages: Option<&[u8]>,
) -> Result<Option<Kept>, HostError>
    ensures { host.new.compiled ≡ host.old.compiled }
{
    if line.settings.value_of(Key::RemoteStorage).is_empty() || line.settings.is_on(Key::Recache) {
        return Ok(None);
    }
    let name = name_of_result(rt.alloc(), key)?;
    match fetch(rt, line, host, name.as_str())? {
        Fetched::Came(bytes) => take_result(rt, line, host, key, messages, bytes.as_slice()),
        Fetched::Nothing => {
            host.tally.misses = host.tally.misses.saturating_add(1);
            Ok(None)
        }
        Fetched::Unknown => Ok(None),
    }
}

/// What came, where it is sealed and of this key.
fn result_in(alloc: Global, key: &StoreKey, bytes: &[u8]) -> Result<Option<KeptResult>, HostError> {
    match unseal::<Blake2b256, KeptResult>(alloc, bytes)? {
        Some(entry) if entry.digest == key.digest => Ok(Some(entry)),
        _ => Ok(None),
    }
}

/// Notes that what came is sealed, and keeps it here.
fn keep_result<R: Files + AllocGlobal>(
    rt: &R,
    line: &CommandLine,
    key: &StoreKey,
    bytes: &[u8],
) -> Result<(), HostError> {
    note_sealed(rt, line)?;
    keep_here(rt, line, Kind::Results, text_in(&key.digest)?, bytes);
    Ok(())
}

/// Counts a result as a hit where the preprocessor printed these messages then, if it ran.
fn take_kept<I>(host: &mut Host<I>, entry: KeptResult, messages: Option<&[u8]>) -> Option<Kept>
    ensures { host.new.compiled ≡ host.old.compiled }
{
    if messages.is_some_and(|messages| entry.messages.preprocessor.as_bytes() != messages) {
        drop(entry);
        return None;
    }
    host.tally.hits = host.tally.hits.saturating_add(1);
    Some(kept_of(entry))
}

/// Takes what came under a key. What isn't sealed, or is of another key, is as if the server had failed.
fn take_result<R: Files + AllocGlobal, I>(
    rt: &R,
    line: &CommandLine,
    host: &mut Host<I>,
    key: &StoreKey,
    messages: Option<&[u8]>,
    bytes: &[u8],
) -> Result<Option<Kept>, HostError>
    ensures { host.new.compiled ≡ host.old.compiled }
{
    let Some(entry) = result_in(rt.alloc(), key, bytes)? else {
        note_failure(rt, line, host)?;
        return Ok(None);
    };
    match keep_result(rt, line, key, bytes) {
        Ok(()) => Ok(take_kept(host, entry, messages)),
        Err(stop) => {
            drop(entry);
            Err(stop)
        }
    }
}
