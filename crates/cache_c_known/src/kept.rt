//! What is kept on a disk: entries by the digest of their key, and for each command line a hint of what it had last. A broken or missing
//! file is a miss.

use base_blake2::Blake2b256;
use base_files::OsBytes;
use base_formats::put_framed;
use cache_dir::{Kind, digest_of, takes};
use cache_files::results::{Kept, entry_of, kept_of};
use cache_format::{KeptMessages, KeptResult, seal, unseal};
use cache_host::{CommandLine, HostError, LETTERS, into_text};
use cache_settings::Key;
use std::alloc::Global;
use std::rt::Files;
use wrap_base::Output;
use wrap_base::store_key::StoreKey;

/// What a command line had last: the digest of its key, and the name of its manifest, where it had one. And how many microseconds its last
/// compile took; 0 where that isn't known.
#[derive(Drop)]
pub struct Hint {
    pub digest: OsBytes,
    pub manifest_name: String,
    pub compile_time: u64,
}

/// The name under which the hint of this command line lies.
pub fn hint_name(alloc: Global, line: &CommandLine) -> Result<String, HostError> {
    let mut row = Vec::new(alloc);
    put_framed(&mut row, line.executable.as_bytes())?;
    put_framed(&mut row, line.dir.as_bytes())?;
    for word in line.words.as_slice() {
        put_framed(&mut row, word.as_bytes())?;
    }
    Ok(digest_of(alloc, row.as_slice())?)
}

/// What is kept under this digest.
fn entry_under<R: Files + AllocGlobal>(
    rt: &R,
    line: &CommandLine,
    digest: OsBytes,
) -> Result<Option<KeptResult>, HostError> {
    let name = into_text(digest)?;
    match line.folder.read(rt, Kind::Results, name.as_str()) {
        Ok(bytes) => Ok(unseal::<Blake2b256, KeptResult>(rt.alloc(), bytes.as_slice())?),
        Err(_) => Ok(None),
    }
}

/// What is kept under this digest, where the preprocessor printed these messages then, if it ran: it may print others beside the same text.
/// Nothing where all is to be kept anew.
pub fn found<R: Files + AllocGlobal>(
    rt: &R,
    line: &CommandLine,
    digest: OsBytes,
    messages: Option<&[u8]>,
) -> Result<Option<Kept>, HostError> {
    if line.settings.is_on(Key::Recache) {
        return Ok(None);
    }
    let Some(entry) = entry_under(rt, line, digest)? else {
        return Ok(None);
    };
    if messages.is_some_and(|messages| entry.messages.preprocessor.as_bytes() != messages) {
        drop(entry);
        return Ok(None);
    }
    Ok(Some(kept_of(entry)))
}

/// What this command line had last. A hint that is none is a miss.
pub fn hint_at<R: Files + AllocGlobal>(
    rt: &R,
    line: &CommandLine,
    hint: &str,
) -> Result<Option<Hint>, HostError> {
    let Ok(bytes) = line.folder.read(rt, Kind::Hints, hint) else {
        return Ok(None);
    };
    if bytes.len() < LETTERS {
        return Ok(None);
    }
    let (digest, rest) = bytes.as_slice().split_at(LETTERS);
    let Ok(rest) = str::from_utf8(rest) else {
        return Ok(None);
    };
    let (name, time) = rest.split_once(' ').unwrap_or((rest, ""));
    let digest = OsBytes::from_slice(rt.alloc(), digest)?;
    let manifest_name = String::from_str(rt.alloc(), name)?;
    Ok(Some(Hint {
        digest,
        manifest_name,
        compile_time: time.parse::<u64>().unwrap_or(0),
    }))
}

/// What is kept under this digest, as `found` says. What can't be read is a miss.
pub fn kept_under<R: Files + AllocGlobal>(
    rt: &R,
    line: &CommandLine,
    digest: OsBytes,
    messages: Option<&[u8]>,
) -> Result<Option<Kept>, HostError> {
    match found(rt, line, digest, messages) {
        Err(HostError::Memory) => Err(HostError::Memory),
        Err(_) => Ok(None),
        Ok(entry) => Ok(entry),
    }
}

/// Notes which digest this command line had, the name of its manifest, an empty one where it had none, and how long its last compile took.
pub fn note_hint<R: Files + AllocGlobal>(
    rt: &R,
    line: &CommandLine,
    hint: &str,
    digest: &OsBytes,
    manifest_name: &str,
    compile_time: u64,
) -> Result<(), HostError> {
    let mut bytes = Vec::new(rt.alloc());
    bytes.extend_from_slice(digest.as_bytes())?;
    let rest = format!(in rt.alloc(); "{manifest_name} {compile_time}")?;
    bytes.extend_from_slice(rest.as_bytes())?;
    Ok(line.folder.put(rt, Kind::Hints, hint, bytes.as_slice())?)
}

/// The bytes of what is kept of outputs under the key, with what was printed beside them.
fn sealed(
    alloc: Global,
    key: &StoreKey,
    outputs: &[Output],
    messages: KeptMessages,
) -> Result<Vec<u8>, HostError> {
    let entry = entry_of(alloc, key, outputs, messages)?;
    Ok(seal::<Blake2b256, KeptResult>(alloc, &entry)?)
}

/// Keeps outputs under the key, with what was printed beside them, where they aren't too large for the limit.
pub fn keep<R: Files + AllocGlobal>(
    rt: &R,
    line: &CommandLine,
    key: &StoreKey,
    outputs: &[Output],
    messages: KeptMessages,
) -> Result<(), HostError> {
    let bytes = sealed(rt.alloc(), key, outputs, messages)?;
    let name = into_text(key.digest.clone()?)?;
    let folder = &line.folder;
    if !takes(folder.limit, bytes.len() as u64) {
        return Ok(());
    }
    Ok(folder.put(rt, Kind::Results, name.as_str(), bytes.as_slice())?)
}

/// Notes that what is kept under this digest was given, so that it goes last where the limit is passed.
pub fn renew<R: Files + AllocGlobal>(
    rt: &R,
    line: &CommandLine,
    digest: &OsBytes,
) -> Result<(), HostError> {
    let name = into_text(digest.clone()?)?;
    Ok(
        line.folder
            .renew(rt, Kind::Results, name.as_str(), line.moment)?,
    )
}
