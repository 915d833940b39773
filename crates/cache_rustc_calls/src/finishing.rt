//! The end of a call of rustc: what was made is kept, and what was kept is given, with what was printed beside it.

use base_files::{Listed, OsBytes, join};
use cache_dir::{Kind, make_room};
use cache_host::{CommandLine, HostError, text_in};
use cache_rustc_known::KnownCrate;
use cache_rustc_requests::{has_json, keep};
use cache_source_files::lock_paths;
use std::alloc::Global;
use std::fs;
use std::fs::File;
use std::io::ErrorKind;
use std::os::unix::fs::MetadataExt;
use std::rt::Files;
use wrap_base::Output;
use wrap_base::store_key::StoreKey;

/// The rights to write.
const WRITE: u32 = 0o222;

/// Whether nothing lies under a path, or a regular file that may be written: rustc puts another one in its place.
fn is_replaced<R: Files>(rt: &R, path: &str) -> bool {
    match fs::symlink_metadata(rt, path) {
        Ok(found) => found.is_file() && found.mode() & WRITE != 0,
        Err(error) => error.kind() == ErrorKind::NotFound,
    }
}

/// The paths of outputs, from the folder of the call.
pub fn paths_of(
    alloc: Global,
    line: &CommandLine,
    outputs: &[Output],
) -> Result<Listed<OsBytes>, HostError> {
    let mut paths = Listed::new(alloc);
    for output in outputs {
        paths.push(join(alloc, line.dir.as_bytes(), output.path.as_bytes())?)?;
    }
    Ok(paths)
}

/// Puts a file in the place of an old one, all at once.
fn replace<R: Files + AllocGlobal>(
    rt: &R,
    line: &CommandLine,
    path: &OsBytes,
    contents: &[u8],
) -> Result<(), HostError> {
    let place = text_in(path)?;
    let own = line.folder.own.as_str();
    let early = format!(in rt.alloc(); "{place}.{own}")?;
    let mut done = fs::write(rt, early.as_str(), contents);
    if done.is_ok() {
        done = fs::rename(rt, early.as_str(), place);
    }
    if done.is_err() {
        let _ = fs::remove_file(rt, early.as_str());
    }
    Ok(done?)
}

/// Puts kept outputs where the call wants them.
fn put_outputs<R: Files + AllocGlobal>(
    rt: &R,
    line: &CommandLine,
    outputs: &[Output],
    paths: &[OsBytes],
) -> Result<(), HostError> {
    for (number, output) in outputs.iter().enumerate() {
        let Some(path) = paths.get(number) else {
            break;
        };
        replace(rt, line, path, output.contents.as_bytes())?;
    }
    Ok(())
}

/// Whether kept outputs and a text on dependencies can be put where the call wants them: where something else than a plain file lies in their
/// places rustc writes as it does.
pub fn have_places<R: Files>(
    rt: &R,
    paths: &[OsBytes],
    dep_info: Option<&OsBytes>,
) -> Result<bool, HostError> {
    for path in paths {
        if !is_replaced(rt, text_in(path)?) {
            return Ok(false);
        }
    }
    match dep_info {
        Some(path) => Ok(is_replaced(rt, text_in(path)?)),
        None => Ok(true),
    }
}

/// Gives kept outputs at these paths, the text on dependencies, and after them the messages.
pub fn give<R: Files<File = File> + AllocGlobal>(
    rt: &R,
    line: &CommandLine,
    key: &StoreKey,
    outputs: &[Output],
    paths: &[OsBytes],
    dep_info: Option<&OsBytes>,
    known: &KnownCrate,
) -> Result<(), HostError> {
    let place = known.dep_info.as_ref();
    let locks = lock_paths(rt, line, paths, place);
    if let (Some(place), Some(text)) = (place, dep_info) {
        replace(rt, line, place, text.as_bytes())?;
    }
    put_outputs(rt, line, outputs, paths)?;
    drop(locks);
    if let Some(found) = &known.found_errors {
        fs::write(rt, line.errors.as_str(), found.as_bytes())?;
    }
    let name = text_in(&key.digest)?;
    let _ = line.folder.renew(rt, Kind::Results, name, line.moment);
    Ok(())
}

/// Whether what was made may be kept: its sources are as they were, messages are such as another call can have, and the text on dependencies
/// is the one that the session gives.
fn may_keep<R: Files + AllocGlobal>(
    rt: &R,
    line: &CommandLine,
    dep_info: Option<&OsBytes>,
    known: &KnownCrate,
) -> Result<bool, HostError> {
    let has_messages = known.is_talking || (!known.errors.as_bytes().is_empty() && !has_json(line));
    if has_messages || !known.are_unchanged(rt)? {
        return Ok(false);
    }
    match (dep_info, known.written_dep_info(rt)?) {
        (None, _) => Ok(true),
        (Some(kept), Some(written)) => Ok(kept.as_bytes() == written.as_slice()),
        (Some(_), None) => Ok(false),
    }
}

/// Keeps what was made, where that may be.
pub fn keep_made<R: Files<File = File> + AllocGlobal>(
    rt: &R,
    line: &CommandLine,
    key: &StoreKey,
    outputs: &[Output],
    dep_info: Option<&OsBytes>,
    known: &KnownCrate,
) -> Result<(), HostError> {
    if !may_keep(rt, line, dep_info, known)? {
        return Err(HostError::Changed);
    }
    keep(rt, line, key, outputs, &known.errors, known.wishes())?;
    let names = [text_in(&key.digest)?];
    Ok(make_room(&rt, &line.folder, names.as_slice())?)
}
