//! Files while a compiler writes and reads them: locks on the paths of outputs, and which of these it made.

use crate::outputs::regular;
use base_files::{Listed, OsBytes, join};
use cache_dir::digest_of;
use cache_disk::{State, give_rights, make_folders};
use cache_host::{CommandLine, HostError, into_text};
use std::alloc::AllocError;
use std::collections::BTreeSet;
use std::fs::{File, OpenOptions};
use std::io::ErrorKind;
use std::rt::Files;
use std::{fs, io};

/// How many letters of the digest of a path name its lock.
const LETTERS: usize = 3;

/// Locks that are held until it is dropped.
#[derive(Drop)]
pub struct Locks {
    files: Vec<File>,
}

/// The path of a file with no link in its folder.
fn real_path<R: Files + AllocGlobal>(
    rt: &R,
    line: &CommandLine,
    path: &[u8],
) -> Result<String, HostError> {
    let path = into_text(join(rt.alloc(), line.dir.as_bytes(), path)?)?;
    let Some((folder, name)) = path.rsplit_once('/') else {
        return Ok(path);
    };
    let real = match fs::canonicalize(rt, folder) {
        Ok(real) => format!(in rt.alloc(); "{}/{name}", real.as_str())?,
        Err(_) => return Ok(path),
    };
    Ok(real)
}

/// The name of the lock of a path. None of a device's.
fn lock_name<R: Files + AllocGlobal>(
    rt: &R,
    line: &CommandLine,
    path: &OsBytes,
) -> Result<Option<String>, HostError> {
    let real = real_path(rt, line, path.as_bytes())?;
    if real.as_str().starts_with("/dev/") {
        return Ok(None);
    }
    let digest = digest_of(rt.alloc(), real.as_bytes())?;
    let name = digest.as_str().get(..LETTERS).unwrap_or("");
    Ok(Some(String::from_str(rt.alloc(), name)?))
}

/// Adds the name of the lock of a path, where it has one.
fn add_lock<R: Files + AllocGlobal>(
    rt: &R,
    line: &CommandLine,
    path: &OsBytes,
    names: &mut BTreeSet<String>,
) -> Result<(), HostError> {
    if let Some(name) = lock_name(rt, line, path)? {
        names.insert(name)?;
    }
    Ok(())
}

/// The names of the locks of outputs' paths and of a dependency file's, in their order.
fn lock_names<R: Files + AllocGlobal>(
    rt: &R,
    line: &CommandLine,
    paths: &[OsBytes],
    dependency_file: Option<&OsBytes>,
) -> Result<BTreeSet<String>, HostError> {
    let mut names = BTreeSet::new(rt.alloc());
    for path in paths {
        add_lock(rt, line, path, &mut names)?;
    }
    if let Some(path) = dependency_file {
        add_lock(rt, line, path, &mut names)?;
    }
    Ok(names)
}

/// Opens the file of a lock, which is made where it isn't there.
fn opened<R: Files<File = File>>(rt: &R, place: &str) -> io::Result<File> {
    let mut options = OpenOptions::new();
    options.append(true).create(true);
    options.open(rt, place)
}

/// Opens the file of a lock in a folder, which is made where it isn't there, and waits for it.
fn locked<R: Files<File = File> + AllocGlobal>(
    rt: &R,
    line: &CommandLine,
    folder: &str,
    name: &str,
) -> Result<File, HostError> {
    let place = format!(in rt.alloc(); "{folder}/{name}")?;
    let umask = line.folder.umask;
    let is_given_rights = umask.is_some() && fs::metadata(rt, place.as_str()).is_err();
    let file = match opened(rt, place.as_str()) {
        Err(error) if error.kind() == ErrorKind::NotFound => {
            make_folders(rt, folder, umask)?;
            opened(rt, place.as_str())?
        }
        other => other?,
    };
    if is_given_rights {
        give_rights(rt, place.as_str(), umask)?;
    }
    file.lock()?;
    Ok(file)
}

/// Waits until no other call writes or reads one of these paths as an output's or a dependency file's. Where nothing is to be put into the
/// folder of what is kept, nothing is waited for.
pub fn lock_paths<R: Files<File = File> + AllocGlobal>(
    rt: &R,
    line: &CommandLine,
    paths: &[OsBytes],
    dependency_file: Option<&OsBytes>,
) -> Result<Locks, HostError> {
    let mut files = Vec::new(rt.alloc());
    if line.folder.is_read_only {
        return Ok(Locks { files });
    }
    let kept = line.folder.path.as_str();
    let folder = format!(in rt.alloc(); "{kept}/locks")?;
    for name in lock_names(rt, line, paths, dependency_file)? {
        files.push(locked(rt, line, folder.as_str(), name.as_str())?)?;
    }
    Ok(Locks { files })
}

/// The states of what lies under these paths, where something does.
pub fn states_of<R: Files + AllocGlobal>(
    rt: &R,
    paths: &[OsBytes],
) -> Result<Vec<Option<State>>, AllocError> {
    let mut states = Vec::with_capacity(rt.alloc(), paths.len())?;
    for path in paths {
        states.push(match str::from_utf8(path.as_bytes()) {
            Ok(place) => State::at(rt, place).ok(),
            Err(_) => None,
        })?;
    }
    Ok(states)
}

/// What was made at each of these paths, which had those states before: a regular file that is another one, or was changed.
pub fn made_since<R: Files + AllocGlobal>(
    rt: &R,
    paths: &[OsBytes],
    before: &[Option<State>],
) -> Result<Listed<Option<OsBytes>>, HostError> {
    let mut files = Listed::new(rt.alloc());
    for (number, path) in paths.iter().enumerate() {
        let Some(before) = before.get(number) else {
            break;
        };
        let path = into_text(path.clone()?)?;
        let now = State::at(rt, path.as_str()).ok();
        files.push(match now == *before {
            true => None,
            false => regular(rt, path.as_str()),
        })?;
    }
    Ok(files)
}
