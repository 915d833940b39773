//! The files that command lines name, read from the disk once, before an entry is decided with them.

use crate::database::{TakesEntries, read_database};
use crate::fault::ReportFault;
use base_files::{FileTime, MemoryFile, OsBytes};
use sccache_recorded_builds::{Asked, Compilers, Entry, EntryCompiler};
use std::alloc::Global;
use std::io::{ErrorKind, Read};
use std::rt::Files;
use std::{fs, mem};

/// How deep response files may name one another. What lies deeper counts as not there.
const DEPTH: u32 = 64;

/// Whether the words may make a compiler ask for a file.
fn may_ask(entry: &Entry) -> bool {
    if let Some(EntryCompiler::Rustc) = entry.compiler {
        return true;
    }
    for word in entry.words.as_slice() {
        if let [b'@', ..] | [b'-', b'@', ..] = word.as_bytes() {
            return true;
        }
    }
    false
}

/// The contents of a regular file on the disk, where it can be read.
fn contents_on<D: Files>(
    alloc: Global,
    disk: &D,
    path: &OsBytes,
) -> Result<Option<OsBytes>, ReportFault> {
    let Ok(name) = str::from_utf8(path.as_bytes()) else {
        return Ok(None);
    };
    match fs::metadata(disk, name) {
        Ok(found) if found.is_file() => {}
        _ => return Ok(None),
    }
    let Ok(mut file) = fs::open(disk, name) else {
        return Ok(None);
    };
    let mut bytes = Vec::new(alloc);
    match file.read_to_end(&mut bytes) {
        Ok(_) => Ok(Some(OsBytes::from_vec(bytes))),
        Err(error) if error.kind() == ErrorKind::OutOfMemory => Err(ReportFault::Memory),
        Err(_) => Ok(None),
    }
}

/// Whether a regular file is there on the disk.
fn is_on<D: Files>(disk: &D, path: &OsBytes) -> bool {
    let Ok(name) = str::from_utf8(path.as_bytes()) else {
        return false;
    };
    match fs::metadata(disk, name) {
        Ok(found) => found.is_file(),
        Err(_) => false,
    }
}

/// Keeps a file in memory.
fn keep(asked: &mut Asked, path: OsBytes, contents: OsBytes) -> Result<(), ReportFault> {
    let mtime = FileTime::from_seconds(0);
    asked.files.insert(path, MemoryFile { contents, mtime })?;
    Ok(())
}

/// Fetches the files whose contents were asked for, and reports whether one of them is there.
fn fetch_read<D: Files>(alloc: Global, disk: &D, asked: &mut Asked) -> Result<bool, ReportFault> {
    let mut is_there = false;
    for path in mem::replace(&mut asked.read, Vec::new(alloc)) {
        if let Some(contents) = contents_on(alloc, disk, &path)? {
            keep(asked, path, contents)?;
            is_there = true;
        }
    }
    Ok(is_there)
}

/// Notes which of the files that were looked for are there, with no contents, and reports whether one of them is.
fn fetch_looked_for<D: Files>(
    alloc: Global,
    disk: &D,
    asked: &mut Asked,
) -> Result<bool, ReportFault> {
    let mut is_there = false;
    for path in mem::replace(&mut asked.looked_for, Vec::new(alloc)) {
        if is_on(disk, &path) {
            keep(asked, path, OsBytes::empty(alloc))?;
            is_there = true;
        }
    }
    Ok(is_there)
}

/// Notes which files an entry asks for, by deciding on it. What it comes to is owned in this function alone, since its drop is costly to prove.
fn note_asked(
    alloc: Global,
    compilers: &Compilers,
    entry: &Entry,
    asked: &mut Asked,
) -> Result<(), ReportFault> {
    match compilers.decide(alloc, entry, asked) {
        Ok(decided) => {
            drop(decided);
            Ok(())
        }
        Err(fault) => Err(ReportFault::from(fault)),
    }
}

/// Fetches all that an entry asks for.
fn fetch_for<D: Files>(
    alloc: Global,
    disk: &D,
    compilers: &Compilers,
    entry: &Entry,
    asked: &mut Asked,
) -> Result<(), ReportFault> {
    for _ in 0..DEPTH {
        note_asked(alloc, compilers, entry, asked)?;
        let read = fetch_read(alloc, disk, asked)?;
        let looked_for = fetch_looked_for(alloc, disk, asked)?;
        if !read && !looked_for {
            break;
        }
    }
    Ok(())
}

/// The files that the entries before asked for, as they are on the disk.
struct Fetching<'a, D> {
    alloc: Global,
    disk: &'a D,
    compilers: &'a Compilers,
    asked: Asked,
}

impl<'a, D: Files> TakesEntries for Fetching<'a, D> {
    fn take(&mut self, entry: &Entry) -> Result<(), ReportFault> {
        if !may_ask(entry) {
            return Ok(());
        }
        fetch_for(
            self.alloc,
            self.disk,
            self.compilers,
            entry,
            &mut self.asked,
        )
    }
}

/// The files that the entries of a database ask for, as they are on the disk.
pub(crate) fn snapshot_for<D: Files>(
    alloc: Global,
    disk: &D,
    compilers: &Compilers,
    database: &[u8],
) -> Result<Asked, ReportFault> {
    let mut fetching = Fetching {
        alloc,
        disk,
        compilers,
        asked: Asked::new(alloc),
    };
    let read = read_database(alloc, database, &mut fetching);
    let Fetching {
        alloc: _,
        disk: _,
        compilers: _,
        asked,
    } = fetching;
    read?;
    Ok(asked)
}
