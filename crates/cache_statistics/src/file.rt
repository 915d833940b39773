//! The file of records, which processes write at once: whoever writes holds its lock, and sees first that it is still the file of that name,
//! since records are folded into a new one.

use crate::counts::Counts;
use crate::error::StatisticsError;
use crate::names::ZEROED;
use crate::record::{SIZE, put_record};
use cache_disk::{give_rights, make_folders, read_whole};
use std::alloc::{AllocError, Global};
use std::fs::{File, OpenOptions};
use std::io::{ErrorKind, Write};
use std::os::unix::fs::MetadataExt;
use std::rt::Files;
use std::{fs, io};

/// A file that is longer is folded.
const LONG: u64 = 64 * 1024;

/// How often the file is opened again, where another process has folded it meanwhile.
const TRIES: u32 = 1000;

/// Where it lies in the folder of this path.
fn place_of(alloc: Global, path: &str) -> Result<String, StatisticsError> {
    Ok(format!(in alloc; "{path}/statistics")?)
}

/// Where it lies in the folder of this path, which is made where it isn't there.
fn place_in<R: Files + AllocGlobal>(
    rt: &R,
    path: &str,
    umask: Option<u32>,
) -> Result<String, StatisticsError> {
    if fs::metadata(rt, path).is_err() {
        make_folders(rt, path, umask)?;
    }
    place_of(rt.alloc(), path)
}

/// Opens the file of that name, to read it and append records.
fn open_file<R: Files<File = File>>(rt: &R, place: &str, umask: Option<u32>) -> io::Result<File> {
    let is_new = fs::metadata(rt, place).is_err();
    let mut options = OpenOptions::new();
    options.read(true).append(true).create(true);
    let file = options.open(rt, place)?;
    if is_new {
        give_rights(rt, place, umask)?;
    }
    Ok(file)
}

/// Opens the file of that name and waits for its lock, which it has until it is closed. Nothing where it isn't the one of that name any more.
fn lock_once<R: Files<File = File>>(
    rt: &R,
    place: &str,
    umask: Option<u32>,
) -> Result<Option<File>, StatisticsError> {
    let file = open_file(rt, place, umask)?;
    file.lock()?;
    let held = file.metadata()?;
    match fs::metadata(rt, place) {
        Ok(named) if named.ino() == held.ino() && named.dev() == held.dev() => Ok(Some(file)),
        _ => Ok(None),
    }
}

/// The file of that name, with its lock.
fn locked<R: Files<File = File>>(
    rt: &R,
    place: &str,
    umask: Option<u32>,
) -> Result<File, StatisticsError> {
    for _ in 0..TRIES {
        if let Some(file) = lock_once(rt, place, umask)? {
            return Ok(file);
        }
    }
    Err(StatisticsError::Device)
}

/// Puts these records in the place of the file all at once, whose lock is held. Whoever waits for that opens the new one then.
fn replace<R: Files + AllocGlobal>(
    rt: &R,
    place: &str,
    umask: Option<u32>,
    bytes: &[u8],
) -> Result<(), StatisticsError> {
    let early = format!(in rt.alloc(); "{place}.new")?;
    fs::write(rt, early.as_str(), bytes)?;
    give_rights(rt, early.as_str(), umask)?;
    Ok(fs::rename(rt, early.as_str(), place)?)
}

/// Folds the records of the file of that name, whose lock is held.
fn fold<R: Files + AllocGlobal>(
    rt: &R,
    place: &str,
    umask: Option<u32>,
) -> Result<(), StatisticsError> {
    let bytes = read_whole(rt, place)?;
    let counts = Counts::read(rt.alloc(), bytes.as_slice())?;
    replace(rt, place, umask, counts.records(rt.alloc())?.as_slice())
}

/// Takes a record away that a full disk cut short, and says how long the file was.
fn cut_rest(file: &File) -> io::Result<u64> {
    let size = file.metadata()?.len();
    let rest = size % SIZE as u64;
    if rest != 0 {
        file.set_len(size - rest)?;
    }
    Ok(size)
}

/// The records that count these names once each.
fn records_of(alloc: Global, names: &[String]) -> Result<Vec<u8>, AllocError> {
    let mut records = Vec::new(alloc);
    for name in names {
        put_record(&mut records, name.as_bytes(), 1)?;
    }
    Ok(records)
}

/// Counts these names once more each in the file of that name.
fn count_in<R: Files<File = File> + AllocGlobal>(
    rt: &R,
    place: &str,
    umask: Option<u32>,
    names: &[String],
) -> Result<(), StatisticsError> {
    let mut file = locked(rt, place, umask)?;
    let size = cut_rest(&file)?;
    file.write_all(records_of(rt.alloc(), names)?.as_slice())?;
    match size > LONG {
        true => fold(rt, place, umask),
        false => Ok(()),
    }
}

/// Counts these names once more each, in a file that is made under this umask where it isn't there. A record that a full disk cut
/// short is taken away first.
pub fn count<R: Files<File = File> + AllocGlobal>(
    rt: &R,
    path: &str,
    umask: Option<u32>,
    names: &[String],
) -> Result<(), StatisticsError> {
    let place = place_in(rt, path, umask)?;
    count_in(rt, place.as_str(), umask, names)
}

/// What was counted so far in the folder of this path; nothing where there is no file.
pub fn counts_at<R: Files + AllocGlobal>(rt: &R, path: &str) -> Result<Counts, StatisticsError> {
    let place = place_of(rt.alloc(), path)?;
    match read_whole(rt, place.as_str()) {
        Ok(bytes) => Ok(Counts::read(rt.alloc(), bytes.as_slice())?),
        Err(error) if error.kind() == ErrorKind::NotFound => Ok(Counts::new(rt.alloc())),
        Err(_) => Err(StatisticsError::Device),
    }
}

/// When a counter moved last, in seconds since 1970; 0 where none did.
pub fn updated_at<R: Files + AllocGlobal>(rt: &R, path: &str) -> Result<u64, StatisticsError> {
    let place = place_of(rt.alloc(), path)?;
    match fs::metadata(rt, place.as_str()) {
        Ok(metadata) => Ok(u64::try_from(metadata.mtime()).unwrap_or(0)),
        Err(_) => Ok(0),
    }
}

/// Begins to count at 0 again, and notes that this was at that second since 1970.
pub fn zero<R: Files<File = File> + AllocGlobal>(
    rt: &R,
    path: &str,
    umask: Option<u32>,
    second: u64,
) -> Result<(), StatisticsError> {
    let place = place_in(rt, path, umask)?;
    let _file = locked(rt, place.as_str(), umask)?;
    let mut records = Vec::new(rt.alloc());
    put_record(&mut records, ZEROED.as_bytes(), second)?;
    replace(rt, place.as_str(), umask, records.as_slice())
}
