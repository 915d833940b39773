//! What lies under a path of the disk, and in which state.

use base_files::FileTime;
use base_formats::{ReadFault, put_number, read_number};
use std::alloc::AllocError;
use std::fs::Metadata;
use std::io::ErrorKind;
use std::os::unix::fs::MetadataExt;
use std::rt::Files;
use std::{fs, io};

/// The folder of a path; nothing where it is a name alone.
pub fn folder_of(path: &[u8]) -> &[u8] {
    match path.iter().rposition(|byte| *byte == b'/') {
        Some(at) => path.get(..at).unwrap_or(&[]),
        None => &[],
    }
}

/// What lies under a path.
#[derive(Clone, Copy, PartialEq, Eq)]
pub enum Found {
    Nothing,
    File,
    /// A folder, or what is neither.
    Other,
}

impl Found {
    /// Its number in a layout.
    pub fn code(self) -> u64 {
        match self {
            Found::Nothing => 0,
            Found::File => 1,
            Found::Other => 2,
        }
    }
}

/// Whether an error says that nothing lies there.
pub fn is_nothing(error: &io::Error) -> bool {
    matches!(error.kind(), ErrorKind::NotFound | ErrorKind::NotADirectory)
}

/// What it is that was found.
fn kind_of(metadata: &Metadata) -> Found {
    if metadata.is_file() {
        Found::File
    } else {
        Found::Other
    }
}

/// What is at a path. None where that can't be determined: it can't be read, or it is a link that leads nowhere.
pub fn found_at<R: Files>(rt: &R, path: &str) -> Option<Found> {
    match fs::symlink_metadata(rt, path) {
        Ok(metadata) if metadata.is_symlink() => {
            let metadata = fs::metadata(rt, path).ok()?;
            Some(kind_of(&metadata))
        }
        Ok(metadata) => Some(kind_of(&metadata)),
        Err(error) if is_nothing(&error) => Some(Found::Nothing),
        Err(_) => None,
    }
}

/// Which file or folder lies under a path, and when it was changed.
#[derive(Clone, Copy, PartialEq, Eq)]
pub struct State {
    device: u64,
    number: u64,
    size: u64,
    changed: FileTime,
    moved: FileTime,
}

/// A moment by its seconds and nanoseconds.
pub fn time_of(seconds: i64, nanoseconds: i64) -> FileTime {
    match FileTime::new(seconds, u32::try_from(nanoseconds).unwrap_or(0)) {
        Some(time) => time,
        None => FileTime::from_seconds(seconds),
    }
}

/// Whether the one moment comes before the other.
pub fn is_before(one: FileTime, other: FileTime) -> bool {
    one.seconds < other.seconds
        || (one.seconds == other.seconds && one.nanoseconds < other.nanoseconds)
}

/// Adds a moment.
fn put_time(out: &mut Vec<u8>, time: FileTime) -> Result<(), AllocError> {
    put_number(out, time.seconds.cast_unsigned())?;
    put_number(out, u64::from(time.nanoseconds))
}

/// The time at the front of these bytes, and what comes after it.
fn read_time(bytes: &[u8]) -> Result<(FileTime, &[u8]), ReadFault> {
    let (seconds, rest) = read_number(bytes)?;
    let (nanoseconds, rest) = read_number(rest)?;
    let nanoseconds = i64::try_from(nanoseconds).unwrap_or(0);
    Ok((time_of(seconds.cast_signed(), nanoseconds), rest))
}

impl State {
    /// The state of what is at a path, with all links followed.
    pub fn at<R: Files>(rt: &R, path: &str) -> io::Result<State> {
        Ok(State::of(&fs::metadata(rt, path)?))
    }

    /// That of what was found.
    pub fn of(metadata: &Metadata) -> State {
        State {
            device: metadata.dev(),
            number: metadata.ino(),
            size: metadata.len(),
            changed: time_of(metadata.mtime(), metadata.mtime_nsec()),
            moved: time_of(metadata.ctime(), metadata.ctime_nsec()),
        }
    }

    /// Whether it was changed last before that moment.
    pub fn is_before(self, moment: FileTime) -> bool {
        is_before(self.changed, moment) && is_before(self.moved, moment)
    }

    /// Whether it is the same file or folder, changed or not.
    pub fn is_same(self, other: State) -> bool {
        self.device == other.device && self.number == other.number
    }

    /// Adds it.
    pub fn put(self, out: &mut Vec<u8>) -> Result<(), AllocError> {
        put_number(out, self.device)?;
        put_number(out, self.number)?;
        put_number(out, self.size)?;
        put_time(out, self.changed)?;
        put_time(out, self.moved)
    }

    /// The state at the front of these bytes, and what comes after it.
    pub fn read(bytes: &[u8]) -> Result<(State, &[u8]), ReadFault> {
        let (device, rest) = read_number(bytes)?;
        let (number, rest) = read_number(rest)?;
        let (size, rest) = read_number(rest)?;
        let (changed, rest) = read_time(rest)?;
        let (moved, rest) = read_time(rest)?;
        let state = State {
            device,
            number,
            size,
            changed,
            moved,
        };
        Ok((state, rest))
    }
}
