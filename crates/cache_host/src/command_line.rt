//! The command line that the host asks about.

use crate::fields::Fields;
use crate::host_error::HostError;
use base_files::{FileTime, Listed, OsBytes};
use cache_dir::CacheDir;
use cache_disk::time_of;
use cache_settings::{Key, Settings, Variables};
use std::alloc::Global;
use std::fs;
use std::os::unix::fs::MetadataExt;
use std::rt::Files;
use std::time::{SystemTime, UNIX_EPOCH};

/// By how many nanoseconds the times of files may be off where another machine gives them, and how many of a second are left then.
const OFF: u32 = 20_000_000;

const LEFT: i64 = 980_000_000;

/// A command line, with where it would run, and where this process keeps things.
#[derive(Drop)]
pub struct CommandLine {
    /// The folder of what is kept.
    pub folder: CacheDir,
    /// When it is asked about.
    pub moment: SystemTime,
    /// When the call began, by the clock that the times of files are of: what is changed from then on has this time or a later one.
    pub began: FileTime,
    /// Where the host puts a preprocessed text.
    pub text: String,
    /// Where it puts what a command printed on its standard error, and what a compile printed on its standard output. What lies there
    /// at the end it prints.
    pub errors: String,
    pub printed: String,
    /// Where a preprocessor is to write a list of the files that it read.
    pub list: String,
    pub executable: String,
    pub dir: OsBytes,
    /// The words after the executable.
    pub words: Listed<OsBytes>,
    /// Its variables. `PWD` is there only where it names the folder.
    pub env: Listed<(OsBytes, OsBytes)>,
    /// How far local clocks are from UTC now, as the rule of a zone.
    pub zone: String,
    /// What a user sets.
    pub settings: Settings,
}

/// The variables of a command line.
#[derive(Clone, Copy)]
pub struct LineVariables<'a> {
    pairs: &'a [(OsBytes, OsBytes)],
}

impl<'a> Variables for LineVariables<'a> {
    fn value_of(&self, name: &str) -> Option<&str> {
        let pair = self
            .pairs
            .iter()
            .find(|pair| pair.0.as_bytes() == name.as_bytes())?;
        match str::from_utf8(pair.1.as_bytes()) {
            Ok(value) if !value.is_empty() => Some(value),
            _ => None,
        }
    }
}

/// When the host made the file of that path, which nothing was written into yet. That clock goes on by the ticks of the kernel, so it may be
/// well before the other one. Where it can't be read, at a moment before which no file was changed.
fn made_at<R: Files>(rt: &R, path: &str) -> FileTime {
    match fs::metadata(rt, path) {
        Ok(found) => time_of(found.mtime(), found.mtime_nsec()),
        Err(_) => FileTime::from_seconds(0),
    }
}

/// Whether these are paths of one folder.
fn are_of_one<R: Files>(rt: &R, one: &str, other: &str) -> bool {
    match (fs::metadata(rt, one), fs::metadata(rt, other)) {
        (Ok(one), Ok(other)) => one.dev() == other.dev() && one.ino() == other.ino(),
        _ => false,
    }
}

/// Whether a variable is a `PWD` that names another folder than the call's.
fn names_other_folder<R: Files>(rt: &R, dir: &OsBytes, name: &OsBytes, value: &OsBytes) -> bool {
    if !matches!(name.as_bytes(), b"PWD") || value == dir {
        return false;
    }
    match (
        str::from_utf8(value.as_bytes()),
        str::from_utf8(dir.as_bytes()),
    ) {
        (Ok(asked), Ok(own)) => !asked.starts_with('/') || !are_of_one(rt, asked, own),
        _ => false,
    }
}

/// The variables of a call in that folder, but for a `PWD` that names another one, as in a recipe of a Make that was called with `-C`: compilers and
/// assemblers don't take it.
fn own_variables<R: Files + AllocGlobal>(
    rt: &R,
    dir: &OsBytes,
    pairs: Listed<(OsBytes, OsBytes)>,
) -> Result<Listed<(OsBytes, OsBytes)>, HostError> {
    let mut env = Listed::new(rt.alloc());
    for (name, value) in pairs.into_vec() {
        if !names_other_folder(rt, dir, &name, &value) {
            env.push((name, value))?;
        }
    }
    Ok(env)
}

impl CommandLine {
    /// The command line in the message, at that moment, before the host does anything for it. Nothing is set yet.
    pub fn read<R: Files + AllocGlobal>(
        rt: &R,
        message: &[u8],
        moment: SystemTime,
    ) -> Result<CommandLine, HostError> {
        let alloc = rt.alloc();
        let mut fields = Fields::of(message);
        let path = fields.text(alloc)?;
        let text = fields.text(alloc)?;
        let errors = fields.text(alloc)?;
        let printed = fields.text(alloc)?;
        let list = fields.text(alloc)?;
        let own = fields.text(alloc)?;
        let executable = fields.text(alloc)?;
        let dir = fields.bytes(alloc)?;
        let words = fields.words(alloc)?;
        let env = own_variables(rt, &dir, fields.pairs(alloc)?)?;
        let zone = fields.text(alloc)?;
        Ok(CommandLine {
            folder: CacheDir::new(path, own),
            moment,
            began: made_at(rt, errors.as_str()),
            text,
            errors,
            printed,
            list,
            executable,
            dir,
            words,
            env,
            zone,
            settings: Settings::new(alloc),
        })
    }

    /// Its variables.
    pub fn variables(&self) -> LineVariables<'_> {
        LineVariables {
            pairs: self.env.as_slice(),
        }
    }

    /// Takes what a user sets: where things are kept and how much, and the rest.
    pub fn take_settings(&mut self, alloc: Global, settings: Settings) -> Result<(), HostError> {
        let dir = settings.value_of(Key::CacheDir);
        if !dir.is_empty() {
            self.folder.path = String::from_str(alloc, dir)?;
        }
        self.folder.limit = settings.max_size();
        self.folder.is_read_only = settings.is_on(Key::ReadOnly);
        self.folder.umask = settings.umask();
        self.settings = settings;
        Ok(())
    }

    /// The moment in whole seconds since the start of 1970 in UTC, and 0 where it was before.
    pub fn second(&self) -> i64 {
        let Ok(since) = self.moment.duration_since(UNIX_EPOCH) else {
            return 0;
        };
        i64::try_from(since.as_secs()).unwrap_or(i64::MAX)
    }

    /// Until when something must have been changed last so that it's certain to have been the same since the call began, also where the clock
    /// of its file system isn't this machine's.
    pub fn settled_before(&self) -> FileTime {
        let seconds = self.began.seconds;
        match self.began.nanoseconds.checked_sub(OFF) {
            Some(nanoseconds) => time_of(seconds, i64::from(nanoseconds)),
            None => time_of(seconds.saturating_sub(1), LEFT),
        }
    }

    /// The value of a variable, or nothing.
    pub fn value_of(&self, name: &[u8]) -> &[u8] {
        for pair in self.env.as_slice() {
            if pair.0.as_bytes() == name {
                return pair.1.as_bytes();
            }
        }
        &[]
    }
}
