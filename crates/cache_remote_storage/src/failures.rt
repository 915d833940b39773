//! A server that is out of reach isn't asked for a while: a file in the folder of what is kept says how often it failed in a row, and when last.

use base_formats::{put_framed, put_number, read_framed, read_number};
use cache_dir::digest_of;
use cache_disk::{give_rights, read_whole};
use cache_host::{CommandLine, HostError};
use cache_settings::Key;
use std::alloc::Global;
use std::fs;
use std::rt::Files;

/// How many failures in a row are enough.
const MOST: u64 = 3;

/// For how many seconds it isn't asked then.
const REST: u64 = 60;

/// What is noted of a server.
#[derive(Clone, Copy)]
pub(crate) struct Failures {
    /// How often it failed in a row.
    count: u64,
    /// When it did so last, in seconds since 1970.
    second: u64,
}

/// The second in which the call began.
fn second_of(line: &CommandLine) -> u64 {
    u64::try_from(line.second()).unwrap_or(0)
}

/// Where it is noted.
fn place(alloc: Global, line: &CommandLine) -> Result<String, HostError> {
    let path = line.folder.path.as_str();
    Ok(format!(in alloc; "{path}/remote_failures")?)
}

/// What stands for the server that is set.
fn name_of(alloc: Global, line: &CommandLine) -> Result<String, HostError> {
    let storage = line.settings.value_of(Key::RemoteStorage);
    Ok(digest_of(alloc, storage.as_bytes())?)
}

/// What these bytes say of the server of that name; nothing where they are of another one.
fn read(bytes: &[u8], name: &str) -> Option<Failures> {
    let (own, rest) = read_framed(bytes).ok()?;
    let (count, rest) = read_number(rest).ok()?;
    let (second, _) = read_number(rest).ok()?;
    match own == name.as_bytes() {
        true => Some(Failures { count, second }),
        false => None,
    }
}

impl Failures {
    /// What is noted of the server that is set.
    pub(crate) fn noted<R: Files + AllocGlobal>(
        rt: &R,
        line: &CommandLine,
    ) -> Result<Failures, HostError> {
        let none = Failures {
            count: 0,
            second: 0,
        };
        let place = place(rt.alloc(), line)?;
        let Ok(bytes) = read_whole(rt, place.as_str()) else {
            return Ok(none);
        };
        let name = name_of(rt.alloc(), line)?;
        Ok(read(bytes.as_slice(), name.as_str()).unwrap_or(none))
    }

    /// Whether it isn't asked now.
    pub(crate) fn are_too_many(self, line: &CommandLine) -> bool {
        self.count >= MOST && second_of(line).abs_diff(self.second) < REST
    }

    /// Notes one more.
    pub(crate) fn add<R: Files + AllocGlobal>(
        self,
        rt: &R,
        line: &CommandLine,
    ) -> Result<(), HostError> {
        let alloc = rt.alloc();
        let place = place(alloc, line)?;
        let count = self.count.saturating_add(1);
        let bytes = bytes_of(
            alloc,
            name_of(alloc, line)?.as_str(),
            count,
            second_of(line),
        )?;
        let _ = fs::write(rt, place.as_str(), bytes.as_slice());
        let _ = give_rights(rt, place.as_str(), line.folder.umask);
        Ok(())
    }

    /// Notes that there are none any more.
    pub(crate) fn end<R: Files + AllocGlobal>(
        self,
        rt: &R,
        line: &CommandLine,
    ) -> Result<(), HostError> {
        if self.count != 0 {
            let place = place(rt.alloc(), line)?;
            let _ = fs::remove_file(rt, place.as_str());
        }
        Ok(())
    }
}

/// The bytes of the file.
fn bytes_of(alloc: Global, name: &str, count: u64, second: u64) -> Result<Vec<u8>, HostError> {
    let mut bytes = Vec::new(alloc);
    put_framed(&mut bytes, name.as_bytes())?;
    put_number(&mut bytes, count)?;
    put_number(&mut bytes, second)?;
    Ok(bytes)
}
