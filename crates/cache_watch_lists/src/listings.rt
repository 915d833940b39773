//! Which names aren't in a folder, by one listing in place of a look at each: of the names that are looked for in many folders most are in one
//! of them alone.
//!
//! A look finds more than what is listed where letters count as the same large or small, or where a name has other forms too, as on some file
//! systems for non-ASCII letters. So a listing says only what certainly isn't there, and only of names in plain letters.

use crate::mounts::TrustedDevices;
use base_files::FileTime;
use cache_disk::State;
use std::alloc::{AllocError, Global};
use std::collections::HashSet;
use std::fs;
use std::fs::Metadata;
use std::os::unix::fs::MetadataExt;
use std::rt::Files;

/// From how many looks in vain on a folder is listed. They show too that it can be searched: where it can't, a look fails, and a list may not.
const LOOKS: u64 = 3;

/// For how many bytes of a folder there must have been a look in vain: a large one is listed only where it is asked for much. A look takes as
/// long as some five names of a list, and a name some 40 bytes; but what was looked for in vain thrice is mostly looked for a hundred times.
const BYTES: u64 = 2048;

/// How many bytes a name in a folder has at most: longer ones can't be looked up.
const LONGEST: usize = 255;

/// A name in plain letters: a look finds what is listed with the same letters, large or small, or nothing.
#[derive(Drop)]
pub struct PlainName<'n> {
    /// What it has up to the first slash.
    first: &'n str,
    /// That in small letters, where it has large ones.
    small: Option<String>,
}

/// Whether each of these bytes has no meaning but itself: others have one on some file systems, as in `LONGNA~1.H`.
fn are_plain(name: &[u8]) -> bool {
    for byte in name {
        if !matches!(byte, b'a'..=b'z' | b'A'..=b'Z' | b'0'..=b'9' | b'_' | b'-' | b'+' | b'.' | b'/')
        {
            return false;
        }
    }
    true
}

/// Whether one of these bytes is a large letter.
fn has_large(name: &[u8]) -> bool {
    for byte in name {
        if matches!(byte, b'A'..=b'Z') {
            return true;
        }
    }
    false
}

impl<'n> PlainName<'n> {
    /// That name of a path below a folder. None where it isn't plain, or a step of the path itself.
    pub fn of(alloc: Global, name: &'n str) -> Result<Option<PlainName<'n>>, AllocError> {
        if name.len() > LONGEST || !are_plain(name.as_bytes()) {
            return Ok(None);
        }
        let first = match name.split_once('/') {
            Some((first, _)) => first,
            None => name,
        };
        if first.is_empty() || first.starts_with('.') || first.ends_with('.') {
            return Ok(None);
        }
        let small = match has_large(first.as_bytes()) {
            true => Some(first.to_ascii_lowercase(alloc)?),
            false => None,
        };
        Ok(Some(PlainName { first, small }))
    }

    /// What it has up to the first slash, in small letters.
    fn small(&self) -> &str {
        match &self.small {
            Some(small) => small.as_str(),
            None => self.first,
        }
    }
}

/// Which folders may be listed: those on file systems that are trusted, and that were changed last before a moment, so that each later change
/// gives them another time.
#[derive(Drop)]
pub struct Listings {
    before: FileTime,
    devices: TrustedDevices,
}

impl Listings {
    /// Those of a call that began at that moment.
    pub fn new(before: FileTime) -> Listings {
        Listings {
            before,
            devices: TrustedDevices::new(),
        }
    }

    /// Whether that folder may be listed. One whose time has no part of a second may be changed again within it.
    fn may_list<R: Files + AllocGlobal>(
        &mut self,
        rt: &R,
        folder: &Metadata,
    ) -> Result<bool, AllocError> {
        match folder.ctime_nsec() != 0 && State::of(folder).is_before(self.before) {
            true => self.devices.have(rt, folder.dev()),
            false => Ok(false),
        }
    }
}

/// The names in a folder, in small letters. None where one isn't ASCII, or the folder can't be listed.
fn names_in<R: Files + AllocGlobal>(
    rt: &R,
    path: &str,
) -> Result<Option<HashSet<String>>, AllocError> {
    let Ok(entries) = fs::read_dir(&rt, path) else {
        return Ok(None);
    };
    let mut names = HashSet::new(rt.alloc());
    for entry in entries {
        match entry {
            Ok(entry) if entry.file_name().is_ascii() => {
                names.insert(entry.file_name().to_ascii_lowercase(rt.alloc())?)?;
            }
            _ => return Ok(None),
        }
    }
    Ok(Some(names))
}

/// What is known of the names in a folder.
#[derive(Drop)]
pub(crate) struct Listing {
    /// How often a look found nothing.
    in_vain: u64,
    /// How often it must have for the folder to be listed.
    due: u64,
    /// The names in it, in small letters, once it was listed.
    names: Option<HashSet<String>>,
}

impl Listing {
    /// Nothing was looked for yet.
    pub(crate) fn new() -> Listing {
        Listing {
            in_vain: 0,
            due: LOOKS,
            names: None,
        }
    }

    /// Takes it that a look found nothing.
    pub(crate) fn take_in_vain(&mut self) {
        self.in_vain = self.in_vain.saturating_add(1);
    }

    /// Lists the folder of that path, if it may be listed and isn't too large for so few looks. It isn't listed a second time. What is listed
    /// while the folder is changed doesn't count: a file that takes another one's place may be listed under neither name then.
    fn list<R: Files + AllocGlobal>(
        &mut self,
        rt: &R,
        path: &str,
        listings: &mut Listings,
    ) -> Result<(), AllocError> {
        self.due = u64::MAX;
        let Ok(folder) = fs::metadata(rt, path) else {
            return Ok(());
        };
        let due = folder.len() / BYTES;
        if due > self.in_vain {
            self.due = due;
            return Ok(());
        }
        if !listings.may_list(rt, &folder)? {
            return Ok(());
        }
        let names = names_in(rt, path)?;
        if State::at(rt, path).is_ok_and(|state| state == State::of(&folder)) {
            self.names = names;
        }
        Ok(())
    }

    /// Whether it is certain, without a look, that nothing lies under a name in the folder of that path. The folder is listed for that where
    /// enough was looked for in vain.
    pub(crate) fn lacks<R: Files + AllocGlobal>(
        &mut self,
        rt: &R,
        path: &str,
        name: &PlainName<'_>,
        listings: &mut Listings,
    ) -> Result<bool, AllocError> {
        if self.in_vain >= self.due {
            self.list(rt, path, listings)?;
        }
        Ok(match &self.names {
            Some(names) => !names.contains(name.small()),
            None => false,
        })
    }
}
