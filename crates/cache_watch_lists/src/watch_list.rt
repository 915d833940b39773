//! What to watch of a text: where its compiler looked for files, and what lay there.
//!
//! Its bytes are the folder of the call, the folders in which something was looked for, and files, each list after its count. A folder
//! has its path, its state, when its names are looked at, its twin, and its names with what was there, all of them after their length; a
//! file has its path, its state and the digest of its contents. docs/FORMATS.md has the layout.

use crate::listings::{Listing, Listings, PlainName};
use crate::unwatched::Unwatched;
use base_files::{FileTime, OsBytes};
use base_formats::{ReadFault, put_framed, put_number, read_framed, read_number};
use cache_dir::digest_of;
use cache_disk::{Found, State, found_at, read_of_size};
use std::alloc::{AllocError, Global};
use std::collections::BTreeSet;
use std::fs;
use std::rt::Files;

/// When the names of a folder are looked at.
#[derive(Clone, Copy, PartialEq, Eq)]
pub(crate) enum Looking {
    /// In each case: it was changed since the call began, or about then.
    Always,
    /// Where its state is another one.
    Settled,
}

impl Looking {
    /// That of a folder in a state: settled where it was changed last before that moment.
    pub(crate) fn of(state: State, before: FileTime) -> Looking {
        match state.is_before(before) {
            true => Looking::Settled,
            false => Looking::Always,
        }
    }

    /// Its number in a layout.
    pub(crate) fn code(self) -> u64 {
        match self {
            Looking::Always => 0,
            Looking::Settled => 1,
        }
    }
}

/// A folder in a list.
#[derive(Clone, Copy)]
pub(crate) struct FolderRow<'a> {
    pub(crate) path: &'a [u8],
    pub(crate) state: State,
    /// When its names are looked at, by its number.
    pub(crate) looking: u64,
    /// The path of the folder that it must be the same as, since the compiler left it out as one that it has already; empty where it needn't.
    pub(crate) twin: &'a [u8],
    /// Names with what was there.
    pub(crate) names: &'a [u8],
}

impl FolderRow<'_> {
    /// Adds it.
    pub(crate) fn put(&self, out: &mut Vec<u8>) -> Result<(), AllocError> {
        put_framed(out, self.path)?;
        self.state.put(out)?;
        put_number(out, self.looking)?;
        put_framed(out, self.twin)?;
        put_framed(out, self.names)
    }
}

/// The folder at the front of these bytes, and what comes after it.
pub(crate) fn folder_ahead(bytes: &[u8]) -> Result<(FolderRow<'_>, &[u8]), ReadFault> {
    let (path, rest) = read_framed(bytes)?;
    let (state, rest) = State::read(rest)?;
    let (looking, rest) = read_number(rest)?;
    let (twin, rest) = read_framed(rest)?;
    let (names, rest) = read_framed(rest)?;
    let row = FolderRow {
        path,
        state,
        looking,
        twin,
        names,
    };
    Ok((row, rest))
}

/// A file in a list, or a folder with the digest of the names in it.
#[derive(Clone, Copy)]
pub struct FileRow<'a> {
    pub path: &'a [u8],
    pub state: State,
    pub digest: &'a [u8],
}

impl FileRow<'_> {
    /// Adds it.
    pub fn put(&self, out: &mut Vec<u8>) -> Result<(), AllocError> {
        put_framed(out, self.path)?;
        self.state.put(out)?;
        put_framed(out, self.digest)
    }
}

/// The file at the front of these bytes, and what comes after it.
pub(crate) fn file_ahead(bytes: &[u8]) -> Result<(FileRow<'_>, &[u8]), ReadFault> {
    let (path, rest) = read_framed(bytes)?;
    let (state, rest) = State::read(rest)?;
    let (digest, rest) = read_framed(rest)?;
    let row = FileRow {
        path,
        state,
        digest,
    };
    Ok((row, rest))
}

/// A folder in which names were looked for.
#[derive(Drop)]
pub struct Folder {
    pub state: State,
    /// The names, each preceded by its length and followed by the number of what was there.
    names: Vec<u8>,
    /// The path of the folder that it must be the same as; empty where it needn't.
    pub twin: String,
    listing: Listing,
}

impl Folder {
    /// One in that state, in which nothing was looked for yet.
    pub fn new(alloc: Global, state: State) -> Folder {
        Folder {
            state,
            names: Vec::new(alloc),
            twin: String::new(alloc),
            listing: Listing::new(),
        }
    }

    /// Whether it is certain, without a look, that nothing lies under a name in this folder, of that path.
    pub fn lacks<R: Files + AllocGlobal>(
        &mut self,
        rt: &R,
        path: &str,
        name: &PlainName<'_>,
        listings: &mut Listings,
    ) -> Result<bool, AllocError> {
        self.listing.lacks(rt, path, name, listings)
    }

    /// Adds a name with what lies there.
    pub fn note(&mut self, name: &str, found: Found) -> Result<(), AllocError> {
        if found == Found::Nothing {
            self.listing.take_in_vain();
        }
        put_framed(&mut self.names, name.as_bytes())?;
        put_number(&mut self.names, found.code())
    }

    /// Adds the folder of that path, for a call that began at that moment.
    pub fn put(&self, path: &str, before: FileTime, out: &mut Vec<u8>) -> Result<(), AllocError> {
        let row = FolderRow {
            path: path.as_bytes(),
            state: self.state,
            looking: Looking::of(self.state, before).code(),
            twin: self.twin.as_bytes(),
            names: self.names.as_slice(),
        };
        row.put(out)
    }
}

/// A path as text.
pub(crate) fn text_of(path: &[u8]) -> Result<&str, Unwatched> {
    match str::from_utf8(path) {
        Ok(path) => Ok(path),
        Err(_) => Err(Unwatched::Path),
    }
}

/// What lies under a name in a folder, as `found_at` says.
fn found_in<R: Files + AllocGlobal>(
    rt: &R,
    folder: &str,
    name: &str,
    listing: &mut Listing,
    listings: &mut Listings,
) -> Result<Option<Found>, Unwatched> {
    if let Some(plain) = PlainName::of(rt.alloc(), name)? {
        if listing.lacks(rt, folder, &plain, listings)? {
            return Ok(Some(Found::Nothing));
        }
    }
    let path = format!(in rt.alloc(); "{folder}/{name}")?;
    let found = found_at(rt, path.as_str());
    if let Some(Found::Nothing) = found {
        listing.take_in_vain();
    }
    Ok(found)
}

/// Whether the same as then is still at the name at the front of these bytes, and what comes after that name.
fn name_holds<'a, R: Files + AllocGlobal>(
    rt: &R,
    folder: &str,
    names: &'a [u8],
    listing: &mut Listing,
    listings: &mut Listings,
) -> Result<(bool, &'a [u8]), Unwatched> {
    let (name, rest) = read_framed(names)?;
    let (code, rest) = read_number(rest)?;
    let holds = match found_in(rt, folder, text_of(name)?, listing, listings)? {
        Some(found) => found.code() == code,
        None => false,
    };
    Ok((holds, rest))
}

/// Whether under all names the same lies as then.
fn names_hold<R: Files + AllocGlobal>(
    rt: &R,
    folder: &str,
    names: &[u8],
    listings: &mut Listings,
) -> Result<bool, Unwatched> {
    let mut listing = Listing::new();
    let mut rest = names;
    // Each turn takes a byte at least.
    for _ in 0..names.len() {
        if rest.is_empty() {
            break;
        }
        let (holds, after) = name_holds(rt, folder, rest, &mut listing, listings)?;
        if !holds {
            return Ok(false);
        }
        rest = after;
    }
    Ok(true)
}

/// Whether a folder in that state is the same as its twin, where it has one.
fn is_as_twin<R: Files>(rt: &R, row: FolderRow<'_>, now: State) -> Result<bool, Unwatched> {
    match row.twin.is_empty() {
        true => Ok(true),
        false => Ok(now.is_same(State::at(rt, text_of(row.twin)?)?)),
    }
}

/// Whether the folder at the front of these bytes is as it was, as far as something was looked for in it: how often something was looked at for
/// that, and nothing where it isn't. And what comes after it.
fn folder_holds<'a, R: Files + AllocGlobal>(
    rt: &R,
    bytes: &'a [u8],
    listings: &mut Listings,
) -> Result<(Option<u64>, &'a [u8]), Unwatched> {
    let (row, rest) = folder_ahead(bytes)?;
    let path = text_of(row.path)?;
    let found = fs::metadata(rt, path)?;
    let now = State::of(&found);
    if !found.is_dir() || !is_as_twin(rt, row, now)? {
        return Ok((None, rest));
    }
    if row.looking == Looking::Settled.code() && now == row.state {
        return Ok((Some(0), rest));
    }
    match names_hold(rt, path, row.names, listings)? {
        true => Ok((Some(1), rest)),
        false => Ok((None, rest)),
    }
}

/// Adds a name.
fn add_name(alloc: Global, name: &str, names: &mut BTreeSet<OsBytes>) -> Result<(), Unwatched> {
    names.insert(OsBytes::from_slice(alloc, name.as_bytes())?)?;
    Ok(())
}

/// Adds the names in a folder.
fn add_names<R: Files + AllocGlobal>(
    rt: &R,
    path: &str,
    names: &mut BTreeSet<OsBytes>,
) -> Result<(), Unwatched> {
    let Ok(entries) = fs::read_dir(&rt, path) else {
        return Err(Unwatched::Device);
    };
    for entry in entries {
        let Ok(entry) = entry else {
            return Err(Unwatched::Device);
        };
        add_name(rt.alloc(), entry.file_name(), names)?;
    }
    Ok(())
}

/// The digest of names, as text.
fn digest_of_names(alloc: Global, names: &BTreeSet<OsBytes>) -> Result<String, Unwatched> {
    let mut row = Vec::new(alloc);
    for name in names.iter() {
        put_framed(&mut row, name.as_bytes())?;
    }
    Ok(digest_of(alloc, row.as_slice())?)
}

/// The digest of the names in a folder, as text.
fn names_in<R: Files + AllocGlobal>(rt: &R, path: &str) -> Result<String, Unwatched> {
    let mut names = BTreeSet::new(rt.alloc());
    add_names(rt, path, &mut names)?;
    digest_of_names(rt.alloc(), &names)
}

/// The digest of the contents of a file, as text, or that of the names in a folder.
pub fn digest_at<R: Files + AllocGlobal>(rt: &R, path: &str) -> Result<String, Unwatched> {
    let found = fs::metadata(rt, path)?;
    if found.is_dir() {
        return names_in(rt, path);
    }
    let contents = read_of_size(rt, path, found.len())?;
    Ok(digest_of(rt.alloc(), contents.as_slice())?)
}

/// Whether the file at the front of these bytes is as it was, and what comes after it, as `folder_holds` says. One in another state may have the
/// same contents.
fn file_holds<'a, R: Files + AllocGlobal>(
    rt: &R,
    bytes: &'a [u8],
) -> Result<(Option<u64>, &'a [u8]), Unwatched> {
    let (row, rest) = file_ahead(bytes)?;
    let path = text_of(row.path)?;
    if State::at(rt, path)? == row.state {
        return Ok((Some(0), rest));
    }
    match digest_at(rt, path)?.as_bytes() == row.digest {
        true => Ok((Some(1), rest)),
        false => Ok((None, rest)),
    }
}

/// Whether the folders at the front of these bytes are as they were, and what comes after them, as `folder_holds` says.
fn folders_hold<'a, R: Files + AllocGlobal>(
    rt: &R,
    bytes: &'a [u8],
    before: FileTime,
) -> Result<(Option<u64>, &'a [u8]), Unwatched> {
    let mut listings = Listings::new(before);
    let (count, mut rest) = read_number(bytes)?;
    let mut looks = 0u64;
    for _ in 0..count {
        let (found, after) = folder_holds(rt, rest, &mut listings)?;
        let Some(more) = found else {
            return Ok((None, after));
        };
        looks = looks.saturating_add(more);
        rest = after;
    }
    Ok((Some(looks), rest))
}

/// Whether the files ahead in these bytes are as they were, as `folder_holds` says.
fn files_hold<R: Files + AllocGlobal>(rt: &R, bytes: &[u8]) -> Result<Option<u64>, Unwatched> {
    let (count, mut rest) = read_number(bytes)?;
    let mut looks = 0u64;
    for _ in 0..count {
        let (found, after) = file_holds(rt, rest)?;
        let Some(more) = found else {
            return Ok(None);
        };
        looks = looks.saturating_add(more);
        rest = after;
    }
    match rest.is_empty() {
        true => Ok(Some(looks)),
        false => Ok(None),
    }
}

/// Whether all is as it was, for a call in that folder, as `folder_holds` says.
fn all_holds<R: Files + AllocGlobal>(
    rt: &R,
    dir: &[u8],
    list: &[u8],
    before: FileTime,
) -> Result<Option<u64>, Unwatched> {
    let (own, rest) = read_framed(list)?;
    if own != dir {
        return Ok(None);
    }
    let (found, rest) = folders_hold(rt, rest, before)?;
    let Some(folders) = found else {
        return Ok(None);
    };
    let Some(files) = files_hold(rt, rest)? else {
        return Ok(None);
    };
    Ok(Some(folders.saturating_add(files)))
}

/// How many folders and files had to be looked at, since they are in another state, where a call in that folder finds all files where the call
/// that made this list found them. Nothing where it doesn't, or that can't be determined. The call began at that moment.
pub fn looks_for<R: Files + AllocGlobal>(
    rt: &R,
    dir: &[u8],
    list: &[u8],
    before: FileTime,
) -> Result<Option<u64>, AllocError> {
    match all_holds(rt, dir, list, before) {
        Ok(looks) => Ok(looks),
        Err(Unwatched::Memory) => Err(AllocError),
        Err(_) => Ok(None),
    }
}

/// Whether a call in that folder, which began at that moment, finds all files where the call that made this list found them. False where that
/// can't be determined.
pub fn holds<R: Files + AllocGlobal>(
    rt: &R,
    dir: &[u8],
    list: &[u8],
    before: FileTime,
) -> Result<bool, AllocError> {
    Ok(looks_for(rt, dir, list, before)?.is_some())
}

/// The folder of the call whose list these bytes are.
pub(crate) fn folder_of(list: &[u8]) -> Result<&[u8], ReadFault> {
    Ok(read_framed(list)?.0)
}
