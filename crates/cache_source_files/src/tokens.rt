//! Tokens: what stands for the contents of a header. A token has the digest of the contents, and of the words that a session looks for those
//! that occur in them. It is recognized by the state of the file, so that an unchanged header isn't read.

use base_blake2::Blake2b256;
use base_files::{FileTime, OsBytes};
use base_formats::{put_framed, read_framed};
use cache_disk::State;
use cache_watch_lists::TrustedDevices;
use cache_written_lines::has_any;
use ckeys_base::Digest;
use memchr::memmem;
use std::alloc::{AllocError, Global};
use std::collections::{BTreeMap, BTreeSet};
use std::fs::Metadata;
use std::os::unix::fs::MetadataExt;
use std::rt::Files;

/// What a token begins with. A file that begins so has none.
const MARK: &[u8] = b"\0token ";

/// The words that a session, or what loads its files, looks for in contents.
const WORDS: [&str; 5] = ["__TIME__", "__DATE__", "__TIMESTAMP__", "#embed", "# embed"];

/// Parts of these words, of which each has one: where none of these parts occurs, as in most files, no word does.
const PARTS: [&str; 3] = ["__TIME", "__DATE__", "embed"];

/// How many tokens are kept beside a manifest.
const MOST: usize = 20_000;

/// How far the times of files may be late against the clock where they have no parts of a second.
const COARSE: i64 = 2;

/// Whether the text is in these contents.
fn has(contents: &[u8], text: &str) -> bool {
    memmem::find(contents, text.as_bytes()).is_some()
}

/// The token of these contents. None where they look like one.
pub fn token_of(alloc: Global, contents: &[u8]) -> Result<Option<OsBytes>, AllocError> {
    if contents.starts_with(MARK) {
        return Ok(None);
    }
    let mut digest: Digest<Blake2b256> = Digest::new();
    digest.update(contents);
    let mut token = Vec::with_capacity(alloc, 128)?;
    token.extend_from_slice(MARK)?;
    token.extend_from_slice(digest.finish(alloc)?.as_bytes())?;
    if has_any(contents, &PARTS) {
        for word in &WORDS {
            if has(contents, word) {
                token.push(b' ')?;
                token.extend_from_slice(word.as_bytes())?;
            }
        }
    }
    Ok(Some(OsBytes::from_vec(token)))
}

/// The token of a file in a state.
#[derive(Drop)]
pub(crate) struct Noted {
    state: State,
    token: OsBytes,
}

impl Noted {
    /// The token, where the file is in that state.
    fn token_in(&self, state: State) -> Option<&OsBytes> {
        match self.state == state {
            true => Some(&self.token),
            false => None,
        }
    }
}

/// Tokens by the paths of their files.
#[derive(Drop)]
pub struct Tokens {
    noted: BTreeMap<OsBytes, Noted>,
    /// Those that other calls in this folder noted, once they were looked up.
    pub(crate) shared: Option<BTreeMap<OsBytes, Noted>>,
    /// Whether one was noted that these lack.
    pub(crate) are_unshared: bool,
    /// How many files of a manifest were in states that this call doesn't know.
    unknown: usize,
    /// The paths of files whose contents a session has as they are.
    whole: BTreeSet<OsBytes>,
    /// The devices of file systems on which a file of the same state has the same contents.
    devices: TrustedDevices,
    /// Whether there are others than those that were read.
    pub are_new: bool,
}

/// Whether a file was changed long enough before that moment that each later change gives it another time.
pub(crate) fn is_settled(found: &Metadata, before: FileTime) -> bool {
    let before = match found.ctime_nsec() {
        0 => FileTime::from_seconds(before.seconds.saturating_sub(COARSE)),
        _ => before,
    };
    State::of(found).is_before(before)
}

/// Adds the row of a file.
fn put_row(path: &OsBytes, noted: &Noted, rows: &mut Vec<u8>) -> Result<(), AllocError> {
    put_framed(rows, path.as_bytes())?;
    noted.state.put(rows)?;
    put_framed(rows, noted.token.as_bytes())
}

/// Adds the token of the row at the front of these bytes, and returns what comes after it.
fn add_row<'a>(
    alloc: Global,
    bytes: &'a [u8],
    tokens: &mut BTreeMap<OsBytes, Noted>,
) -> Result<Option<&'a [u8]>, AllocError> {
    let Ok((path, rest)) = read_framed(bytes) else {
        return Ok(None);
    };
    let Ok((state, rest)) = State::read(rest) else {
        return Ok(None);
    };
    let Ok((token, rest)) = read_framed(rest) else {
        return Ok(None);
    };
    let token = OsBytes::from_slice(alloc, token)?;
    let path = OsBytes::from_slice(alloc, path)?;
    tokens.insert(path, Noted { state, token })?;
    Ok(Some(rest))
}

/// Adds the tokens of these rows.
pub(crate) fn add_rows(
    alloc: Global,
    bytes: &[u8],
    tokens: &mut BTreeMap<OsBytes, Noted>,
) -> Result<(), AllocError> {
    let mut rest = bytes;
    for _ in 0..MOST {
        let Some(after) = add_row(alloc, rest, tokens)? else {
            break;
        };
        rest = after;
    }
    Ok(())
}

impl Tokens {
    /// None are known.
    pub fn new(alloc: Global) -> Tokens {
        Tokens {
            noted: BTreeMap::new(alloc),
            shared: None,
            are_unshared: false,
            unknown: 0,
            whole: BTreeSet::new(alloc),
            devices: TrustedDevices::new(),
            are_new: false,
        }
    }

    /// Takes a path whose contents a session has as they are.
    pub fn take_whole(&mut self, path: OsBytes) -> Result<(), AllocError> {
        self.whole.insert(path)?;
        Ok(())
    }

    /// Whether a session has the contents of that path as they are.
    pub fn has_whole(&self, path: &OsBytes) -> bool {
        self.whole.contains(path)
    }

    /// Counts a file of a manifest in a state that this call doesn't know, and says how many there were.
    pub(crate) fn count_unknown(&mut self) -> usize {
        self.unknown = self.unknown.saturating_add(1);
        self.unknown
    }

    /// The token of the file of that path, where it is in the state in which it was.
    pub fn get(&self, path: &OsBytes, found: &Metadata) -> Option<&OsBytes> {
        self.noted.get(path)?.token_in(State::of(found))
    }

    /// The token that another call in this folder noted of the file of that path, where it is in the state in which it was.
    pub(crate) fn get_shared(&self, path: &OsBytes, found: &Metadata) -> Option<&OsBytes> {
        let shared = self.shared.as_ref()?;
        shared.get(path)?.token_in(State::of(found))
    }

    /// Whether a file was changed last before that moment, at which the call began, and each later change gives it another time.
    pub(crate) fn is_same_since<R: Files + AllocGlobal>(
        &mut self,
        rt: &R,
        found: &Metadata,
        began: FileTime,
    ) -> Result<bool, AllocError> {
        match is_settled(found, began) {
            true => self.devices.have(rt, found.dev()),
            false => Ok(false),
        }
    }

    /// Notes the token of a file, where it can be known again, in a call that began at that moment.
    pub fn note<R: Files + AllocGlobal>(
        &mut self,
        rt: &R,
        path: &OsBytes,
        found: &Metadata,
        token: &OsBytes,
        began: FileTime,
    ) -> Result<(), AllocError> {
        let has_room = self.noted.len() < MOST;
        if !has_room || !self.is_same_since(rt, found, began)? {
            return Ok(());
        }
        let state = State::of(found);
        let token = token.clone()?;
        self.noted.insert(path.clone()?, Noted { state, token })?;
        self.are_new = true;
        Ok(())
    }

    /// Takes the rows of these bytes: of each file the path, its state and its token.
    pub fn take_rows(&mut self, alloc: Global, bytes: &[u8]) -> Result<(), AllocError> {
        add_rows(alloc, bytes, &mut self.noted)
    }

    /// The rows of all tokens.
    pub fn rows(&self, alloc: Global) -> Result<Vec<u8>, AllocError> {
        let mut rows = Vec::new(alloc);
        for (path, noted) in self.noted.iter() {
            put_row(path, noted, &mut rows)?;
        }
        Ok(rows)
    }

    /// The rows for other calls in this folder: of all tokens, and after them of those that other calls noted of other files, as long as these aren't
    /// more than so many.
    pub(crate) fn rows_to_share(&self, alloc: Global, most: usize) -> Result<Vec<u8>, AllocError> {
        let mut rows = self.rows(alloc)?;
        let Some(shared) = &self.shared else {
            return Ok(rows);
        };
        if shared.len() > most {
            return Ok(rows);
        }
        for (path, noted) in shared.iter() {
            if !self.noted.contains_key(path) {
                put_row(path, noted, &mut rows)?;
            }
        }
        Ok(rows)
    }
}
