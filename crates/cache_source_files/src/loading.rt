//! Files that are loaded from the disk, and those that a text names.

use crate::headers::look_up_shared;
use crate::tokens::{Tokens, is_settled, token_of};
use base_files::{FileTime, Files as CallFiles, Metadata, OsBytes, join};
use base_snapshots::{LoadedFile, SnapshotFiles};
use cache_disk::{read_of_size, time_of};
use cache_host::{CommandLine, HostError, into_text};
use cache_written_lines::{Lying, NamedFile, NamedFiles, has_any, reads_as_file};
use memchr::memmem;
use std::alloc::Global;
use std::fs;
use std::io::ErrorKind;
use std::os::unix::fs::MetadataExt;
use std::rt::Files;

/// What a file has in it that takes in another one.
const EMBEDS: [&str; 2] = ["#embed", "# embed"];

/// How many headers in states that a call doesn't know are read before it looks for what other calls noted: that is a large file.
const FEW: usize = 8;

/// What the disk has under a path.
#[derive(Drop)]
enum OnDisk {
    /// A file of these contents.
    File(OsBytes, Metadata),
    /// Nothing, or something else.
    NoFile,
    /// That can't be determined.
    Unknown,
}

/// What the disk says of the file of that path, or what it has there in its place.
fn file_at<R: Files>(rt: &R, path: &str) -> Result<fs::Metadata, OnDisk> {
    match fs::metadata(rt, path) {
        Ok(found) if reads_as_file(&found) => Ok(found),
        Ok(_) => Err(OnDisk::NoFile),
        Err(error) if error.kind() == ErrorKind::NotFound => Err(OnDisk::NoFile),
        Err(_) => Err(OnDisk::Unknown),
    }
}

/// What a session is given about a file of that size.
fn metadata_of(found: &fs::Metadata, size: u64) -> Metadata {
    Metadata {
        size,
        mtime: time_of(found.mtime(), found.mtime_nsec()),
        ctime: time_of(found.ctime(), found.ctime_nsec()),
    }
}

/// Looks at the path.
fn look_at<R: Files + AllocGlobal>(rt: &R, path: &str) -> OnDisk {
    let found = match file_at(rt, path) {
        Ok(found) => found,
        Err(other) => return other,
    };
    let Ok(contents) = read_of_size(rt, path, found.len()) else {
        return OnDisk::Unknown;
    };
    let metadata = metadata_of(&found, contents.len() as u64);
    OnDisk::File(OsBytes::from_vec(contents), metadata)
}

/// The contents of what reads as a file under that path, where something does.
pub fn contents_at<R: Files + AllocGlobal>(rt: &R, path: &str) -> Option<OsBytes> {
    match look_at(rt, path) {
        OnDisk::File(contents, _) => Some(contents),
        OnDisk::NoFile | OnDisk::Unknown => None,
    }
}

/// The token of a header of these contents, in their place. One that was changed before that moment is known again.
fn as_token<R: Files + AllocGlobal>(
    rt: &R,
    path: &OsBytes,
    found: &fs::Metadata,
    contents: &[u8],
    began: FileTime,
    tokens: &mut Tokens,
) -> Result<OnDisk, HostError> {
    let Some(token) = token_of(rt.alloc(), contents)? else {
        return Ok(OnDisk::Unknown);
    };
    tokens.note(rt, path, found, &token, began)?;
    Ok(OnDisk::File(token, metadata_of(found, found.len())))
}

/// What stands for a header in a state that this call doesn't know: the token that another call noted, once many are in such states, as after a
/// checkout, or one of what is read.
fn token_anew<R: Files + AllocGlobal>(
    rt: &R,
    line: &CommandLine,
    path: &OsBytes,
    place: &str,
    found: &fs::Metadata,
    tokens: &mut Tokens,
) -> Result<OnDisk, HostError> {
    let are_many = tokens.count_unknown() > FEW;
    if are_many {
        if let Some(token) = token_shared(rt, line, path, found, tokens)? {
            return Ok(OnDisk::File(token, metadata_of(found, found.len())));
        }
    }
    let Ok(contents) = read_of_size(rt, place, found.len()) else {
        return Ok(OnDisk::Unknown);
    };
    let made = as_token(rt, path, found, contents.as_slice(), line.began, tokens)?;
    tokens.are_unshared = tokens.are_unshared || (are_many && tokens.get(path, found).is_some());
    Ok(made)
}

/// Looks at the path of a header, which is read where no token is known of it.
fn look_for_token<R: Files + AllocGlobal>(
    rt: &R,
    line: &CommandLine,
    path: &OsBytes,
    tokens: &mut Tokens,
) -> Result<OnDisk, HostError> {
    let Ok(place) = into_text(path.clone()?) else {
        return Ok(OnDisk::Unknown);
    };
    let found = match file_at(rt, place.as_str()) {
        Ok(found) => found,
        Err(other) => return Ok(other),
    };
    if let Some(token) = tokens.get(path, &found) {
        return Ok(OnDisk::File(token.clone()?, metadata_of(&found, found.len())));
    }
    token_anew(rt, line, path, place.as_str(), &found, tokens)
}

/// Loads what was found at a path. False where that couldn't be determined.
fn take(path: OsBytes, found: OnDisk, files: &mut SnapshotFiles) -> Result<bool, HostError> {
    match found {
        OnDisk::File(contents, metadata) => {
            let canonical = path.clone()?;
            let contents = Some(contents);
            files.load(
                path,
                LoadedFile {
                    contents,
                    canonical,
                    metadata,
                },
            )?;
            Ok(true)
        }
        OnDisk::NoFile => {
            files.load_absent(path)?;
            Ok(true)
        }
        OnDisk::Unknown => Ok(false),
    }
}

/// Loads what is at a path. False where that can't be determined.
pub fn load<R: Files + AllocGlobal>(
    rt: &R,
    path: OsBytes,
    files: &mut SnapshotFiles,
) -> Result<bool, HostError> {
    let Ok(place) = into_text(path.clone()?) else {
        return Ok(false);
    };
    take(path, look_at(rt, place.as_str()), files)
}

/// Whether the contents take in another file, which no marker names.
fn embeds(contents: &OsBytes) -> bool {
    let contents = contents.as_bytes();
    // Most files don't even have the part that both spellings share.
    memmem::find(contents, b"embed").is_some() && has_any(contents, &EMBEDS)
}

/// Whether a file that was loaded before the preprocessor ran has that state and these contents still. They are what the preprocessor read then,
/// though the file may be too young for its times alone to say so, as the source of a test that a configure script wrote just now.
fn is_as_loaded(
    alloc: Global,
    path: &OsBytes,
    metadata: &Metadata,
    contents: &OsBytes,
    files: &mut SnapshotFiles,
) -> bool {
    match (files.metadata(alloc, path), files.read(alloc, path)) {
        (Ok(Some(before)), Ok(Some(loaded))) => before == *metadata && loaded == *contents,
        (_, _) => false,
    }
}

/// Loads the headers of these names, by their tokens. False where one of them can't be determined. What was loaded as it is stays.
pub fn load_all<R: Files + AllocGlobal>(
    rt: &R,
    line: &CommandLine,
    names: &[OsBytes],
    files: &mut SnapshotFiles,
    tokens: &mut Tokens,
) -> Result<bool, HostError> {
    for name in names {
        let path = join(rt.alloc(), line.dir.as_bytes(), name.as_bytes())?;
        if tokens.has_whole(&path) {
            continue;
        }
        let found = look_for_token(rt, line, &path, tokens)?;
        if !take(path, found, files)? {
            return Ok(false);
        }
    }
    Ok(true)
}

/// The token that another call in this folder noted of a file that a text names, which this call notes too.
fn token_shared<R: Files + AllocGlobal>(
    rt: &R,
    line: &CommandLine,
    path: &OsBytes,
    found: &fs::Metadata,
    tokens: &mut Tokens,
) -> Result<Option<OsBytes>, HostError> {
    look_up_shared(rt, line, tokens)?;
    let token = match tokens.get_shared(path, found) {
        Some(token) => token.clone()?,
        None => return Ok(None),
    };
    tokens.note(rt, path, found, &token, line.began)?;
    Ok(Some(token))
}

/// The token of a file that a text names, where none is known of it one of what was read of it.
fn token_for<R: Files + AllocGlobal>(
    rt: &R,
    line: &CommandLine,
    path: &OsBytes,
    found: &fs::Metadata,
    contents: &OsBytes,
    tokens: &mut Tokens,
) -> Result<OnDisk, HostError> {
    let metadata = metadata_of(found, found.len());
    if let Some(token) = tokens.get(path, found) {
        return Ok(OnDisk::File(token.clone()?, metadata));
    }
    if let Some(token) = token_shared(rt, line, path, found, tokens)? {
        return Ok(OnDisk::File(token, metadata));
    }
    let made = as_token(rt, path, found, contents.as_bytes(), line.began, tokens)?;
    // One that can't be known again isn't noted.
    tokens.are_unshared = tokens.are_unshared || tokens.get(path, found).is_some();
    Ok(made)
}

/// Loads a regular file that a text names, by its token unless it was loaded as it is. False where it can't be recorded as what a preprocessor
/// read: it takes in a file that no marker names, or may have been changed since.
fn load_regular<R: Files + AllocGlobal>(
    rt: &R,
    line: &CommandLine,
    path: &OsBytes,
    found: &fs::Metadata,
    contents: &OsBytes,
    files: &mut SnapshotFiles,
    tokens: &mut Tokens,
) -> Result<bool, HostError> {
    let metadata = metadata_of(found, found.len());
    let is_settled = is_settled(found, line.settled_before())
        || tokens.is_same_since(rt, found, line.began)?;
    if tokens.has_whole(path) {
        let is_same = is_settled || is_as_loaded(rt.alloc(), path, &metadata, contents, files);
        return Ok(is_same && !embeds(contents));
    }
    if !is_settled {
        return Ok(false);
    }
    let token = token_for(rt, line, path, found, contents, tokens)?;
    let takes_in = match &token {
        // A token has these words too.
        OnDisk::File(held, _) => embeds(held),
        OnDisk::NoFile | OnDisk::Unknown => false,
    };
    match takes_in {
        true => Ok(false),
        false => take(path.clone()?, token, files),
    }
}

/// Loads a file that a text names. False where it can't be recorded.
fn load_named_file<R: Files + AllocGlobal>(
    rt: &R,
    line: &CommandLine,
    file: &NamedFile,
    files: &mut SnapshotFiles,
    tokens: &mut Tokens,
) -> Result<bool, HostError> {
    let path = &file.path;
    match &file.lying {
        Lying::File(found, Some(contents)) => {
            load_regular(rt, line, path, found, contents, files, tokens)
        }
        Lying::File(_, None) | Lying::Unknown => Ok(false),
        Lying::Nothing | Lying::Other if tokens.has_whole(path) => Ok(true),
        Lying::Nothing | Lying::Other => take(path.clone()?, OnDisk::NoFile, files),
    }
}

/// Loads the files that a text names, which were read once the preprocessor had printed it. False where it isn't certain what that read: a
/// line can't be distinguished from a marker, a file was changed since the call began, or includes another one.
pub fn load_named<R: Files + AllocGlobal>(
    rt: &R,
    line: &CommandLine,
    named: &NamedFiles,
    files: &mut SnapshotFiles,
    tokens: &mut Tokens,
) -> Result<bool, HostError> {
    if !named.are_all {
        return Ok(false);
    }
    for file in named.files.iter() {
        if !load_named_file(rt, line, file, files, tokens)? {
            return Ok(false);
        }
    }
    Ok(true)
}
