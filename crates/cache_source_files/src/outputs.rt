//! Outputs that the compiler made, or that are written in its place.

use base_files::OsBytes;
use cache_disk::read_of_size;
use cache_format::KeptMessages;
use cache_host::{CommandLine, HostError, text_in};
use cache_known_options::SideFiles;
use cmdlines_tables::CCompilerKind;
use std::fs;
use std::io::ErrorKind;
use std::os::unix::fs::MetadataExt;
use std::rt::Files;
use wrap_base::Output;

/// The contents of the regular file of that path, where it is one.
pub fn regular<R: Files + AllocGlobal>(rt: &R, path: &str) -> Option<OsBytes> {
    let metadata = fs::metadata(rt, path).ok()?;
    if !metadata.is_file() {
        return None;
    }
    Some(OsBytes::from_vec(read_of_size(rt, path, metadata.len()).ok()?))
}

/// The rights to write.
const WRITE: u32 = 0o222;

/// Whether nothing lies under a path, or a regular file that may be written and has no other name.
fn is_plain<R: Files>(rt: &R, path: &str) -> bool {
    match fs::symlink_metadata(rt, path) {
        Ok(found) => found.is_file() && found.nlink() == 1 && found.mode() & WRITE != 0,
        Err(error) => error.kind() == ErrorKind::NotFound,
    }
}

/// Whether kept files can be put under these paths as a compiler would: onto what is something else compilers write in ways of their own.
pub fn have_plain_places<R: Files>(rt: &R, paths: &[OsBytes]) -> Result<bool, HostError> {
    for path in paths {
        if !is_plain(rt, text_in(path)?) {
            return Ok(false);
        }
    }
    Ok(true)
}

/// What becomes of an old file that lies where an output is written.
#[derive(Clone, Copy, PartialEq, Eq)]
pub enum OldFile {
    /// Another one takes its place.
    IsReplaced,
    /// One that is empty is written over, and keeps its rights, as by the assembler that GCC runs: `mktemp` makes one that only its user may read.
    IsKeptWhereEmpty,
    /// It is written over, and keeps its rights.
    IsKept,
}

/// Whether an empty file lies there.
fn is_empty<R: Files>(rt: &R, path: &str) -> bool {
    match fs::metadata(rt, path) {
        Ok(found) => found.len() == 0,
        Err(_) => false,
    }
}

/// Writes a file where an old one may lie. Where it can't be written whole nothing is left of it.
fn write_anew<R: Files>(
    rt: &R,
    path: &str,
    contents: &[u8],
    old: OldFile,
) -> Result<(), HostError> {
    let is_removed = match old {
        OldFile::IsReplaced => true,
        OldFile::IsKeptWhereEmpty => !is_empty(rt, path),
        OldFile::IsKept => false,
    };
    if is_removed {
        let _ = fs::remove_file(rt, path);
    }
    if let Err(error) = fs::write(rt, path, contents) {
        let _ = fs::remove_file(rt, path);
        return Err(error.into());
    }
    Ok(())
}

/// Writes each output where the request wants it, as compilers do.
pub fn write_outputs<R: Files>(rt: &R, outputs: &[Output], old: OldFile) -> Result<(), HostError> {
    for output in outputs {
        write_anew(rt, text_in(&output.path)?, output.contents.as_bytes(), old)?;
    }
    Ok(())
}

/// Writes the dependency file of kept outputs where the request wants it, as compilers do: what lies there is written over.
pub fn write_dependencies<R: Files>(
    rt: &R,
    path: Option<&OsBytes>,
    messages: &KeptMessages,
) -> Result<(), HostError> {
    let (Some(path), Some(contents)) = (path, &messages.dependencies) else {
        return Ok(());
    };
    Ok(fs::write(rt, text_in(path)?, contents.as_bytes())?)
}

/// The file of that ending among those that were kept beside outputs, where one was made.
fn side_file<'a>(messages: &'a KeptMessages, ending: &str) -> Option<&'a OsBytes> {
    for (kept, contents) in messages.side_files.as_slice() {
        if kept.as_bytes() == ending.as_bytes() {
            return Some(contents);
        }
    }
    None
}

/// What becomes of an old file where a compiler of that kind writes the file of that ending. GCC has debug information split off by a program,
/// which does as its assembler; all others are written by the compilers themselves.
fn old_side_file(kind: CCompilerKind, ending: &str) -> OldFile {
    match (kind, ending) {
        (CCompilerKind::Gcc, ".dwo") => OldFile::IsKeptWhereEmpty,
        (_, _) => OldFile::IsKept,
    }
}

/// Writes the files beside kept outputs where the request wants them, as a compiler of that kind does.
pub fn write_side_files<R: Files>(
    rt: &R,
    kind: CCompilerKind,
    wanted: &SideFiles,
    messages: &KeptMessages,
) -> Result<(), HostError> {
    let paths = wanted.paths.as_slice();
    for (number, ending) in wanted.endings.as_slice().iter().enumerate() {
        if let (Some(path), Some(contents)) = (paths.get(number), side_file(messages, ending)) {
            let old = old_side_file(kind, ending);
            write_anew(rt, text_in(path)?, contents.as_bytes(), old)?;
        }
    }
    Ok(())
}

/// Has the host print what was printed beside kept outputs, in place of what the preprocessor printed in this call.
pub fn print_again<R: Files>(
    rt: &R,
    line: &CommandLine,
    messages: &KeptMessages,
) -> Result<(), HostError> {
    let printed = messages.printed.as_bytes();
    let errors = messages.errors.as_bytes();
    if !printed.is_empty() {
        fs::write(rt, line.printed.as_str(), printed)?;
    }
    if !errors.is_empty() || !messages.preprocessor.as_bytes().is_empty() {
        fs::write(rt, line.errors.as_str(), errors)?;
    }
    Ok(())
}
