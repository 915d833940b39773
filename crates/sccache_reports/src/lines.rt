//! Command lines as text, one a line.

use crate::fault::ReportFault;
use crate::request_texts::{Detail, write_compile, write_kept, write_preprocess};
use crate::texts::push_line;
use crate::usage::Shown;
use base_files::{FileTime, Listed, MemoryFile, MemoryFiles, OsBytes};
use cmdlines_response_files::split_gnu_response_file_args;
use sccache_recorded_builds::{Compilers, Decided, Entry, EntryCompiler, reason_of};
use std::alloc::{AllocError, Global};

/// The folder in which each line is run.
const DIR: &[u8; 2] = b"/w";

/// Keeps the file that a line `#file PATH LINE..` gives, by the words after its first.
fn keep_file(
    alloc: Global,
    files: &mut MemoryFiles,
    words: Vec<OsBytes>,
) -> Result<(), AllocError> {
    let mut words = words.into_iter();
    let _ = words.next();
    let Some(path) = words.next() else {
        return Ok(());
    };
    let mut contents = Vec::new(alloc);
    for line in words {
        contents.extend_from_slice(line.as_bytes())?;
        contents.push(b'\n')?;
    }
    let file = MemoryFile {
        contents: OsBytes::from_vec(contents),
        mtime: FileTime::from_seconds(0),
    };
    files.insert(path, file)
}

/// The lines of a text, without the end of the last.
fn lines_of(text: &[u8]) -> &[u8] {
    match text {
        [front @ .., b'\n'] => front,
        _ => text,
    }
}

/// The command lines of a text to that compiler, and the files that it gives them.
fn read_lines(
    alloc: Global,
    compiler: EntryCompiler,
    text: &[u8],
) -> Result<(Vec<Entry>, MemoryFiles), AllocError> {
    let mut entries = Vec::new(alloc);
    let mut files = MemoryFiles::new(alloc);
    if text.is_empty() {
        return Ok((entries, files));
    }
    for line in lines_of(text).split(|byte| *byte == b'\n') {
        if line.starts_with(b"#file ") {
            keep_file(
                alloc,
                &mut files,
                split_gnu_response_file_args(alloc, line)?,
            )?;
        } else if !line.starts_with(b"#") {
            entries.push(Entry {
                compiler: Some(compiler),
                executable: OsBytes::empty(alloc),
                words: Listed::from_vec(split_gnu_response_file_args(alloc, line)?),
                dir: OsBytes::from_slice(alloc, DIR)?,
            })?;
        }
    }
    Ok((entries, files))
}

/// What each command line of a text comes to, one line each.
pub(crate) fn text_of_lines(
    alloc: Global,
    compiler: EntryCompiler,
    shown: Shown,
    text: &[u8],
) -> Result<String, ReportFault> {
    let compilers = Compilers::new(alloc)?;
    let lines = lines_by(alloc, &compilers, compiler, shown, text);
    drop(compilers);
    lines
}

/// The same by these compilers.
fn lines_by(
    alloc: Global,
    compilers: &Compilers,
    compiler: EntryCompiler,
    shown: Shown,
    text: &[u8],
) -> Result<String, ReportFault> {
    let (entries, mut files) = read_lines(alloc, compiler, text)?;
    let mut lines = String::new(alloc);
    for entry in entries.as_slice() {
        let line = line_of(alloc, compilers, entry, shown, &mut files)?;
        push_line(&mut lines, line.as_str())?;
    }
    Ok(lines)
}

/// What a command line comes to.
fn line_of(
    alloc: Global,
    compilers: &Compilers,
    entry: &Entry,
    shown: Shown,
    files: &mut MemoryFiles,
) -> Result<String, ReportFault> {
    match compilers.decide(alloc, entry, files) {
        Ok(decided) => {
            let line = decided_line(alloc, compilers, &entry.executable, &decided, shown);
            drop(decided);
            line
        }
        Err(fault) => Err(ReportFault::from(fault)),
    }
}

/// Why a command line isn't kept, or what is shown of it.
fn decided_line(
    alloc: Global,
    compilers: &Compilers,
    executable: &OsBytes,
    decided: &Decided,
    shown: Shown,
) -> Result<String, ReportFault> {
    match reason_of(alloc, decided, executable)? {
        Some(reason) => Ok(reason),
        None => Ok(kept_line(alloc, compilers, decided, shown)?),
    }
}

/// What is shown of a command line that is kept.
fn kept_line(
    alloc: Global,
    compilers: &Compilers,
    decided: &Decided,
    shown: Shown,
) -> Result<String, AllocError> {
    let mut line = String::new(alloc);
    match shown {
        Shown::Lists => write_kept(&mut line, decided, Detail::Lists)?,
        Shown::Compile => write_compile(alloc, &mut line, compilers, decided)?,
        Shown::Preprocess => write_preprocess(alloc, &mut line, compilers, decided)?,
    }
    Ok(line)
}
