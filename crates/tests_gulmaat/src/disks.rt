//! Files and folders that tests make and change, by rows: each test has a folder of its own.

use crate::rows::cut;
use base_files::OsBytes;
use base_formats::{put_framed, put_number};
use cache_host::CommandLine;
use std::alloc::{Alloc, AllocError, Global};
use std::fs;
use std::test::Fail;
use std::time::UNIX_EPOCH;
use tests_kit::words;

/// Makes a folder of that name, without anything in it.
pub fn make_fresh(rt: &HostRuntime, folder: &str) -> Result<(), Fail> {
    let _ = fs::remove_dir_all(rt, folder);
    match fs::create_dir(rt, folder) {
        Ok(()) => Ok(()),
        Err(_) => Err("no folder".into()),
    }
}

/// Does at a path what a verb says, with that text.
fn change_at(rt: &HostRuntime, verb: &str, path: &str, text: &str) -> Result<(), Fail> {
    let done = match verb {
        "folder" => fs::create_dir(rt, path),
        "write" => fs::write(rt, path, text.as_bytes()),
        "link" => std::os::unix::fs::symlink(rt, text, path),
        "remove" => fs::remove_file(rt, path),
        "unfold" => fs::remove_dir(rt, path),
        _ => Ok(()),
    };
    Ok(done?)
}

/// Does in a folder what a row says: `folder PATH`, `write PATH TEXT`, `link PATH TO`, `remove PATH` or `unfold PATH`; nothing where it is empty.
pub fn change(rt: &HostRuntime, folder: &str, row: &str) -> Result<(), Fail> {
    let (verb, rest) = cut(row, " ");
    let (path, text) = cut(rest, " ");
    let path = format!(in rt.alloc(); "{folder}/{path}")?;
    change_at(rt, verb, path.as_str(), text)
}

/// Does what all of these rows say, each a line.
pub fn change_all(rt: &HostRuntime, folder: &str, rows: &str) -> Result<(), Fail> {
    for row in rows.lines() {
        change(rt, folder, row)?;
    }
    Ok(())
}

/// Adds the number of these words, and each of them.
fn put_words(message: &mut Vec<u8>, list: &[OsBytes]) -> Result<(), AllocError> {
    put_number(message, list.len() as u64)?;
    for word in list {
        put_framed(message, word.as_bytes())?;
    }
    Ok(())
}

/// Adds each line.
fn put_lines(message: &mut Vec<u8>, lines: &str) -> Result<(), AllocError> {
    for line in lines.lines() {
        put_framed(message, line.as_bytes())?;
    }
    Ok(())
}

/// Adds a message to a host: lines of where things are kept, the compiler and the folder of the call, its words, and no variables.
fn put_message(message: &mut Vec<u8>, lines: &str, list: &[OsBytes]) -> Result<(), AllocError> {
    put_lines(message, lines)?;
    put_words(message, list)?;
    put_number(message, 0)?;
    put_framed(message, b"UTC0")
}

/// The message by which a host asks about these words in a folder, where things are kept in the folder's own folder `kept`.
fn message_of(alloc: Global, dir: &str, line: &str) -> Result<Vec<u8>, AllocError> {
    let lines = format!(in alloc;
        "{dir}/kept\ntext\nerrors\nprinted\nlist\nown\n/usr/bin/gcc\n{dir}\n"
    )?;
    let list = words(alloc, line)?;
    let mut message = Vec::new(alloc);
    put_message(&mut message, lines.as_str(), list.as_slice())?;
    Ok(message)
}

/// The command line of these words in a folder, without variables.
pub fn line_of(rt: &HostRuntime, dir: &str, words: &str) -> Result<CommandLine, Fail> {
    let message = message_of(rt.alloc(), dir, words)?;
    match CommandLine::read(rt, message.as_slice(), UNIX_EPOCH) {
        Ok(line) => Ok(line),
        Err(_) => Err("no command line".into()),
    }
}
