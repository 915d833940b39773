//! Asking a driver what it says of itself on its standard error.

ghost use Rattle.std.specs.Prelude.{◌≡◌};

use crate::command_line::CommandLine;
use crate::host::Host;
use crate::host_error::HostError;
use base_files::{Listed, OsBytes};
use cache_disk::read_whole;
use std::alloc::{AllocError, Global};
use std::fs;
use std::io::Read;
use std::rt::Files;

/// What a driver said.
#[derive(Drop)]
pub struct Said {
    pub status: i32,
    /// All of its standard error.
    pub messages: Vec<u8>,
}

/// Adds words to a list.
pub fn push_words(
    alloc: Global,
    list: &mut Listed<OsBytes>,
    words: &[&str],
) -> Result<(), AllocError> {
    for word in words {
        list.push(OsBytes::from_slice(alloc, word.as_bytes())?)?;
    }
    Ok(())
}

/// The list of these words.
pub fn words_of(alloc: Global, words: &[&str]) -> Result<Listed<OsBytes>, AllocError> {
    let mut list = Listed::new(alloc);
    push_words(alloc, &mut list, words)?;
    Ok(list)
}

/// What a driver says on its standard error, asked by these words. It isn't printed for the caller.
pub fn messages_of<P: Print + Files + AllocGlobal, I: Read>(
    rt: &P,
    line: &CommandLine,
    host: &mut Host<I>,
    words: &[OsBytes],
) -> Result<Said, HostError>
    ensures { host.new.compiled ≡ host.old.compiled }
{
    let ended = host.preprocess(rt, rt.alloc(), words)?;
    let messages = read_whole(rt, line.errors.as_str())?;
    // The host prints what it finds there.
    fs::write(rt, line.errors.as_str(), b"")?;
    let status = ended.status;
    Ok(Said { status, messages })
}
