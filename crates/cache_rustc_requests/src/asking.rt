//! What a compiler says when it is asked: words that the host runs, and what was printed for them.

ghost use Rattle.std.specs.Prelude.{◌≡◌};

use base_files::{Listed, OsBytes};
use cache_disk::read_whole;
use cache_host::{CommandLine, Host, HostError};
use ckeys_records::Printed;
use std::io::Read;
use std::rt::Files;
use std::{fs, io};

/// What rustc prints on standard output for these words. What it prints on standard error is dropped.
pub fn printed_for<P: Print + Files + AllocGlobal, I: Read>(
    rt: &P,
    line: &CommandLine,
    host: &mut Host<I>,
    words: &[OsBytes],
) -> Result<Printed, HostError>
    ensures { host.new.compiled ≡ host.old.compiled }
{
    let ended = host.preprocess(rt, rt.alloc(), words)?;
    drop_messages(rt, line)?;
    let text = OsBytes::from_vec(read_whole(rt, line.text.as_str())?);
    let status = ended.status;
    Ok(Printed { status, text })
}

/// Empties the file of messages: the host prints what it finds there.
fn drop_messages<R: Files>(rt: &R, line: &CommandLine) -> io::Result<()> {
    fs::write(rt, line.errors.as_str(), b"")
}

/// The first word of a command, where it names a toolchain to rustup's proxy.
pub fn toolchain_word(words: &[OsBytes]) -> Option<&OsBytes> {
    match words {
        [word, ..] if word.as_bytes().starts_with(b"+") => Some(word),
        _ => None,
    }
}

/// What rustc prints for these words, after the one that names a toolchain, or `Parts` where it fails.
pub fn said_for<P: Print + Files + AllocGlobal, I: Read>(
    rt: &P,
    line: &CommandLine,
    host: &mut Host<I>,
    words: &[&str],
) -> Result<OsBytes, HostError>
    ensures { host.new.compiled ≡ host.old.compiled }
{
    let alloc = rt.alloc();
    let mut own = Listed::new(alloc);
    if let Some(word) = toolchain_word(line.words.as_slice()) {
        own.push(word.clone()?)?;
    }
    for word in words.iter() {
        own.push(OsBytes::from_slice(alloc, word.as_bytes())?)?;
    }
    let printed = printed_for(rt, line, host, own.as_slice())?;
    match printed.status {
        0 => Ok(printed.text),
        _ => Err(HostError::Parts),
    }
}
