//! What a driver makes of `native`: the processor of the machine, with the sizes of its caches, which no word and no text shows.

ghost use Rattle.std.specs.Prelude.{◌≡◌};

use base_files::{Listed, OsBytes};
use base_formats::put_framed;
use cache_dir::{Kind, digest_of, state_of};
use cache_disk::read_whole;
use cache_host::{CommandLine, Host, HostError, LETTERS, messages_of, push_words};
use std::io::Read;
use std::rt::Files;

/// What distinguishes one boot of a machine from another: between two of them its processor may change.
const START: &str = "/proc/sys/kernel/random/boot_id";

/// The words by which a driver asks the machine for its processor.
fn native_words<R: AllocGlobal>(rt: &R, line: &CommandLine) -> Result<Listed<OsBytes>, HostError> {
    let mut words = Listed::new(rt.alloc());
    for word in line.words.as_slice() {
        if word.as_bytes().starts_with(b"-m") && word.as_bytes().ends_with(b"=native") {
            words.push(word.clone()?)?;
        }
    }
    Ok(words)
}

/// Adds the digest of the driver's state.
fn put_state<R: Files + AllocGlobal>(
    rt: &R,
    line: &CommandLine,
    row: &mut Vec<u8>,
) -> Result<(), HostError> {
    let driver = [line.executable.clone()?];
    Ok(put_framed(row, state_of(rt, &driver)?.as_bytes())?)
}

/// The name under which it is noted what the driver makes of these words on this machine.
fn name_of<R: Files + AllocGlobal>(
    rt: &R,
    line: &CommandLine,
    words: &[OsBytes],
) -> Result<String, HostError> {
    let mut row = Vec::new(rt.alloc());
    put_framed(&mut row, b"native")?;
    put_state(rt, line, &mut row)?;
    put_framed(&mut row, read_whole(rt, START)?.as_slice())?;
    for word in words {
        put_framed(&mut row, word.as_bytes())?;
    }
    Ok(digest_of(rt.alloc(), row.as_slice())?)
}

/// The digest that was noted under that name, where it is one.
fn known<R: Files + AllocGlobal>(rt: &R, line: &CommandLine, name: &str) -> Option<OsBytes> {
    let bytes = line.folder.read(rt, Kind::Parts, name).ok()?;
    match bytes.len() == LETTERS {
        true => Some(OsBytes::from_vec(bytes)),
        false => None,
    }
}

/// The digest of the commands that the driver would run by these words.
fn ask<P: Print + Files + AllocGlobal, I: Read>(
    rt: &P,
    line: &CommandLine,
    host: &mut Host<I>,
    mut words: Listed<OsBytes>,
) -> Result<OsBytes, HostError>
    requires { host.old.compiled ≡ 0 }
    ensures { host.new.compiled ≡ 0 }
{
    let alloc = rt.alloc();
    push_words(alloc, &mut words, &["-###", "-E", "-x", "c", "/dev/null"])?;
    let said = messages_of(rt, line, host, words.as_slice())?;
    if said.status != 0 {
        return Err(HostError::Parts);
    }
    let digest = digest_of(alloc, said.messages.as_slice())?;
    Ok(OsBytes::from_slice(alloc, digest.as_bytes())?)
}

/// A digest of what the driver makes of `native` on this machine; nothing where no word has it.
pub fn native_of<P: Print + Files + AllocGlobal, I: Read>(
    rt: &P,
    line: &CommandLine,
    host: &mut Host<I>,
) -> Result<Option<OsBytes>, HostError>
    requires { host.old.compiled ≡ 0 }
    ensures { host.new.compiled ≡ 0 }
{
    let words = native_words(rt, line)?;
    if words.as_slice().is_empty() {
        return Ok(None);
    }
    let name = name_of(rt, line, words.as_slice())?;
    if let Some(digest) = known(rt, line, name.as_str()) {
        return Ok(Some(digest));
    }
    let digest = ask(rt, line, host, words)?;
    let _ = line
        .folder
        .put(rt, Kind::Parts, name.as_str(), digest.as_bytes());
    Ok(Some(digest))
}
