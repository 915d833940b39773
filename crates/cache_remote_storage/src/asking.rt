//! Questions for the server that is set.

ghost use Rattle.std.specs.Prelude.{◌≡◌};

use crate::failures::Failures;
use base_files::{Listed, OsBytes};
use cache_dir::room_within;
use cache_disk::read_whole;
use cache_host::{CommandLine, Host, HostError};
use cache_settings::{Key, has_attribute, number_in};
use std::alloc::Global;
use std::fs;
use std::io::Read;
use std::rt::Files;

/// How many milliseconds it may take to connect, where no attribute says it.
const CONNECT: u32 = 200;

/// How many all that a call waits for may take.
const WHOLE: u32 = 10_000;

/// How many bytes something may have that is asked for, where what is kept here has no limit.
const MOST: u64 = 1 << 30;

/// What the host says where what was asked for came, and where it isn't there, failed, or took too long.
const CAME: i32 = 0;

const NOWHERE: i32 = 1;

const LATE: i32 = 3;

/// What the server was found to have.
#[derive(Drop)]
pub(crate) enum Fetched {
    /// This, whatever it is.
    Came(Vec<u8>),
    Nothing,
    /// It wasn't asked, or it failed.
    Unknown,
}

/// How many bytes something may have that is asked for: what is kept here must have room for it.
fn most_of(line: &CommandLine) -> u64 {
    match line.folder.limit {
        0 => MOST,
        limit => room_within(limit).min(MOST),
    }
}

/// Adds a number as a word.
fn push_number(alloc: Global, words: &mut Listed<OsBytes>, number: u64) -> Result<(), HostError> {
    let word = format!(in alloc; "{number}")?;
    Ok(words.push(OsBytes::from_vec(word.into_bytes()))?)
}

/// Adds a text as a word.
fn push_text(alloc: Global, words: &mut Listed<OsBytes>, text: &str) -> Result<(), HostError> {
    Ok(words.push(OsBytes::from_slice(alloc, text.as_bytes())?)?)
}

/// Adds the words of a question for that name.
fn push_question(
    alloc: Global,
    line: &CommandLine,
    name: &str,
    words: &mut Listed<OsBytes>,
) -> Result<(), HostError> {
    let storage = line.settings.value_of(Key::RemoteStorage);
    let connect = number_in(storage, "connect-timeout", CONNECT);
    let whole = number_in(storage, "operation-timeout", WHOLE);
    push_number(alloc, words, u64::from(connect))?;
    push_number(alloc, words, u64::from(whole))?;
    push_text(alloc, words, storage)?;
    push_text(alloc, words, line.settings.value_of(Key::RemoteKey))?;
    push_number(alloc, words, most_of(line))?;
    push_text(alloc, words, name)
}

/// The words of a question for that name.
fn words_of(alloc: Global, line: &CommandLine, name: &str) -> Result<Listed<OsBytes>, HostError> {
    let mut words = Listed::new(alloc);
    push_question(alloc, line, name, &mut words)?;
    Ok(words)
}

/// The name under which something lies there: what it is with the version of its layout, the family of its compiler, and its own name.
pub fn name_of(
    alloc: Global,
    letter: &str,
    version: u8,
    family: &str,
    own: &str,
) -> Result<String, HostError> {
    Ok(format!(in alloc; "{letter}{version}-{family}-{own}")?)
}

/// Whether a server is set that has an attribute.
pub(crate) fn has(line: &CommandLine, attribute: &str) -> bool {
    has_attribute(line.settings.value_of(Key::RemoteStorage), attribute)
}

/// Whether the server is to be asked: one is set, it didn't fail in this call yet, and not again and again in the calls before.
fn may_ask<R: Files + AllocGlobal, I>(
    rt: &R,
    line: &CommandLine,
    host: &Host<I>,
) -> Result<Option<Failures>, HostError> {
    let has_failed = host.tally.errors != 0 || host.tally.timeouts != 0;
    if line.settings.value_of(Key::RemoteStorage).is_empty() || has_failed {
        return Ok(None);
    }
    let failures = Failures::noted(rt, line)?;
    match failures.are_too_many(line) {
        true => Ok(None),
        false => Ok(Some(failures)),
    }
}

/// Notes that the server failed, or answered what nobody stored there.
pub(crate) fn note_failure<R: Files + AllocGlobal, I>(
    rt: &R,
    line: &CommandLine,
    host: &mut Host<I>,
) -> Result<(), HostError>
    ensures { host.new.compiled ≡ host.old.compiled }
{
    host.tally.errors = host.tally.errors.saturating_add(1);
    Failures::noted(rt, line)?.add(rt, line)
}

/// What came, which lies in the place of the list. That is empty then, as it was.
fn take<R: Files + AllocGlobal>(rt: &R, line: &CommandLine) -> Result<Vec<u8>, HostError> {
    let bytes = read_whole(rt, line.list.as_str())?;
    fs::write(rt, line.list.as_str(), b"")?;
    Ok(bytes)
}

/// What the server has under that name.
pub(crate) fn fetch<P: Print + Files + AllocGlobal, I: Read>(
    rt: &P,
    line: &CommandLine,
    host: &mut Host<I>,
    name: &str,
) -> Result<Fetched, HostError>
    ensures { host.new.compiled ≡ host.old.compiled }
{
    let Some(failures) = may_ask(rt, line, host)? else {
        return Ok(Fetched::Unknown);
    };
    let words = words_of(rt.alloc(), line, name)?;
    let ended = host.fetch(rt, rt.alloc(), words.as_slice())?;
    match ended.status {
        CAME => {
            let bytes = take(rt, line)?;
            Ok(Fetched::Came(bytes))
        }
        NOWHERE => {
            failures.end(rt, line)?;
            Ok(Fetched::Nothing)
        }
        LATE => {
            host.tally.timeouts = host.tally.timeouts.saturating_add(1);
            failures.add(rt, line)?;
            Ok(Fetched::Unknown)
        }
        _ => {
            note_failure(rt, line, host)?;
            Ok(Fetched::Unknown)
        }
    }
}

/// Notes that the server gave what is sealed.
pub(crate) fn note_sealed<R: Files + AllocGlobal>(
    rt: &R,
    line: &CommandLine,
) -> Result<(), HostError> {
    Failures::noted(rt, line)?.end(rt, line)
}

/// Has these bytes stored under that name once the call is answered; where nothing is there yet alone, if that is said.
pub(crate) fn send<P: Print + Files + AllocGlobal, I: Read>(
    rt: &P,
    line: &CommandLine,
    host: &mut Host<I>,
    name: &str,
    bytes: &[u8],
    is_only_new: bool,
) -> Result<(), HostError>
    ensures { host.new.compiled ≡ host.old.compiled }
{
    if may_ask(rt, line, host)?.is_none() {
        return Ok(());
    }
    let mut words = words_of(rt.alloc(), line, name)?;
    if is_only_new {
        words.push(OsBytes::from_slice(rt.alloc(), b"new")?)?;
    }
    fs::write(rt, line.list.as_str(), bytes)?;
    host.send(rt, rt.alloc(), words.as_slice())?;
    Ok(())
}
