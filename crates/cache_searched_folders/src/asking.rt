//! Asking a compiler where it looks for what sources take in, once for each set of words, as long as no folder comes or goes. It is asked each
//! time where words name a file of specs, which may say by its contents where it looks.

ghost use Rattle.std.specs.Prelude.{◌≡◌};

use crate::search_list::SearchList;
use crate::watching::Watching;
use base_files::{FileTime, Listed, OsBytes};
use base_formats::{put_framed, read_framed};
use cache_dir::{Kind, digest_of, state_of};
use cache_host::{CommandLine, Host, LETTERS, Said, messages_of, push_words};
use cache_known_options::{PlacedWords, after_front, is_among, is_read, names_specs};
use cache_watch_lists::{Unwatched, holds};
use std::alloc::{AllocError, Global};
use std::io::Read;
use std::rt::Files;

/// What words begin with that say nothing of where files are looked for.
const FRONTS: [&str; 6] = ["-D", "-U", "-o", "-M", "-include", "-imacros"];

/// Words that are used alone and say what is to be made.
const STEPS: [&str; 4] = ["-c", "-S", "-E", "-v"];

/// The version of the layout of what is kept, which counts in its name.
const VERSION: &[u8] = b"2";

/// Whether a word that is no value says where files are looked for.
fn says_where(word: &[u8]) -> bool {
    word.starts_with(b"-")
        && after_front(&FRONTS, word).is_none()
        && !is_among(&STEPS, word)
        && !word.starts_with(b"-Wp,")
}

/// The words that make the compiler report where it looks for a source of that language.
fn asking_words(
    alloc: Global,
    words: &[OsBytes],
    language: &str,
) -> Result<Listed<OsBytes>, Unwatched> {
    let mut asking = Listed::new(alloc);
    for placed in PlacedWords::of(words) {
        if says_where(placed.option.unwrap_or(placed.word).as_bytes()) {
            asking.push(placed.word.clone()?)?;
        }
    }
    push_words(
        alloc,
        &mut asking,
        &["-E", "-v", "-x", language, "/dev/null"],
    )?;
    Ok(asking)
}

/// Adds the state of the compiler's file.
fn put_state<R: Files + AllocGlobal>(
    rt: &R,
    line: &CommandLine,
    row: &mut Vec<u8>,
) -> Result<(), Unwatched> {
    let paths = [line.executable.clone()?];
    put_framed(row, state_of(rt, &paths)?.as_bytes())?;
    Ok(())
}

/// Adds these words, with an empty one after them.
fn put_words(words: &[OsBytes], row: &mut Vec<u8>) -> Result<(), AllocError> {
    for word in words {
        put_framed(row, word.as_bytes())?;
    }
    put_framed(row, b"")
}

/// Adds the variables that a compiler reads.
fn put_variables(line: &CommandLine, row: &mut Vec<u8>) -> Result<(), AllocError> {
    for (name, value) in line.env.as_slice() {
        if is_read(name.as_bytes()) {
            put_framed(row, name.as_bytes())?;
            put_framed(row, value.as_bytes())?;
        }
    }
    Ok(())
}

/// Adds all by which the compiler may look elsewhere: itself, its folder, its words and its variables.
fn put_call<R: Files + AllocGlobal>(
    rt: &R,
    line: &CommandLine,
    words: &[OsBytes],
    row: &mut Vec<u8>,
) -> Result<(), Unwatched> {
    put_framed(row, VERSION)?;
    put_state(rt, line, row)?;
    put_framed(row, line.dir.as_bytes())?;
    put_words(words, row)?;
    put_variables(line, row)?;
    Ok(())
}

/// The name under which it is kept where the compiler looks by these words.
fn name_of<R: Files + AllocGlobal>(
    rt: &R,
    line: &CommandLine,
    words: &[OsBytes],
) -> Result<String, Unwatched> {
    let mut row = Vec::new(rt.alloc());
    put_call(rt, line, words, &mut row)?;
    Ok(digest_of(rt.alloc(), row.as_slice())?)
}

/// What a kept file says that has its digest at its end.
fn unsealed(alloc: Global, bytes: &[u8]) -> Result<Option<(&[u8], &[u8])>, Unwatched> {
    let Some((front, end)) = bytes.split_at_checked(bytes.len().saturating_sub(LETTERS)) else {
        return Ok(None);
    };
    if digest_of(alloc, front)?.as_bytes() != end {
        return Ok(None);
    }
    let (said, list) = read_framed(front)?;
    Ok(Some((said, list)))
}

/// What the compiler said the last time, where the folders that it named are as they were.
fn said_before<R: Files + AllocGlobal>(
    rt: &R,
    line: &CommandLine,
    name: &str,
) -> Result<Option<Vec<u8>>, Unwatched> {
    let Ok(bytes) = line.folder.read(rt, Kind::Searches, name) else {
        return Ok(None);
    };
    let Some((said, list)) = unsealed(rt.alloc(), bytes.as_slice())? else {
        return Ok(None);
    };
    if !holds(rt, line.dir.as_bytes(), list, line.settled_before())? {
        return Ok(None);
    }
    Ok(Some(Vec::from_slice(rt.alloc(), said)?))
}

/// The list of the folders that a compiler named, to be watched.
fn list_of_folders<R: Files + AllocGlobal>(
    rt: &R,
    line: &CommandLine,
    said: &[u8],
    before: FileTime,
) -> Result<Vec<u8>, Unwatched> {
    let Some(list) = SearchList::read(rt.alloc(), said)? else {
        return Err(Unwatched::List);
    };
    let mut watching = Watching::new(rt.alloc(), line.dir.as_bytes(), before);
    let _places = watching.take_folders(rt, &list)?;
    watching.into_list(rt.alloc())
}

/// Keeps what the compiler said.
fn keep<R: Files + AllocGlobal>(
    rt: &R,
    line: &CommandLine,
    name: &str,
    said: &[u8],
    before: FileTime,
) -> Result<(), Unwatched> {
    let mut bytes = Vec::new(rt.alloc());
    put_framed(&mut bytes, said)?;
    bytes.extend_from_slice(list_of_folders(rt, line, said, before)?.as_slice())?;
    let digest = digest_of(rt.alloc(), bytes.as_slice())?;
    bytes.extend_from_slice(digest.as_bytes())?;
    // What isn't kept is asked for again.
    let _ = line.folder.put(rt, Kind::Searches, name, bytes.as_slice());
    Ok(())
}

/// Whether words name a file of specs.
fn have_specs(words: &[OsBytes]) -> bool {
    for word in words {
        if names_specs(word.as_bytes()) {
            return true;
        }
    }
    false
}

/// What the compiler says as it runs with these words.
fn ask<P: Print + Files + AllocGlobal, I: Read>(
    rt: &P,
    line: &CommandLine,
    host: &mut Host<I>,
    words: &[OsBytes],
) -> Result<Vec<u8>, Unwatched>
    ensures { host.new.compiled ≡ host.old.compiled }
{
    match messages_of(rt, line, host, words) {
        Ok(
            Said {
                status: 0,
                messages,
            },
        ) => Ok(messages),
        _ => Err(Unwatched::List),
    }
}

/// What the compiler of a call says of where it looks for a source of that language. It runs where it wasn't asked yet.
pub fn said_of<P: Print + Files + AllocGlobal, I: Read>(
    rt: &P,
    line: &CommandLine,
    host: &mut Host<I>,
    language: &str,
    before: FileTime,
) -> Result<Vec<u8>, Unwatched>
    ensures { host.new.compiled ≡ host.old.compiled }
{
    let words = asking_words(rt.alloc(), line.words.as_slice(), language)?;
    if have_specs(words.as_slice()) {
        return ask(rt, line, host, words.as_slice());
    }
    let name = name_of(rt, line, words.as_slice())?;
    if let Some(said) = said_before(rt, line, name.as_str())? {
        return Ok(said);
    }
    let said = ask(rt, line, host, words.as_slice())?;
    keep(rt, line, name.as_str(), said.as_slice(), before)?;
    Ok(said)
}
