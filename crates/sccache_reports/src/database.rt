//! The compilation database: a list in JSON of objects, one for each command line, with these members:
//!
//! - `directory`: a text, the folder in which the command is run;
//! - `arguments`: a list of texts, the executable and its words, or `command`: one text, cut as a response file of Gcc is. Where
//!   both are there, `arguments` counts.
//!
//! All other members are passed over unread, and of a repeated member the last one counts.

use crate::fault::ReportFault;
use crate::members::{Members, add_words_of};
use crate::room::EntryRoom;
use crate::skipping::skip_rest;
use json::{MAX_DEPTH, Reader, Scratch, Token, is_valid};
use sccache_recorded_builds::Entry;
use std::alloc::Global;

/// What entries are for.
pub(crate) trait TakesEntries {
    /// Takes the next entry.
    fn take(&mut self, entry: &Entry) -> Result<(), ReportFault>;
}

/// Hands on the entry that these members make with the words in the room, and reports what is wrong where they make none.
fn hand_on<T: TakesEntries>(
    alloc: Global,
    room: &mut EntryRoom,
    members: Members<'_>,
    taker: &mut T,
) -> Result<Option<&'static str>, ReportFault> {
    let dir = match members.dir() {
        Ok(dir) => dir,
        Err(what) => return Ok(Some(what)),
    };
    match members.command() {
        Ok(Some(command)) => {
            room.forget_words();
            add_words_of(alloc, room, command)?;
        }
        Ok(None) => {}
        Err(what) => return Ok(Some(what)),
    }
    if !room.complete(dir.as_bytes())? {
        return Ok(Some("it has no words"));
    }
    taker.take(room.entry())?;
    Ok(None)
}

/// Reads the next value of the list and hands on the entry that it is, and reports what is wrong where it is none.
fn read_next<T: TakesEntries>(
    alloc: Global,
    room: &mut EntryRoom,
    reader: &mut Reader<'_>,
    taker: &mut T,
) -> Result<Option<&'static str>, ReportFault> {
    match reader.next() {
        Some(Token::BeginObject) => {
            room.forget();
            let members = Members::read(room, reader)?;
            hand_on(alloc, room, members, taker)
        }
        Some(begin) => {
            skip_rest(reader, begin, MAX_DEPTH - 2)?;
            Ok(Some("it is not an object"))
        }
        None => Err(ReportFault::NotJson),
    }
}

/// What is reported where the list ends.
fn end_of(reader: &mut Reader<'_>, wrong: Option<(u64, &'static str)>) -> Result<(), ReportFault> {
    if reader.next().is_some() {
        return Err(ReportFault::NotJson);
    }
    match wrong {
        Some((number, what)) => Err(ReportFault::Entry(number, what)),
        None => Ok(()),
    }
}

/// Reads the values of a list up to its end, and hands on the entries before the first value that is none. That is reported once all
/// is known to be JSON.
fn read_entries<T: TakesEntries>(
    alloc: Global,
    reader: &mut Reader<'_>,
    taker: &mut T,
) -> Result<(), ReportFault> {
    let mut room = EntryRoom::new(alloc);
    let mut wrong: Option<(u64, &'static str)> = None;
    for number in 1..u64::MAX {
        if reader.take_end_array() {
            return end_of(reader, wrong);
        }
        if wrong.is_some() {
            reader.skip_value(MAX_DEPTH - 1)?;
        } else if let Some(what) = read_next(alloc, &mut room, reader, taker)? {
            wrong = Some((number, what));
        }
    }
    Err(ReportFault::NotJson)
}

/// What a text that is no list is.
fn fault_of_text(alloc: Global, text: &str) -> ReportFault {
    match is_valid(text, &mut Scratch::new(alloc)) {
        Ok(true) => ReportFault::NotAList,
        Ok(false) => ReportFault::NotJson,
        Err(_) => ReportFault::Memory,
    }
}

/// Reads the entries of a compilation database, in order, and hands on each, in memory that the next one is read into.
pub(crate) fn read_database<T: TakesEntries>(
    alloc: Global,
    text: &[u8],
    taker: &mut T,
) -> Result<(), ReportFault> {
    let Ok(text) = str::from_utf8(text) else {
        return Err(ReportFault::NotJson);
    };
    let mut scratch = Scratch::new(alloc);
    let mut reader = Reader::new(text, &mut scratch)?;
    match reader.next() {
        Some(Token::BeginArray) => read_entries(alloc, &mut reader, taker),
        _ => Err(fault_of_text(alloc, text)),
    }
}
