//! A line of a log, which is an object in JSON.

use crate::call::{Call, Ran};
use crate::kind::Kind;
use crate::texts::{NOTHING, TextId, Texts, text_of_digits};
use serde_json::{Error, Map, Value};
use std::alloc::{AllocError, AllocFailed, Global};

/// Why a line isn't read.
#[derive(Drop)]
pub enum LineFault {
    /// Out of memory.
    Memory,
    /// It isn't a line of such a log.
    Broken,
}

impl From<AllocError> for LineFault {
    fn from(_error: AllocError) -> LineFault {
        LineFault::Memory
    }
}

impl<T: Drop> From<AllocFailed<T>> for LineFault {
    fn from(_error: AllocFailed<T>) -> LineFault {
        LineFault::Memory
    }
}

impl From<Error> for LineFault {
    fn from(error: Error) -> LineFault {
        match error.is_memory() {
            true => LineFault::Memory,
            false => LineFault::Broken,
        }
    }
}

/// The version of the lines that are read.
const VERSION: u64 = 1;

/// The largest number that is taken, which is the largest that a page can show.
const LARGEST: u64 = 9_007_199_254_740_991;

/// The number that a value is.
fn number_in(value: &Value) -> Result<u64, LineFault> {
    match value.as_u64() {
        Some(number) if number <= LARGEST => Ok(number),
        _ => Err(LineFault::Broken),
    }
}

/// The number of that name, and 0 where it isn't there.
fn number(members: &Map<String, Value>, name: &str) -> Result<u64, LineFault> {
    match members.get(name) {
        Some(value) => number_in(value),
        None => Ok(0),
    }
}

/// The number of that name, which has to be there.
fn required(members: &Map<String, Value>, name: &str) -> Result<u64, LineFault> {
    match members.get(name) {
        Some(value) => number_in(value),
        None => Err(LineFault::Broken),
    }
}

/// The byte text that a value is.
fn text_in(alloc: Global, texts: &mut Texts, value: &Value) -> Result<TextId, LineFault> {
    if let Some(text) = value.as_str() {
        return Ok(texts.add(alloc, text)?);
    }
    let Some(digits) = value.get("hex").and_then(Value::as_str) else {
        return Err(LineFault::Broken);
    };
    match text_of_digits(alloc, digits)? {
        Some(text) => Ok(texts.add(alloc, text.as_str())?),
        None => Err(LineFault::Broken),
    }
}

/// The byte text of that name, and nothing where it isn't there.
fn text(
    alloc: Global,
    texts: &mut Texts,
    members: &Map<String, Value>,
    name: &str,
) -> Result<TextId, LineFault> {
    match members.get(name) {
        Some(value) => text_in(alloc, texts, value),
        None => Ok(NOTHING),
    }
}

/// The list of that name, which is empty where it isn't there.
fn list<'a>(members: &'a Map<String, Value>, name: &str) -> Result<&'a [Value], LineFault> {
    match members.get(name) {
        None => Ok(&[]),
        Some(Value::Array(items)) => Ok(items.as_slice()),
        Some(_) => Err(LineFault::Broken),
    }
}

/// Adds the words of a call.
fn add_words(
    alloc: Global,
    texts: &mut Texts,
    members: &Map<String, Value>,
    words: &mut Vec<TextId>,
) -> Result<(), LineFault> {
    for value in list(members, "words")? {
        words.push(text_in(alloc, texts, value)?)?;
    }
    Ok(())
}

/// What a triple says that ran: a letter, when it began and when it ended, as far as that is within the call.
fn ran_in(value: &Value, begin: u64, last: u64) -> Result<Ran, LineFault> {
    let Value::Array(items) = value else {
        return Err(LineFault::Broken);
    };
    let [letter, start, end] = items.as_slice() else {
        return Err(LineFault::Broken);
    };
    Ok(Ran {
        is_compile: match letter.as_str() {
            Some("C") => true,
            Some("P") => false,
            _ => return Err(LineFault::Broken),
        },
        start: number_in(start)?.max(begin).min(last),
        end: number_in(end)?.max(begin).min(last),
    })
}

/// Adds what ran in a call.
fn add_ran(members: &Map<String, Value>, call: &mut Call) -> Result<(), LineFault> {
    for value in list(members, "ran")? {
        call.ran.push(ran_in(value, call.start, call.end)?)?;
    }
    Ok(())
}

/// Fills in the texts of a call.
fn fill_texts(
    alloc: Global,
    texts: &mut Texts,
    members: &Map<String, Value>,
    call: &mut Call,
) -> Result<(), LineFault> {
    call.dir = text(alloc, texts, members, "dir")?;
    call.compiler = text(alloc, texts, members, "compiler")?;
    add_words(alloc, texts, members, &mut call.words)?;
    call.input = text(alloc, texts, members, "input")?;
    call.output = text(alloc, texts, members, "output")?;
    call.reason = text(alloc, texts, members, "reason")?;
    call.why = text(alloc, texts, members, "why")?;
    Ok(())
}

/// Fills in what the members of a line say of a call beside what it came to and its times.
fn fill(
    alloc: Global,
    texts: &mut Texts,
    members: &Map<String, Value>,
    call: &mut Call,
) -> Result<(), LineFault> {
    call.process = number(members, "pid")?;
    call.parent = number(members, "ppid")?;
    call.status = number(members, "status")?;
    fill_texts(alloc, texts, members, call)?;
    call.bytes = number(members, "bytes")?;
    call.compile_time = number(members, "compile_time")?;
    add_ran(members, call)
}

/// The call that the members of a line describe.
fn call_of(
    alloc: Global,
    texts: &mut Texts,
    members: &Map<String, Value>,
) -> Result<Call, LineFault> {
    let Some(what) = members.get("what").and_then(Value::as_str) else {
        return Err(LineFault::Broken);
    };
    let start = required(members, "start")?;
    let end = required(members, "end")?;
    let id = texts.add(alloc, what)?;
    let mut call = Call::new(alloc, Kind::of(what), id, start, end);
    fill(alloc, texts, members, &mut call)?;
    Ok(call)
}

/// The call that a value describes.
fn call_in(alloc: Global, texts: &mut Texts, value: &Value) -> Result<Call, LineFault> {
    let Some(members) = value.as_object() else {
        return Err(LineFault::Broken);
    };
    if required(members, "v")? != VERSION {
        return Err(LineFault::Broken);
    }
    call_of(alloc, texts, members)
}

/// The call that a line describes.
pub fn read_line(alloc: Global, texts: &mut Texts, line: &[u8]) -> Result<Call, LineFault> {
    let value = Value::from_slice(alloc, line)?;
    call_in(alloc, texts, &value)
}
