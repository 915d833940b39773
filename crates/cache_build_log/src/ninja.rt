//! What ninja's own log adds to a log of calls: other commands of a build, as links.

use crate::call::Call;
use crate::kind::Kind;
use crate::texts::{TextId, Texts};
use std::alloc::{AllocError, Global};
use std::collections::BTreeMap;

/// A command of ninja's log, with milliseconds since that build began.
#[derive(Clone, Copy)]
struct Entry<'a> {
    start: u64,
    end: u64,
    output: &'a str,
}

/// The entry that a line of five fields with tabs between them is.
fn entry_in(line: &str) -> Option<Entry<'_>> {
    let (start, rest) = line.split_once('\t')?;
    let (end, rest) = rest.split_once('\t')?;
    let (_, rest) = rest.split_once('\t')?;
    let (output, _) = rest.split_once('\t')?;
    Some(Entry {
        start: start.parse::<u64>().ok()?,
        end: end.parse::<u64>().ok()?,
        output,
    })
}

/// The entries of the last build: ninja notes a command as it ends, so that another build begins where an end is before the last one.
fn last_build(alloc: Global, log: &str) -> Result<Vec<Entry<'_>>, AllocError> {
    let mut entries: Vec<Entry<'_>> = Vec::new(alloc);
    let mut last = 0u64;
    for line in log.lines() {
        let Some(entry) = entry_in(line) else {
            continue;
        };
        if entry.end < last {
            entries.clear();
        }
        last = entry.end;
        entries.push(entry)?;
    }
    Ok(entries)
}

/// When ninja's build began: as the calls have it that began soonest after ninja says that they did. Nothing where no call has an output of
/// these.
fn origin(entries: &[Entry<'_>], starts: &BTreeMap<String, u64>) -> Option<u64> {
    let mut origin: Option<u64> = None;
    for entry in entries {
        let Some(start) = starts.get(entry.output) else {
            continue;
        };
        let then = start.saturating_sub(entry.start.saturating_mul(1000));
        origin = Some(match origin {
            Some(earlier) => earlier.min(then),
            None => then,
        });
    }
    origin
}

/// The call that represents a command of a build that began then.
fn call_of(
    alloc: Global,
    texts: &mut Texts,
    what: TextId,
    entry: &Entry<'_>,
    origin: u64,
) -> Result<Call, AllocError> {
    let start = origin.saturating_add(entry.start.saturating_mul(1000));
    let end = origin.saturating_add(entry.end.saturating_mul(1000));
    let output = texts.add(alloc, entry.output)?;
    let mut call = Call::new(alloc, Kind::Other, what, start, end);
    call.output = output;
    Ok(call)
}

/// Calls that represent those of these commands whose outputs no call has.
fn calls_of(
    alloc: Global,
    texts: &mut Texts,
    what: TextId,
    entries: &[Entry<'_>],
    starts: &BTreeMap<String, u64>,
    origin: u64,
) -> Result<Vec<Call>, AllocError> {
    let mut others = Vec::new(alloc);
    for entry in entries {
        if !starts.contains_key(entry.output) {
            others.push(call_of(alloc, texts, what, entry, origin)?)?;
        }
    }
    Ok(others)
}

/// The outputs of calls, each with the moment at which its last call began.
fn starts_of(
    alloc: Global,
    texts: &Texts,
    calls: &[Call],
) -> Result<BTreeMap<String, u64>, AllocError> {
    let mut starts = BTreeMap::new(alloc);
    for call in calls {
        let output = String::from_str(alloc, texts.text(call.output))?;
        starts.insert(output, call.start)?;
    }
    Ok(starts)
}

/// Calls that represent the commands of ninja's last build which aren't among these calls; nothing where none of its outputs is one of theirs,
/// so that it isn't known when it began.
pub fn other_commands(
    alloc: Global,
    texts: &mut Texts,
    calls: &[Call],
    log: &str,
) -> Result<Option<Vec<Call>>, AllocError> {
    let what = texts.add(alloc, "other_command")?;
    let entries = last_build(alloc, log)?;
    let starts = starts_of(alloc, texts, calls)?;
    match origin(entries.as_slice(), &starts) {
        Some(origin) => Ok(Some(calls_of(
            alloc,
            texts,
            what,
            entries.as_slice(),
            &starts,
            origin,
        )?)),
        None => Ok(None),
    }
}
