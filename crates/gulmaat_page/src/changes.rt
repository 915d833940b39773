//! What the calls of one build came to in another one.

use crate::commands::explanation_of;
use crate::reading::Build;
use crate::writer::Writer;
use cache_build_log::{Call, Kind, maker_of};
use std::alloc::{AllocError, Global};
use std::collections::BTreeMap;

/// Calls that came from one kind to another, for one reason.
#[derive(Drop)]
pub struct Change {
    pub description: String,
    pub count: u64,
    /// How long they took in the second build.
    pub time: u64,
}

/// What came to another thing.
#[derive(Drop)]
pub struct Changes {
    /// How many calls both builds have, by folder and output.
    pub common: u64,
    pub changed: u64,
    /// Those that took longest first.
    pub changes: Vec<Change>,
}

/// The folder and the output of a call, which are empty where it isn't compared.
fn output_of<'a>(build: &'a Build, call: &Call) -> (&'a str, &'a str) {
    match call.kind {
        Kind::Other => ("", ""),
        _ => (build.texts.text(call.dir), build.texts.text(call.output)),
    }
}

/// The kinds of a build's calls by folder and output, of which the last one counts.
fn kinds_by_output(
    alloc: Global,
    build: &Build,
) -> Result<BTreeMap<(&str, &str), Kind>, AllocError> {
    let mut kinds = BTreeMap::new(alloc);
    for call in build.calls.as_slice() {
        let output = output_of(build, call);
        if !output.1.is_empty() {
            kinds.insert(output, call.kind)?;
        }
    }
    Ok(kinds)
}

/// Writes why a call came to another kind, where that is known.
fn push_reason(
    text: &mut Writer,
    alloc: Global,
    kind: Kind,
    explained: &str,
) -> Result<(), AllocError> {
    if kind == Kind::Miss {
        text.push(", ");
        text.push(maker_of(alloc, explained)?.as_str());
    } else if !explained.is_empty() {
        text.push(", ");
        text.push(explained);
    }
    Ok(())
}

/// What is reported of a call that came to another kind.
fn description_of(
    alloc: Global,
    build: &Build,
    from: Kind,
    call: &Call,
) -> Result<String, AllocError> {
    let mut text = Writer::new(alloc);
    text.push(from.name());
    text.push(" -> ");
    text.push(call.kind.name());
    let explained = explanation_of(&build.texts, call);
    push_reason(&mut text, alloc, call.kind, explained)?;
    text.done()
}

/// The changes as they were found, those that took longest first.
fn sorted(alloc: Global, found: BTreeMap<String, (u64, u64)>) -> Result<Vec<Change>, AllocError> {
    let mut changes = Vec::new(alloc);
    for (description, (count, time)) in found {
        changes.push(Change {
            description,
            count,
            time,
        })?;
    }
    changes.sort_by(|one, other| other.time.cmp(&one.time))?;
    Ok(changes)
}

/// What came to another thing in the second build than in the first.
pub fn changes_between(alloc: Global, one: &Build, other: &Build) -> Result<Changes, AllocError> {
    let mut earlier = kinds_by_output(alloc, one)?;
    let mut found: BTreeMap<String, (u64, u64)> = BTreeMap::new(alloc);
    let (mut common, mut changed) = (0u64, 0u64);
    // The last call of an output comes first, and takes that away from the others.
    for call in other.calls.iter().rev() {
        let Some(kind) = earlier.remove(&output_of(other, call)) else {
            continue;
        };
        common = common.saturating_add(1);
        if kind != call.kind {
            changed = changed.saturating_add(1);
            let description = description_of(alloc, other, kind, call)?;
            let sums = found.entry(description)?.or_insert((0, 0));
            sums.0 = sums.0.saturating_add(1);
            sums.1 = sums.1.saturating_add(call.time());
        }
    }
    Ok(Changes {
        common,
        changed,
        changes: sorted(alloc, found)?,
    })
}
