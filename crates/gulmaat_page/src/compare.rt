//! Two builds side by side, in twenty lines.

use crate::changes::{Change, Changes, changes_between};
use crate::reading::Build;
use crate::summary::count_name;
use crate::times::push_time;
use crate::writer::Writer;
use cache_build_log::{Kind, Sums};
use std::alloc::{AllocError, Global};

/// How many changes are reported.
const SHOWN: usize = 7;

/// Writes a count at the end of its column.
fn push_count(text: &mut Writer, alloc: Global, count: u64) {
    let mut shown = Writer::new(alloc);
    shown.push_number(count);
    text.push_right(&shown);
}

/// Writes a line of counts: their name, and those of both builds.
fn push_counts(text: &mut Writer, alloc: Global, name: &str, one: u64, other: u64) {
    text.push_left(name);
    push_count(text, alloc, one);
    push_count(text, alloc, other);
    text.push("\n");
}

/// Writes a time at the end of its column.
fn push_span(text: &mut Writer, alloc: Global, time: u64) {
    let mut shown = Writer::new(alloc);
    push_time(&mut shown, time);
    text.push_right(&shown);
}

/// Writes a line of times: their name, and those of both builds.
fn push_times(text: &mut Writer, alloc: Global, name: &str, one: u64, other: u64) {
    text.push_left(name);
    push_span(text, alloc, one);
    push_span(text, alloc, other);
    text.push("\n");
}

/// Writes how many calls of a kind there are in both. Other commands aren't compared.
fn push_kind(text: &mut Writer, alloc: Global, one: &Sums, other: &Sums, kind: Kind) {
    if !matches!(kind, Kind::Other) {
        let (count, others) = (one.share(kind).count, other.share(kind).count);
        push_counts(text, alloc, count_name(kind), count, others);
    }
}

/// Writes the sums of both.
fn push_sums(text: &mut Writer, alloc: Global, one: &Sums, other: &Sums) {
    text.push("                               first        second\n");
    push_counts(text, alloc, "Calls", one.calls, other.calls);
    for kind in Kind::ALL.as_slice() {
        push_kind(text, alloc, one, other, *kind);
    }
    push_times(text, alloc, "Wall time", one.wall_time(), other.wall_time());
    push_times(text, alloc, "Compilers", one.compilers, other.compilers);
    push_times(
        text,
        alloc,
        "Preprocessors",
        one.preprocessors,
        other.preprocessors,
    );
    push_times(text, alloc, "Time saved", one.saved, other.saved);
}

/// Writes a change: how many calls, how long they took, and from what they came to what.
fn push_change(text: &mut Writer, change: &Change) {
    text.push("  ");
    text.push_number(change.count);
    text.push(" in ");
    push_time(text, change.time);
    text.push(": ");
    text.push(change.description.as_str());
    text.push("\n");
}

/// Writes what came to another thing.
fn push_changes(text: &mut Writer, changes: &Changes) {
    text.push("Of ");
    text.push_number(changes.common);
    text.push(" calls of both, ");
    text.push_number(changes.changed);
    text.push(" came to another thing:\n");
    for (place, change) in changes.changes.iter().enumerate() {
        if place < SHOWN {
            push_change(text, change);
        }
    }
    let more = changes.changes.len().saturating_sub(SHOWN);
    if more > 0 {
        text.push("  and ");
        text.push_number(more as u64);
        text.push(" more, of less time each\n");
    }
}

/// Two builds side by side: their sums, and what came to another thing.
pub fn compare(alloc: Global, one: &Build, other: &Build) -> Result<String, AllocError> {
    let mut text = Writer::new(alloc);
    push_sums(&mut text, alloc, &one.sums, &other.sums);
    match changes_between(alloc, one, other) {
        Ok(changes) => push_changes(&mut text, &changes),
        Err(_) => text.cut(),
    }
    text.done()
}
