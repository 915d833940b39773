//! Calls grouped: misses by what made them, and other calls by what they came to.

use crate::call::Call;
use crate::kind::Kind;
use crate::texts::Texts;
use std::alloc::{AllocError, Global};
use std::collections::BTreeMap;

/// Calls of one name.
#[derive(Drop)]
pub struct Group {
    pub name: String,
    pub count: u64,
    pub time: u64,
    /// The place of the longest of them among all calls.
    pub longest: usize,
}

/// What is known of the calls of a name so far.
#[derive(Clone, Copy)]
struct Found {
    count: u64,
    time: u64,
    longest: usize,
    most: u64,
}

/// A text without a front, where it has that.
fn after<'a>(text: &'a str, front: &str) -> Option<&'a str> {
    text.strip_prefix(front)
}

/// What caused a miss, from what is said of it: a file, or any other cause, without the position of a word.
pub fn maker_of(alloc: Global, why: &str) -> Result<String, AllocError> {
    if why.is_empty() {
        return String::from_str(alloc, "unknown");
    }
    if why == "the first call that was compiled" {
        return String::from_str(alloc, "the first time");
    }
    if let Some(file) = after(why, "text: lines of ") {
        return format!(in alloc; "by {file}");
    }
    if let Some(rest) = after(why, "word ") {
        if let Some((_, words)) = rest.split_once(": ") {
            return format!(in alloc; "by {words}");
        }
    }
    format!(in alloc; "by {why}")
}

/// The name of a call's group.
fn name_of(alloc: Global, texts: &Texts, call: &Call) -> Result<String, AllocError> {
    match call.kind {
        Kind::Miss => maker_of(alloc, texts.text(call.why)),
        _ => String::from_str(alloc, texts.text(call.what)),
    }
}

/// The groups as they are known, those that took longest first.
fn sorted(alloc: Global, found: BTreeMap<String, Found>) -> Result<Vec<Group>, AllocError> {
    let mut groups = Vec::new(alloc);
    for (name, found) in found {
        groups.push(Group {
            name,
            count: found.count,
            time: found.time,
            longest: found.longest,
        })?;
    }
    groups.sort_by(|one, other| other.time.cmp(&one.time))?;
    Ok(groups)
}

/// The groups of calls of these kinds, those that took longest first.
pub fn groups_of(
    alloc: Global,
    texts: &Texts,
    calls: &[Call],
    kinds: &[Kind],
) -> Result<Vec<Group>, AllocError> {
    let mut found: BTreeMap<String, Found> = BTreeMap::new(alloc);
    for (place, call) in calls.iter().enumerate() {
        if !kinds.contains(&call.kind) {
            continue;
        }
        let time = call.time();
        let group = found.entry(name_of(alloc, texts, call)?)?.or_insert(Found {
            count: 0,
            time: 0,
            longest: place,
            most: 0,
        });
        group.count = group.count.saturating_add(1);
        group.time = group.time.saturating_add(time);
        if time > group.most {
            group.most = time;
            group.longest = place;
        }
    }
    sorted(alloc, found)
}
