//! The builds of a log, distinguished by parent and gap.

use crate::call::Call;
use std::alloc::{AllocError, Global};
use std::collections::BTreeSet;

/// A call that begins so many microseconds after all earlier ones ended, and whose parent had none of them, begins another build.
const GAP: u64 = 5_000_000;

/// One that begins so long after them does so in any case.
const LONG_GAP: u64 = 3_600_000_000;

/// What is known of the calls of a build so far.
#[derive(Drop)]
struct Known {
    end: u64,
    parents: BTreeSet<u64>,
}

impl Known {
    /// Whether a call is of another build.
    fn is_apart(&self, call: &Call) -> bool {
        let gap = call.start.saturating_sub(self.end);
        gap > LONG_GAP || (gap > GAP && !self.parents.contains(&call.parent))
    }
}

/// At which of these calls, which are in order, a build begins.
pub fn beginnings(alloc: Global, calls: &[Call]) -> Result<Vec<usize>, AllocError> {
    let mut places = Vec::new(alloc);
    let mut known = Known {
        end: 0,
        parents: BTreeSet::new(alloc),
    };
    for (place, call) in calls.iter().enumerate() {
        if place == 0 || known.is_apart(call) {
            places.push(place)?;
            known = Known {
                end: 0,
                parents: BTreeSet::new(alloc),
            };
        }
        known.end = known.end.max(call.end);
        known.parents.insert(call.parent)?;
    }
    Ok(places)
}

/// At which of these calls the last build begins.
fn last_beginning(alloc: Global, calls: &[Call]) -> Result<usize, AllocError> {
    let places = beginnings(alloc, calls)?;
    Ok(places.last().copied().unwrap_or(0))
}

/// The calls of the last build, or all of them.
pub fn chosen(alloc: Global, calls: Vec<Call>, has_all: bool) -> Result<Vec<Call>, AllocError> {
    if has_all {
        return Ok(calls);
    }
    let first = last_beginning(alloc, calls.as_slice())?;
    calls.into_iter().skip(first).collect(alloc)
}
