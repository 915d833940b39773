//! Lanes, in which calls are shown that never overlap.

use crate::call::Call;
use std::alloc::{AllocError, Global};

/// Gives each of these calls, which are in order, the first lane that is free as it begins. How many lanes there are then.
pub fn pack(alloc: Global, calls: &mut [Call]) -> Result<u32, AllocError> {
    let mut ends: Vec<u64> = Vec::new(alloc);
    for call in calls.iter_mut() {
        let free = ends.iter().position(|end| *end <= call.start);
        let lane = free.unwrap_or(ends.len());
        call.lane = u32::try_from(lane).unwrap_or(u32::MAX);
        match ends.get_mut(lane) {
            Some(end) => *end = call.end,
            None => ends.push(call.end)?,
        }
    }
    Ok(u32::try_from(ends.len()).unwrap_or(u32::MAX))
}
