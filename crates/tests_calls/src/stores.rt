//! Stores: look-ups that find, and look-ups that don't, each with the put that follows it.

use crate::words::Tally;
use base_bounded_store::LruStore;
use ckeys_base::Store;
use std::alloc::{AllocError, Global};
use std::num::NonZeroUsize;
use wrap_base::MapStore;

/// Looks up so many keys from the first one on, and puts a pair under each that isn't held. It tallies what was found.
fn turns<S: Store<u64, usize>>(store: &mut S, first: u64, count: u32) -> Tally {
    let mut tally = Tally::none();
    for step in 0..count {
        let key = first.wrapping_add(u64::from(step));
        match store.get(&key).copied() {
            Some(held) => {
                tally.count = tally.count.wrapping_add(1);
                tally.bytes = tally.bytes.wrapping_add(held);
            }
            None => put(store, key),
        }
    }
    tally
}

/// Puts a pair under the key. One that is refused isn't found again, which a tally shows.
fn put<S: Store<u64, usize>>(store: &mut S, key: u64) {
    let _ = store.put(key, 1);
}

/// Fills a store with so many pairs, and so often looks up each of them.
fn hits<S: Store<u64, usize>>(store: &mut S, pairs: u32, repeats: u32) -> Tally {
    let mut last = turns(store, 0, pairs);
    for _ in 0..repeats {
        last = turns(store, 0, pairs);
    }
    last
}

/// Fills a store with so many pairs, and so often looks up as many that it doesn't hold and puts them. It tallies whether the last of
/// them are found.
fn misses<S: Store<u64, usize>>(store: &mut S, pairs: u32, repeats: u32) -> Tally {
    turns(store, 0, pairs);
    let mut first: u64 = 0;
    for _ in 0..repeats {
        first = first.wrapping_add(u64::from(pairs));
        turns(store, first, pairs);
    }
    turns(store, first, pairs)
}

/// Looks up keys of a bounded store at its bound of so many pairs, so often each: those that it holds, or others.
pub(crate) fn bounded_turns(
    alloc: Global,
    finds: bool,
    pairs: u32,
    repeats: u32,
) -> Result<Tally, AllocError> {
    let Some(capacity) = NonZeroUsize::new(pairs as usize) else {
        return Ok(Tally::none());
    };
    let mut store = LruStore::new(alloc, capacity)?;
    let tally = if finds {
        hits(&mut store, pairs, repeats)
    } else {
        misses(&mut store, pairs, repeats)
    };
    Ok(tally)
}

/// The same of a store without a bound.
pub(crate) fn map_turns(alloc: Global, finds: bool, pairs: u32, repeats: u32) -> Tally {
    let mut store = MapStore::new(alloc);
    if finds {
        hits(&mut store, pairs, repeats)
    } else {
        misses(&mut store, pairs, repeats)
    }
}
