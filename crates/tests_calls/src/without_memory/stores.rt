//! Calls of stores that hold one pair.

use super::keys::{key, two_keys};
use super::say_ready;
use crate::Fault;
use base_bounded_store::LruStore;
use ckeys_base::Store;
use std::alloc::Global;
use std::num::NonZeroUsize;
use wrap_base::MapStore;
use wrap_base::store_key::StoreKey;

/// What is kept under the first of the two keys.
const VALUE: u64 = 7;

/// The calls of a store in memory.
pub(crate) fn map_store<R: Eprint + AllocGlobal>(rt: &R) -> Result<bool, Fault> {
    let mut store = MapStore::new(rt.alloc());
    put(rt.alloc(), &mut store)?;
    has_its_pair(rt, &mut store)
}

/// The calls of one that has room for one pair.
pub(crate) fn bounded_store<R: Eprint + AllocGlobal>(rt: &R) -> Result<bool, Fault> {
    let mut store = LruStore::new(rt.alloc(), NonZeroUsize::MIN)?;
    put(rt.alloc(), &mut store)?;
    has_its_pair(rt, &mut store)
}

/// Puts the value under the first key.
fn put<S: Store<StoreKey, u64>>(alloc: Global, store: &mut S) -> Result<(), Fault> {
    match store.put(key(alloc, b"held")?, VALUE) {
        Ok(()) => Ok(()),
        Err(_) => Err(Fault::Memory),
    }
}

/// All calls but `put`.
fn has_its_pair<R: Eprint + AllocGlobal, S: Store<StoreKey, u64>>(
    rt: &R,
    store: &mut S,
) -> Result<bool, Fault> {
    let keys = two_keys(rt.alloc())?;
    say_ready(rt);
    let [held, other] = keys.as_slice() else {
        return Ok(false);
    };
    Ok(finds(store, held, other) && counts(store) && forgets(store, held))
}

/// The value is found under the one key, and none under the other.
fn finds<S: Store<StoreKey, u64>>(store: &mut S, held: &StoreKey, other: &StoreKey) -> bool {
    let found = store.get(held).copied();
    found == Some(VALUE) && store.get(other).is_none()
}

/// One pair was put, two keys were asked for, and nothing was forgotten.
fn counts<S: Store<StoreKey, u64>>(store: &S) -> bool {
    store.kept_all()
        && store.forgot() == 0
        && store.cleared() == 0
        && store.puts() == 1
        && store.gets() == 2
}

/// The value goes with all that is held.
fn forgets<S: Store<StoreKey, u64>>(store: &mut S, held: &StoreKey) -> bool {
    store.forget_all();
    store.get(held).is_none() && store.cleared() == 1 && !store.kept_all()
}
