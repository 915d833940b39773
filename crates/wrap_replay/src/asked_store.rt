//! A store that remembers for which key it was asked last.

ghost use Rattle.std.specs.Prelude.{◌≡◌, None, IfSome};
ghost use Rattle.std.specs.Borrow.{sem};
ghost use Rattle.std.specs.Io.BufRead.{Rests};
ghost use Rattle.std.specs.Option.{option_copied};
ghost use Rattle.ckeys_base.specs.Shelf.{Asks, Puts};
ghost use Rattle.wrap_replay.specs.contracts.asked_store.AskedStore.{the_row};

use std::alloc::Global;
use wrap::{Pairs, Store, StoreKey};

/// Keeps outputs in another store, and remembers the key of the last look-up.
#[derive(Drop)]
pub struct AskedStore<O> {
    alloc: Global,
    inner: O,
    asked: Option<StoreKey>,
}

impl<O: Store<StoreKey, Pairs>> AskedStore<O> {
    /// That store, which wasn't asked yet.
    pub fn new(alloc: Global, inner: O) -> AskedStore<O>
        ensures inner { result.inner ≡ inner }
        ensures asked { result.asked ≡ None }
    {
        AskedStore {
            alloc,
            inner,
            asked: None,
        }
    }

    /// The key of the last look-up, unless memory for a copy of it was refused.
    pub fn asked(&self) -> Option<&StoreKey>
        ensures { option_copied result ≡ self.now.asked }
    {
        self.asked.as_ref()
    }

    fn remember(&mut self, key: &StoreKey)
        ensures inner { self.new.inner ≡ self.old.inner }
        ensures asked { IfSome self.new.asked (λ asked. asked ≡ key.now) }
    {
        self.asked = key.clone().ok();
    }
}

impl<O: Store<StoreKey, Pairs>> Store<StoreKey, Pairs> for AskedStore<O> {
    ghost shelf = { λ s. O.shelf s.inner };

    ghost respects = { λ s a b e. O.respects s.inner a b e };

    fn get(&mut self, key: &StoreKey) -> Option<&Pairs>
        // The key is noted, or none where memory for a copy was refused.
        ensures* after_borrow { sem 𝓛 (Rests (the_row O.row) self.entry
            (λ new. Asks (O.shelf self.old.inner) (O.shelf new.inner) key.now (option_copied result)
            × IfSome new.asked (λ asked. asked ≡ key.now))) }
    {
        self.remember(key);
        self.inner.get(key)
    }

    fn put(&mut self, key: StoreKey, value: Pairs) -> Result<(), (StoreKey, Pairs)>
        ensures stored { Puts ⟦<StoreKey as PartialEq>⟧.eq (O.shelf self.old.inner)
            (O.shelf self.new.inner) key value result }
        ensures asked { self.new.asked ≡ self.old.asked }
    {
        self.inner.put(key, value)
    }

    fn forget_all(&mut self) {
        self.inner.forget_all();
    }

    fn kept_all(&self) -> bool {
        self.inner.kept_all()
    }

    fn forgot(&self) -> u64 {
        self.inner.forgot()
    }

    fn cleared(&self) -> u64 {
        self.inner.cleared()
    }

    fn puts(&self) -> u64 {
        self.inner.puts()
    }

    fn gets(&self) -> u64 {
        self.inner.gets()
    }
}
