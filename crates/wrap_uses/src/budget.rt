//! A store with a budget: what would pass it is handed back.

ghost use Rattle.std.specs.Prelude.{◌≡◌, OnErr};
ghost use Rattle.wrap.specs.Shelf.{Puts};
ghost use Rattle.wrap_uses.specs.Budgets.{IsRefused, Left, Spends, shelf_of, size_of};

use wrap::{OsBytes, Pairs, Store, StoreKey};

/// Keeps outputs in another store until the contents that it took come to so many bytes; what would pass that is refused. Room
/// that the other store drops isn't used again before all is forgotten.
#[derive(Drop)]
pub struct BudgetStore<O> {
    inner: O,
    budget: u64,
    left: u64,
    refused: bool,
    puts: u64,
}

/// What is left of these bytes after the contents of these outputs, if they fit.
fn left_after(pairs: &[(OsBytes, OsBytes)], bytes: u64) -> Option<u64>
    ensures { Left bytes (size_of pairs.now) result }
{
    let mut left = bytes;
    let mut rest = pairs;
    while let Some((first, others)) = rest.split_first() {
        let size = first.1.as_bytes().len() as u64;
        if left < size {
            return None;
        }
        left -= size;
        rest = others;
    }
    Some(left)
}

impl<O: Store<StoreKey, Pairs>> BudgetStore<O> {
    /// That store, with a budget of so many bytes.
    pub fn new(inner: O, budget: u64) -> BudgetStore<O>
        ensures inner { result.inner ≡ inner }
        ensures left { result.left ≡ budget }
    {
        BudgetStore {
            inner,
            budget,
            left: budget,
            refused: false,
            puts: 0,
        }
    }

    /// How many bytes may still be kept.
    pub fn left(&self) -> u64
        ensures { result ≡ self.now.left }
    {
        self.left
    }
}

impl<O: Store<StoreKey, Pairs>> Store<StoreKey, Pairs> for BudgetStore<O> {
    ghost shelf = { shelf_of O.shelf };

    ghost respects = { λ s a b e. O.respects s.inner a b e };

    fn get(&mut self, key: &StoreKey) -> Option<&Pairs> {
        self.inner.get(key)
    }

    fn put(&mut self, key: StoreKey, value: Pairs) -> Result<(), (StoreKey, Pairs)>
        ensures stored { Puts ⟦<StoreKey as PartialEq>⟧.eq (shelf_of O.shelf self.old)
            (shelf_of O.shelf self.new) key value result }
        // It refuses only what would pass the budget, or what the other store refuses.
        ensures refused { OnErr result
            (IsRefused ⟦<StoreKey as PartialEq>⟧.eq O.shelf self.old self.new key value) }
        // What is kept takes its size from what is left, so that it never passes the budget.
        ensures spent { Spends (size_of value) self.old.left self.new.left result }
    {
        self.puts = self.puts.wrapping_add(1);
        match left_after(value.as_slice(), self.left) {
            Some(left) => {
                self.inner.put(key, value)?;
                self.left = left;
                Ok(())
            }
            None => {
                self.refused = true;
                Err((key, value))
            }
        }
    }

    fn forget_all(&mut self) {
        self.inner.forget_all();
        self.left = self.budget;
    }

    fn kept_all(&self) -> bool {
        self.inner.kept_all() && !self.refused
    }

    fn forgot(&self) -> u64 {
        self.inner.forgot()
    }

    fn cleared(&self) -> u64 {
        self.inner.cleared()
    }

    fn puts(&self) -> u64 {
        self.puts
    }

    fn gets(&self) -> u64 {
        self.inner.gets()
    }
}
