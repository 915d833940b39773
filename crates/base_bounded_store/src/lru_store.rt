//! A store of bounded size, by the order in which its pairs were used: a new key in a full store drops the last pair of that order.

ghost use Rattle.std.specs.Prelude.{◌≡◌, ◌≤◌, ◌↔◌, true, IfOk, []};
ghost use Rattle.std.specs.Option.{option_copied};
ghost use Rattle.std.specs.Borrow.{sem};
ghost use Rattle.std.specs.HashMap.Eq.{lookup_congr};
ghost use Rattle.std.specs.NonZero.{non_zero_usize_get};
ghost use Rattle.lru.specs.LruCache.{IsValid};
ghost use Rattle.ckeys_base.specs.Shelf.{Asks, Clears, IsEmpty, KeepsKeys, Puts};
ghost use Rattle.base_bounded_store.specs.Lent.{StoreRests};
ghost use Rattle.base_bounded_store.specs.LruStores.{HasRoomFor, MakesFirst, PutsFirst, capacity_of, count_of, shelf_of, uses_of};

use ckeys_base::Store;
use lru::LruCache;
use std::alloc::{AllocError, Global};
use std::hash::Hash;
use std::num::NonZeroUsize;

/// Keeps at most a number of pairs. A new key in a full store drops the pair that was least recently used. A look-up goes by
/// the key's hash, and makes the pair the most recently used; so does a put.
#[derive(Drop)]
pub struct LruStore<K: Eq + Hash, V> {
    cache: LruCache<K, V>,
    kept: bool,
    cleared: u64,
    puts: u64,
    gets: u64,
}

impl<K: Eq + Hash + Drop, V: Drop> LruStore<K, V> {
    /// A store that holds nothing and has kept all. It takes memory for no pair yet, whatever the capacity.
    pub fn new(alloc: Global, capacity: NonZeroUsize) -> Result<LruStore<K, V>, AllocError>
        ensures empty { IfOk result (λ store. IsEmpty (shelf_of K.eq store)) }
        ensures order { IfOk result (λ store. uses_of store ≡ []) }
        ensures capacity { IfOk result (λ store. capacity_of store ≡ non_zero_usize_get capacity) }
        ensures kept { IfOk result (λ store. (shelf_of K.eq store).kept ≡ true) }
        ensures ticks { IfOk result
            (λ store. ((shelf_of K.eq store).forgets ≡ 0) × ((shelf_of K.eq store).clears ≡ 0)
            × ((shelf_of K.eq store).puts ≡ 0) × ((shelf_of K.eq store).gets ≡ 0)) }
    {
        Ok(LruStore {
            cache: LruCache::sparse(alloc, capacity)?,
            kept: true,
            cleared: 0,
            puts: 0,
            gets: 0,
        })
    }

    /// How many pairs are held, at most the capacity. It takes no memory.
    pub fn len(&self) -> usize
        ensures count { result ≡ count_of self.now }
        ensures fits { result ≤ capacity_of self.now }
    {
        self.cache.len()
    }

    /// No two keys are equal, and there are no more pairs than the capacity. It does nothing.
    fn keys_differ(&self)
        ensures { IsValid K.eq self.now.cache }
    {
        self.cache.len();
    }

    /// Whether all was kept so far, and a put of the key drops nothing.
    fn keeps_all_with(&self, key: &K) -> bool
        ensures { (result ≡ true)
            ↔ ((self.now.kept ≡ true) × HasRoomFor K.eq self.now key.now) }
    {
        self.kept && (self.cache.contains(key) || self.cache.len() < self.cache.cap().get())
    }

    /// Drops all pairs.
    fn drop_all(&mut self)
        ensures gone { uses_of self.new ≡ [] }
        ensures kept { (self.new.kept ≡ true)
            ↔ ((self.old.kept ≡ true)
            × KeepsKeys (shelf_of K.eq self.old).held (shelf_of K.eq self.new).held) }
        ensures capacity { capacity_of self.new ≡ capacity_of self.old }
        ensures cleared { self.new.cleared ≡ self.old.cleared }
        ensures puts { self.new.puts ≡ self.old.puts }
        ensures gets { self.new.gets ≡ self.old.gets }
    {
        keys_are_themselves::<K>();
        self.kept = self.kept && self.cache.is_empty();
        self.cache.clear();
    }
}

impl<K: Eq + Hash + Drop, V: Drop> Store<K, V> for LruStore<K, V> {
    ghost shelf = { shelf_of K.eq };

    ghost respects = { λ s a b e. lookup_congr K.eq K.Eq.laws.congr s.cache.entries a b e };

    fn get(&mut self, key: &K) -> Option<&V>
        ensures* after_borrow { sem 𝓛 (StoreRests K.row V.row K.Hash self.entry (λ new.
            Asks (shelf_of K.eq self.old) (shelf_of K.eq new) key.now (option_copied result)
            × MakesFirst K.eq self.old new key.now)) }
    {
        self.gets = self.gets.wrapping_add(1);
        self.keys_differ();
        self.cache.get(key)
    }

    fn put(&mut self, key: K, value: V) -> Result<(), (K, V)>
        ensures stored { Puts K.eq (shelf_of K.eq self.old) (shelf_of K.eq self.new) key value
            result }
        ensures order { PutsFirst K.eq self.old self.new key value result }
    {
        self.puts = self.puts.wrapping_add(1);
        self.keys_differ();
        let kept = self.keeps_all_with(&key);
        match self.cache.put(key, value) {
            Ok(_) => {
                self.kept = kept;
                Ok(())
            }
            Err(failed) => {
                self.kept = false;
                Err(failed.value)
            }
        }
    }

    fn forget_all(&mut self)
        ensures dropped { Clears (shelf_of K.eq self.old) (shelf_of K.eq self.new) }
        ensures order { uses_of self.new ≡ [] }
        ensures capacity { capacity_of self.new ≡ capacity_of self.old }
    {
        self.drop_all();
        self.cleared = self.cleared.wrapping_add(1);
    }

    fn kept_all(&self) -> bool {
        self.kept
    }

    fn forgot(&self) -> u64 {
        0
    }

    fn cleared(&self) -> u64 {
        self.cleared
    }

    fn puts(&self) -> u64 {
        self.puts
    }

    fn gets(&self) -> u64 {
        self.gets
    }
}

/// Each key is equal to itself. Calls of it do nothing.
fn keys_are_themselves<K: Eq>()
    ensures { (key : K) → K.eq key key ≡ true }
{}
