//! A store that drops nothing by itself.

ghost use Rattle.std.specs.Prelude.{◌≡◌, ◌↔◌, true, None};
ghost use Rattle.std.specs.Borrow.{sem};
ghost use Rattle.std.specs.HashMap.{get};
ghost use Rattle.std.specs.Io.BufRead.{Rests};
ghost use Rattle.std.specs.Option.{option_copied};
ghost use Rattle.std.proofs.Common.{rules};
ghost use Rattle.ckeys_base.specs.Shelf.{Asks, Clears, KeepsKeys, Puts};
ghost use Rattle.wrap_base.specs.MapStores.{PutsAlone, asked_once, count_of, shelf_of};
ghost use Rattle.wrap_base.specs.contracts.map_store.MapStore.{the_row};

use ckeys_base::Store;
use std::alloc::Global;
use std::collections::HashMap;
use std::hash::Hash;

/// Keeps what it is given under each key, unless memory runs out or all is dropped on demand. A look-up goes by the key's
/// hash.
#[derive(Drop)]
pub struct MapStore<K: Eq + Hash, V> {
    map: HashMap<K, V>,
    kept: bool,
    cleared: u64,
    puts: u64,
    gets: u64,
}

impl<K: Eq + Hash + Drop, V: Drop> MapStore<K, V> {
    /// A store that holds nothing and has kept all. It takes no memory.
    pub fn new(alloc: Global) -> MapStore<K, V>
        ensures empty { (key : K) → (shelf_of K.eq result).held key ≡ None }
        ensures count { count_of result ≡ 0 }
        ensures kept { (shelf_of K.eq result).kept ≡ true }
        ensures ticks { ((shelf_of K.eq result).forgets ≡ 0) × ((shelf_of K.eq result).clears ≡ 0)
            × ((shelf_of K.eq result).puts ≡ 0) × ((shelf_of K.eq result).gets ≡ 0) }
    {
        MapStore {
            map: HashMap::new(alloc),
            kept: true,
            cleared: 0,
            puts: 0,
            gets: 0,
        }
    }

    /// Drops all pairs.
    fn drop_all(&mut self)
        ensures gone { (q : K) → get K.eq self.new.map q ≡ None }
        ensures kept { (self.new.kept ≡ true)
            ↔ ((self.old.kept ≡ true)
            × KeepsKeys (λ q. get K.eq self.old.map q) (λ q. get K.eq self.new.map q)) }
        ensures count { count_of self.new ≡ 0 }
        ensures cleared { self.new.cleared ≡ self.old.cleared }
        ensures puts { self.new.puts ≡ self.old.puts }
        ensures gets { self.new.gets ≡ self.old.gets }
    {
        keys_are_themselves::<K>();
        self.kept = self.kept && self.map.is_empty();
        self.map.clear();
    }

    /// How many pairs are held. It takes no memory.
    pub fn len(&self) -> usize
        ensures { result ≡ count_of self.now }
    {
        self.map.len()
    }
}

impl<K: Eq + Hash + Drop, V: Drop> Store<K, V> for MapStore<K, V> {
    ghost shelf = { shelf_of K.eq };

    ghost respects = { λ s a b e. Prim.search rules };

    fn get(&mut self, key: &K) -> Option<&V>
        // It changes nothing but that count, whatever was refused or dropped before.
        ensures* after_borrow { sem 𝓛 (Rests
            (the_row K.row V.row K.PartialEq (record { hash_input = K.hash_input })) self.entry
            (λ new. Asks (shelf_of K.eq self.old) (shelf_of K.eq new) key.now (option_copied result)
            × (new ≡ asked_once self.old))) }
    {
        self.gets = self.gets.wrapping_add(1);
        self.map.get(key)
    }

    fn put(&mut self, key: K, value: V) -> Result<(), (K, V)>
        ensures stored { Puts K.eq (shelf_of K.eq self.old) (shelf_of K.eq self.new) key value
            result }
        ensures alone { PutsAlone K.eq self.old self.new key value result }
    {
        self.puts = self.puts.wrapping_add(1);
        match self.map.insert(key, value) {
            Ok(_) => Ok(()),
            Err(failed) => {
                self.kept = false;
                Err(failed.value)
            }
        }
    }

    fn forget_all(&mut self)
        ensures dropped { Clears (shelf_of K.eq self.old) (shelf_of K.eq self.new) }
        ensures count { count_of self.new ≡ 0 }
    {
        self.drop_all();
        self.cleared = self.cleared.wrapping_add(1);
    }

    fn kept_all(&self) -> bool {
        self.kept
    }

    fn forgot(&self) -> u64 {
        0
    }

    fn cleared(&self) -> u64 {
        self.cleared
    }

    fn puts(&self) -> u64 {
        self.puts
    }

    fn gets(&self) -> u64 {
        self.gets
    }
}

/// Each key is equal to itself. Calls of it do nothing.
fn keys_are_themselves<K: Eq>()
    ensures { (key : K) → K.eq key key ≡ true }
{}
