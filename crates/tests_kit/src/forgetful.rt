//! For tests: a store that forgets and refuses by a list of orders.

ghost use Rattle.std.specs.Prelude.{◌≡◌, ◌↔◌, true, None};
ghost use Rattle.std.specs.HashMap.{get};
ghost use Rattle.std.proofs.Common.{rules};
ghost use Rattle.ckeys_base.specs.Shelf.{Asks, KeepsKeys, Puts};
ghost use Rattle.tests_kit.specs.Alone.{IsAlone};

use ckeys_base::Store;
use std::alloc::Global;
use std::collections::HashMap;
use std::hash::Hash;
use std::vec::IntoIter;

/// What a store does at a call.
#[derive(Clone, Copy, Debug, PartialEq, Eq)]
pub enum Order {
    /// What is asked.
    Keep,
    /// It drops all pairs, and then does what is asked.
    DropAll,
    /// It refuses the pair. A look-up is answered as ever.
    Refuse,
}

/// Follows these orders, one at each `get` and each `put`, and does what is asked after the last one.
#[derive(Drop)]
pub struct Forgetful<K: Eq + Hash, V> {
    map: HashMap<K, V>,
    orders: IntoIter<Order>,
    kept: bool,
    forgot: u64,
    cleared: u64,
    puts: u64,
    gets: u64,
    /// How many pairs were refused by an order.
    pub refused: u64,
}

impl<K: Eq + Hash + Drop, V: Drop> Forgetful<K, V> {
    /// One that holds nothing.
    pub fn new(alloc: Global, orders: Vec<Order>) -> Forgetful<K, V>
        ensures empty { (q : K) → get K.eq result.map q ≡ None }
        ensures kept { result.kept ≡ true }
    {
        Forgetful {
            map: HashMap::new(alloc),
            orders: orders.into_iter(),
            kept: true,
            forgot: 0,
            cleared: 0,
            puts: 0,
            gets: 0,
            refused: 0,
        }
    }

    /// How many pairs are held.
    pub fn len(&self) -> usize {
        self.map.len()
    }

    /// Takes the next order.
    fn next_order(&mut self) -> Order
        ensures map { self.new.map ≡ self.old.map }
        ensures kept { self.new.kept ≡ self.old.kept }
        ensures forgot { self.new.forgot ≡ self.old.forgot }
        ensures cleared { self.new.cleared ≡ self.old.cleared }
        ensures puts { self.new.puts ≡ self.old.puts }
        ensures gets { self.new.gets ≡ self.old.gets }
    {
        match self.orders.next() {
            Some(order) => order,
            None => Order::Keep,
        }
    }

    /// Drops all pairs.
    fn drop_all(&mut self)
        ensures gone { (q : K) → get K.eq self.new.map q ≡ None }
        ensures kept { (self.new.kept ≡ true) ↔ ((self.old.kept ≡ true)
            × KeepsKeys (λ q. get K.eq self.old.map q) (λ q. get K.eq self.new.map q)) }
        ensures forgot { self.new.forgot ≡ self.old.forgot }
        ensures cleared { self.new.cleared ≡ self.old.cleared }
        ensures puts { self.new.puts ≡ self.old.puts }
        ensures gets { self.new.gets ≡ self.old.gets }
    {
        keys_are_themselves::<K>();
        self.kept = self.kept && self.map.is_empty();
        self.map.clear();
    }

    /// Drops all pairs before one under this key is put. What that key held isn't lost by it.
    fn drop_for(&mut self, key: &K)
        ensures gone { (q : K) → get K.eq self.new.map q ≡ None }
        ensures kept { (self.new.kept ≡ true) ↔ ((self.old.kept ≡ true)
            × IsAlone (K.eq key.now) (λ q. get K.eq self.old.map q)) }
        ensures forgot { self.new.forgot ≡ self.old.forgot }
        ensures cleared { self.new.cleared ≡ self.old.cleared }
        ensures puts { self.new.puts ≡ self.old.puts }
        ensures gets { self.new.gets ≡ self.old.gets }
    {
        drop(self.map.remove(key));
        self.drop_all();
    }

    /// Drops all pairs before a look-up of the key, where that is ordered.
    fn fade(&mut self, key: &K)
        ensures { let shelf = ⟦<Forgetful<K, V> as Store<K, V>>⟧.shelf in
            Asks (shelf self.old) (shelf self.new) key.now (get K.eq self.new.map key.now) }
    {
        self.gets = self.gets.wrapping_add(1);
        if self.next_order() != Order::DropAll {
            return;
        }
        if self.map.contains_key(key) {
            self.forgot = self.forgot.wrapping_add(1);
        }
        self.drop_all();
    }

    /// Adds a pair.
    fn add(&mut self, key: K, value: V) -> Result<(), (K, V)>
        ensures { let shelf = ⟦<Forgetful<K, V> as Store<K, V>>⟧.shelf in
            Puts K.eq (shelf self.old) (shelf self.new) key value result }
    {
        self.puts = self.puts.wrapping_add(1);
        match self.map.insert(key, value) {
            Ok(_) => Ok(()),
            Err(failed) => {
                self.kept = false;
                Err(failed.value)
            }
        }
    }

    /// Adds a pair, and drops all others.
    fn put_alone(&mut self, key: K, value: V) -> Result<(), (K, V)>
        ensures { let shelf = ⟦<Forgetful<K, V> as Store<K, V>>⟧.shelf in
            Puts K.eq (shelf self.old) (shelf self.new) key value result }
    {
        self.puts = self.puts.wrapping_add(1);
        self.drop_for(&key);
        match self.map.insert(key, value) {
            Ok(_) => Ok(()),
            Err(failed) => {
                self.kept = false;
                Err(failed.value)
            }
        }
    }

    /// Hands a pair back.
    fn refuse(&mut self, key: K, value: V) -> Result<(), (K, V)>
        ensures { let shelf = ⟦<Forgetful<K, V> as Store<K, V>>⟧.shelf in
            Puts K.eq (shelf self.old) (shelf self.new) key value result }
    {
        self.puts = self.puts.wrapping_add(1);
        self.refused = self.refused.wrapping_add(1);
        self.kept = false;
        Err((key, value))
    }
}

impl<K: Eq + Hash + Drop, V: Drop> Store<K, V> for Forgetful<K, V> {
    ghost shelf = { λ s. record {
      held = λ key. get K.eq s.map key;
      kept = s.kept;
      forgets = s.forgot;
      clears = s.cleared;
      puts = s.puts;
      gets = s.gets;
    } };

    ghost respects = { λ s a b e. Prim.search rules };

    fn get(&mut self, key: &K) -> Option<&V> {
        self.fade(key);
        self.map.get(key)
    }

    fn put(&mut self, key: K, value: V) -> Result<(), (K, V)> {
        match self.next_order() {
            Order::Keep => self.add(key, value),
            Order::DropAll => self.put_alone(key, value),
            Order::Refuse => self.refuse(key, value),
        }
    }

    fn forget_all(&mut self) {
        self.drop_all();
        self.cleared = self.cleared.wrapping_add(1);
    }

    fn kept_all(&self) -> bool {
        self.kept
    }

    fn forgot(&self) -> u64 {
        self.forgot
    }

    fn cleared(&self) -> u64 {
        self.cleared
    }

    fn puts(&self) -> u64 {
        self.puts
    }

    fn gets(&self) -> u64 {
        self.gets
    }
}

/// Each key is equal to itself. Calls of it do nothing.
fn keys_are_themselves<K: Eq>()
    ensures { (key : K) → K.eq key key ≡ true }
{}
