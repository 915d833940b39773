//! Stores that may forget.

ghost use Rattle.std.specs.Prelude.{◌≡◌, true, Option};
ghost use Rattle.std.specs.Option.{option_copied};
ghost use Rattle.std.specs.Borrow.{sem};
ghost use Rattle.std.specs.Io.BufRead.{Rests};
ghost use Rattle.ckeys_base.specs.Shelf.{Shelf, Asks, Puts, Clears};

/// A map that may drop pairs at any call on `&mut self`. Keys are compared by their `Eq`.
pub trait Store<K: Eq, V> {
    /// What can be seen of it.
    ghost shelf: { Self → Shelf K V };

    /// Lends what the map holds under the key, and may drop pairs first. It takes no memory.
    fn get(&mut self, key: &K) -> Option<&V>
        ensures* after_borrow { sem 𝓛 (Rests Self.row self.entry (λ new.
            Asks (shelf self.old) (shelf new) key.now (option_copied result))) };

    /// Adds a pair, in the place of what the key had, or hands it back where it is refused.
    fn put(&mut self, key: K, value: V) -> Result<(), (K, V)>
        ensures { Puts K.eq (shelf self.old) (shelf self.new) key value result };

    /// Drops all pairs.
    fn forget_all(&mut self)
        ensures { Clears (shelf self.old) (shelf self.new) };

    /// Whether no pair was dropped and none refused yet. It takes no memory.
    fn kept_all(&self) -> bool
        ensures { result ≡ (shelf self.now).kept };

    /// How often `get` answered nothing for a key that was held just before, modulo 2 ^ 64. It takes no memory.
    fn forgot(&self) -> u64
        ensures { result ≡ (shelf self.now).forgets };

    /// How often `forget_all` was called, modulo 2 ^ 64. It takes no memory.
    fn cleared(&self) -> u64
        ensures { result ≡ (shelf self.now).clears };

    /// How often `put` was called, modulo 2 ^ 64. It takes no memory.
    fn puts(&self) -> u64
        ensures { result ≡ (shelf self.now).puts };

    /// How often `get` was called, modulo 2 ^ 64. It takes no memory.
    fn gets(&self) -> u64
        ensures { result ≡ (shelf self.now).gets };

    /// Equal keys hold the same.
    ghost respects: { (s : Self) (a b : K) → K.eq a b ≡ true → (shelf s).held a ≡ (shelf s).held b };
}

/// A look-up of a store that has kept all changes nothing: each key holds what it held, and no key was forgotten.
pub fn kept_look_up_changes_nothing<K, V>()
    ensures held { (old new : Shelf K V) (key : K) (answer : Option V) → Asks old new key answer
        → new.kept ≡ true → (q : K) → new.held q ≡ old.held q }
    ensures forgot { (old new : Shelf K V) (key : K) (answer : Option V) → Asks old new key answer
        → new.kept ≡ true → new.forgets ≡ old.forgets }
{}
