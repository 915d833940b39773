//! A store of include records that remembers for which key it was asked last, and what was put last.

ghost use Rattle.std.specs.Prelude.{◌≡◌, None, IfOk, IfSome};
ghost use Rattle.std.specs.Borrow.{sem};
ghost use Rattle.std.specs.Io.BufRead.{Rests};
ghost use Rattle.std.specs.Option.{option_copied};
ghost use Rattle.ckeys_base.specs.Shelf.{Asks, Puts};
ghost use Rattle.wrap_replay.specs.contracts.watched_records.WatchedRecords.{the_row};

use std::alloc::AllocError;
use wrap::{EntryKey, PreprocessorCacheEntry, Store};

/// Keeps include records in another store, and remembers the key of the last look-up and the last pair that was put.
#[derive(Drop)]
pub struct WatchedRecords<E> {
    inner: E,
    asked: Option<EntryKey>,
    newest: Option<(EntryKey, PreprocessorCacheEntry)>,
}

/// A copy of a key and its record.
fn pair_again(
    key: &EntryKey,
    entry: &PreprocessorCacheEntry,
) -> Result<(EntryKey, PreprocessorCacheEntry), AllocError>
    ensures { IfOk result (λ pair. pair ≡ (key.now, entry.now)) }
{
    let key = key.clone()?;
    Ok((key, entry.clone()?))
}

impl<E: Store<EntryKey, PreprocessorCacheEntry>> WatchedRecords<E> {
    /// That store, which wasn't asked yet, nor given anything.
    pub fn new(inner: E) -> WatchedRecords<E>
        ensures inner { result.inner ≡ inner }
        ensures asked { result.asked ≡ None }
        ensures newest { result.newest ≡ None }
    {
        WatchedRecords {
            inner,
            asked: None,
            newest: None,
        }
    }

    /// The key of the last look-up, unless memory for a copy of it was refused.
    pub fn asked(&self) -> Option<&EntryKey>
        ensures { option_copied result ≡ self.now.asked }
    {
        self.asked.as_ref()
    }

    /// The last pair that was put, unless memory for a copy of it was refused.
    pub fn newest(&self) -> Option<&(EntryKey, PreprocessorCacheEntry)>
        ensures { option_copied result ≡ self.now.newest }
    {
        self.newest.as_ref()
    }

    fn note_asked(&mut self, key: &EntryKey)
        ensures inner { self.new.inner ≡ self.old.inner }
        ensures asked { IfSome self.new.asked (λ asked. asked ≡ key.now) }
        ensures newest { self.new.newest ≡ self.old.newest }
    {
        self.asked = key.clone().ok();
    }

    fn note_put(&mut self, key: &EntryKey, entry: &PreprocessorCacheEntry)
        ensures inner { self.new.inner ≡ self.old.inner }
        ensures newest { IfSome self.new.newest (λ newest. newest ≡ (key.now, entry.now)) }
        ensures asked { self.new.asked ≡ self.old.asked }
    {
        self.newest = pair_again(key, entry).ok();
    }
}

impl<E: Store<EntryKey, PreprocessorCacheEntry>> Store<EntryKey, PreprocessorCacheEntry>
    for WatchedRecords<E> {
    ghost shelf = { λ s. E.shelf s.inner };

    ghost respects = { λ s a b e. E.respects s.inner a b e };

    fn get(&mut self, key: &EntryKey) -> Option<&PreprocessorCacheEntry>
        // The key is noted, or none where memory for a copy was refused.
        ensures* after_borrow { sem 𝓛 (Rests (the_row E.row) self.entry
            (λ new. Asks (E.shelf self.old.inner) (E.shelf new.inner) key.now (option_copied result)
            × IfSome new.asked (λ asked. asked ≡ key.now))) }
    {
        self.note_asked(key);
        self.inner.get(key)
    }

    fn put(
        &mut self,
        key: EntryKey,
        value: PreprocessorCacheEntry,
    ) -> Result<(), (EntryKey, PreprocessorCacheEntry)>
        ensures stored { Puts ⟦<EntryKey as PartialEq>⟧.eq (E.shelf self.old.inner)
            (E.shelf self.new.inner) key value result }
        // The pair is noted, or none where memory for a copy was refused.
        ensures newest { IfSome self.new.newest (λ newest. newest ≡ (key, value)) }
        ensures asked { self.new.asked ≡ self.old.asked }
    {
        self.note_put(&key, &value);
        self.inner.put(key, value)
    }

    fn forget_all(&mut self) {
        self.inner.forget_all();
    }

    fn kept_all(&self) -> bool {
        self.inner.kept_all()
    }

    fn forgot(&self) -> u64 {
        self.inner.forgot()
    }

    fn cleared(&self) -> u64 {
        self.inner.cleared()
    }

    fn puts(&self) -> u64 {
        self.inner.puts()
    }

    fn gets(&self) -> u64 {
        self.inner.gets()
    }
}
