//! The record of one entry key.

ghost use Rattle.std.specs.Prelude.{◌≡◌, true, false, [], ◌∷◌, ◌↔◌, IsSome, IfSome, IfOk, OnOk, OnErr};
ghost use Rattle.ckeys_include_records.specs.Records.{includes_in, is_record, is_small, result_with, rises};
ghost use Rattle.ckeys_include_records.specs.Results.{HasMore, place_for, put_in, with_result};
ghost use Rattle.ckeys_include_records.specs.Results as spec;

use crate::entry::{CachedResult, IncludeEntry};
use crate::key_text::KeyText;
use base_files::Listed;
use std::alloc::{AllocError, Global};
use std::marker::Model;

/// With more results than this, one more starts the record over.
const MAX_RESULTS: usize = 100;

/// With more includes than this, one more result starts the record over.
const MAX_INCLUDES: usize = 10000;

/// The texts that were printed under one entry key, in the order of their keys. Contracts see the results.
#[derive(Debug, Drop)]
pub struct PreprocessorCacheEntry {
    pub(crate) results: Vec<CachedResult>,
    pub(crate) includes: usize,
}

impl Model for PreprocessorCacheEntry {
    ghost use Rattle.std.specs.Prelude.{◌≡◌, true};
    ghost use Rattle.ckeys_include_records.specs.Records.{Record, includes_in, is_record, record_of};

    ghost Value = { Record };

    ghost view = { λ a. record_of a.results.items };

    ghost invariant = { λ a. (a.includes ≡ includes_in a.results.items) × (is_record a.results.items ≡ true) };
}

impl PreprocessorCacheEntry {
    /// No results. It takes no memory.
    #[tactic(auto, unfolding(crate::specs::Records::rises))]
    pub fn new(alloc: Global) -> PreprocessorCacheEntry
        ensures { result.results ≡ [] }
    {
        PreprocessorCacheEntry {
            results: Vec::new(alloc),
            includes: 0,
        }
    }

    /// The record of these results, where a record may hold them.
    pub(crate) fn from_results(results: Vec<CachedResult>) -> Option<PreprocessorCacheEntry>
        ensures some { IsSome result ↔ (is_record results.items ≡ true) }
        ensures value { IfSome result (λ entry. entry.results ≡ results.items) }
    {
        let includes = small_count(&results)?;
        if !rises(&results) {
            return None;
        }
        Some(PreprocessorCacheEntry { results, includes })
    }

    /// How many includes its results have together. It takes no memory and looks at no result.
    pub fn number_of_entries(&self) -> usize
        ensures number { result ≡ includes_in self.now.results }
        ensures kept { is_record self.now.results ≡ true }
    {
        self.includes
    }

    /// Its results, in the order of their keys.
    pub fn results(&self) -> &[CachedResult]
        ensures { result.now ≡ self.now.results }
    {
        self.results.as_slice()
    }

    /// Puts the files of a text under its key, over those that were there. Where there are more than 100 results, or all includes
    /// with the new ones pass 10000, the record starts over with this result alone.
    pub fn add_result(
        &mut self,
        key: KeyText,
        includes: Listed<IncludeEntry>,
    ) -> Result<(), AllocError>
        ensures ok { let newest = result_with key includes in
            OnOk result (self.new.results ≡ with_result self.old.results newest) }
        ensures more { let newest = result_with key includes in
            OnOk result (HasMore self.old.results newest self.new.results) }
        ensures small { is_record self.new.results ≡ true }
        ensures err { OnErr result (self.new ≡ self.old) }
    {
        let newest = CachedResult { key, includes };
        if self.starts_over(&newest.includes) {
            self.start_over(newest)
        } else {
            self.put(newest)
        }
    }

    /// Whether a result with these includes starts the record over.
    fn starts_over(&self, more: &Listed<IncludeEntry>) -> bool
        ensures { result ≡ spec.starts_over self.now.results more.now }
    {
        self.results.len() > MAX_RESULTS
            || self.includes > MAX_INCLUDES
            || more.len() > MAX_INCLUDES - self.includes
    }

    /// This result alone.
    #[tactic(auto, unfolding(crate::specs::Records::rises))]
    fn start_over(&mut self, newest: CachedResult) -> Result<(), AllocError>
        ensures ok { OnOk result (self.new.results ≡ newest ∷ []) }
        ensures small { is_record self.new.results ≡ true }
        ensures err { OnErr result (self.new ≡ self.old) }
    {
        let includes = newest.includes.len();
        let mut results = Vec::new(*self.results.allocator());
        results.push(newest)?;
        self.results = results;
        self.includes = includes;
        Ok(())
    }

    /// This result in its place, over the one that had its key.
    fn put(&mut self, newest: CachedResult) -> Result<(), AllocError>
        requires { spec.starts_over self.old.results newest.includes ≡ false }
        ensures ok { OnOk result (self.new.results ≡ put_in newest self.old.results) }
        ensures small { is_record self.new.results ≡ true }
        ensures err { OnErr result (self.new ≡ self.old) }
    {
        let more = newest.includes.len();
        let at = place_for(&self.results, &newest.key);
        if at < self.results.len() && self.results[at].key == newest.key {
            let others = self.includes - self.results[at].includes.len();
            self.results[at] = newest;
            self.includes = others + more;
        } else {
            self.results.insert(at, newest)?;
            self.includes += more;
        }
        Ok(())
    }
}

/// How many includes the results have together, where these are few enough for a record.
fn small_count(results: &[CachedResult]) -> Option<usize>
    ensures some { IsSome result ↔ (is_small results.now ≡ true) }
    ensures value { IfSome result (λ count. count ≡ includes_in results.now) }
{
    if results.len() > MAX_RESULTS + 1 {
        return None;
    }
    if results.len() == 1 {
        return Some(results[0].includes.len());
    }
    let mut count = 0;
    for result in results {
        let more = result.includes.len();
        if more > MAX_INCLUDES - count {
            return None;
        }
        count += more;
    }
    Some(count)
}

/// Whether each key comes before the next one.
#[tactic(auto, unfolding(crate::specs::Records::rises))]
fn rises(results: &[CachedResult]) -> bool
    ensures { result ≡ rises results.now }
{
    let mut rest = results;
    'pairs: while let [first, second, ..] = rest {
        if first.key >= second.key {
            return false;
        }
        rest = &rest[1..];
    }
    true
}

/// How many results at the start have smaller keys.
fn place_for(results: &[CachedResult], key: &KeyText) -> usize
    ensures { result ≡ place_for results.now key.now }
{
    let mut at = 0;
    while at < results.len() && results[at].key < *key {
        at += 1;
    }
    at
}

/// Records are equal exactly if their results are.
impl PartialEq for PreprocessorCacheEntry {
    ghost use Rattle.std.specs.Cmp.{on_per};
    ghost use Rattle.std.specs.Cmp.Lexicographic.{lists_per};
    ghost use Rattle.ckeys_include_records.specs.Records.{Record};
    ghost use Rattle.ckeys_include_records.specs.contracts.entry.CachedResultPartialEq.TheImpl.Laws.{laws-law};

    ghost eq = { λ one other. ⟦<Listed<CachedResult> as PartialEq>⟧.eq one.results other.results };

    ghost laws = { on_per (λ (entry : Record). entry.results) (lists_per laws-law) };

    fn eq(&self, other: &PreprocessorCacheEntry) -> bool {
        self.results == other.results
    }
}

impl Eq for PreprocessorCacheEntry {
    ghost use Rattle.std.specs.Cmp.{on_equiv};
    ghost use Rattle.std.specs.Cmp.Lexicographic.{lists_equiv};
    ghost use Rattle.ckeys_include_records.specs.Records.{Record};
    ghost use Rattle.ckeys_include_records.specs.contracts.entry.CachedResultEq.TheImpl.Laws.{laws-law};

    ghost laws = { on_equiv (λ (entry : Record). entry.results) (lists_equiv laws-law) };
}

impl Clone for PreprocessorCacheEntry {
    ghost is_clone = { λ entry copy. copy ≡ entry };

    fn clone(&self) -> Result<PreprocessorCacheEntry, AllocError> {
        Ok(PreprocessorCacheEntry {
            results: self.results.clone()?,
            includes: self.includes,
        })
    }
}
