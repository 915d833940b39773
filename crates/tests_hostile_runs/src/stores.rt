//! Stores that are looked at, and sessions over them.

use crate::answers::{AnswerTexts, answer_texts};
use base_bounded_store::LruStore;
use base_files::Files;
use ckeys::{EntryKey, PreprocessorCacheEntry};
use ckeys_base::Store;
use sha2::Sha256;
use std::alloc::{AllocError, Global};
use std::hash::Hash;
use tests_kit::Forgetful;
use wrap::Session;
use wrap_base::store_key::{Pairs, StoreKey};
use wrap_base::{MapStore, Request, Tool};

/// What is seen of a store.
#[derive(Clone, Copy)]
pub(crate) struct Seen {
    /// How often it was asked to look up.
    pub(crate) gets: u64,
    /// How often it was asked to put.
    pub(crate) puts: u64,
    /// How many pairs it refused by an order.
    pub(crate) refused: u64,
    /// How often a look-up forgot what was asked for.
    pub(crate) forgot: u64,
    /// Whether it kept all.
    pub(crate) kept: bool,
    /// How many pairs it holds.
    pub(crate) held: usize,
}

/// A store that says how many pairs it holds, and how many it refused by an order.
pub(crate) trait Watched<K: Eq, V>: Store<K, V> + Drop {
    fn held(&self) -> usize;

    fn refused(&self) -> u64;
}

impl<K: Eq + Hash + Drop, V: Drop> Watched<K, V> for MapStore<K, V> {
    fn held(&self) -> usize {
        self.len()
    }

    fn refused(&self) -> u64 {
        0
    }
}

impl<K: Eq + Hash + Drop, V: Drop> Watched<K, V> for LruStore<K, V> {
    fn held(&self) -> usize {
        self.len()
    }

    fn refused(&self) -> u64 {
        0
    }
}

impl<K: Eq + Hash + Drop, V: Drop> Watched<K, V> for Forgetful<K, V> {
    fn held(&self) -> usize {
        self.len()
    }

    fn refused(&self) -> u64 {
        self.refused
    }
}

/// What is seen of this store.
fn seen_of<K: Eq, V, S: Watched<K, V>>(store: &S) -> Seen {
    Seen {
        gets: store.gets(),
        puts: store.puts(),
        refused: store.refused(),
        forgot: store.forgot(),
        kept: store.kept_all(),
        held: store.held(),
    }
}

/// A session, whatever its stores. Who calls it loads none of what a session promises.
pub(crate) trait Served {
    /// What a request is answered, as texts.
    fn answered<F: Files, T: Tool>(
        &mut self,
        alloc: Global,
        request: &Request,
        files: &mut F,
        tool: &mut T,
    ) -> Result<AnswerTexts, AllocError>;

    /// What is seen of the store of include records.
    fn records(&self) -> Seen;

    /// What is seen of the store of outputs.
    fn outputs(&self) -> Seen;
}

impl<E: Watched<EntryKey, PreprocessorCacheEntry>, O: Watched<StoreKey, Pairs>> Served
    for Session<Sha256, E, O> {
    fn answered<F: Files, T: Tool>(
        &mut self,
        alloc: Global,
        request: &Request,
        files: &mut F,
        tool: &mut T,
    ) -> Result<AnswerTexts, AllocError> {
        let answer = self.serve(request, files, tool);
        let texts = answer_texts(alloc, &answer);
        drop(answer);
        texts
    }

    fn records(&self) -> Seen {
        seen_of(self.entries())
    }

    fn outputs(&self) -> Seen {
        seen_of(self.objects())
    }
}
