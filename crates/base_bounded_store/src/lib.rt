//! A store of bounded size, which drops the pair that was least recently used.
#![tactic(auto)]

mod lru_store;

pub use lru_store::LruStore;
