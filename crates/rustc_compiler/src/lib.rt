//! A rustc compiler: what it's known by, the digests of its toolchain, and the requests that it is asked.
#![tactic(auto)]

mod digests;
mod fault;
mod laws;
mod rust;
mod toolchain;

pub use fault::RustFault;
pub use laws::digests_are_formed;
pub use rust::Rust;
