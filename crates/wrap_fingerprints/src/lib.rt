//! Of what a request's key is made, kept as a value: its fingerprint, and the first part in which two of them differ.
#![tactic(auto)]

mod c_parts;
mod difference;
pub mod explain;
mod fingerprint;
mod laws;
mod part;
mod pieces;

pub use c_parts::CParts;
pub use difference::Difference;
pub use fingerprint::{Fingerprint, request_fingerprint};
pub use laws::fingerprints_tell_records;
pub use part::Part;
