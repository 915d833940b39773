//! Results and manifests of other machines, from a server that the host asks, and those of this machine for others. The server may forget, refuse
//! and answer what it likes: what isn't sealed is as if nothing came.
#![tactic(auto)]

mod asking;
mod failures;
mod manifests;
mod results;
mod sharing;

pub use manifests::fetched_manifest;
pub use results::fetched;
pub use sharing::{Shared, share};
