//! What is kept on a disk as a session has it: outputs under their whole key, and manifests under their entry key. A broken file is as one
//! that isn't there.
#![tactic(auto)]

mod copies;
mod manifest_files;
pub mod manifests;
pub mod results;

pub use copies::copied_names;
pub use manifest_files::{manifest_under, name_of_manifest, put_manifest};
