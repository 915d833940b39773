//! What a compile made, manifests, and of what the keys of compiled calls were made, as bytes on a disk: each ends with a digest of
//! its bytes, so that what is read is what was written.
#![tactic(auto)]

mod kept_crate;
mod kept_manifest;
mod kept_parts;
mod kept_result;
mod layout;
mod sealed;

pub use kept_crate::KeptCrate;
pub use kept_manifest::KeptManifest;
pub use kept_parts::KeptParts;
pub use kept_result::{KeptMessages, KeptResult};
pub use sealed::{Sealed, seal, unseal};
