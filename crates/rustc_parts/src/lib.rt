//! The pieces of which the key of a request to rustc is made, and the bytes that are hashed of them, written and read.
#![tactic(auto)]

mod laws;
mod order;
pub mod parts;
mod reading;
mod writing;

pub use laws::{bytes_and_shape_tell_parts, variables_have_one_order};
pub use order::{compare_env_deps, compare_pairs};
pub use reading::read_key_bytes;
pub use writing::key_bytes;
