//! One call of a C compiler, and what it comes to. The session is asked again and again, each time with more that is known of what the
//! compiler and the disk say.
#![tactic(auto)]

mod deciding;
mod finding;
mod finishing;

pub use deciding::{End, What, decide_on_c};
