//! One call of rustc, and what it comes to: the session is asked again and again over what is known of the call, each time with more.
#![tactic(auto)]

mod deciding;
mod finishing;

pub use deciding::{RustcEnd, RustcWhat, decide_on_rustc};
