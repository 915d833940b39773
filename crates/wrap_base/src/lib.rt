//! What a session is built on: requests and answers, tools, and what each of them means.
#![tactic(auto)]

mod answer;
mod call;
mod compiler;
mod config;
mod map_store;
mod reason;
mod request;
pub mod store_key;
mod tool;

pub use answer::{Answer, How, Output, pairs_of};
pub use call::Call;
pub use compiler::{AnyC, CDescription, Compiler, Named};
pub use config::Config;
pub use map_store::MapStore;
pub use reason::Reason;
pub use request::Request;
pub use tool::{Compiled, Tool};
