//! The C compiler of a command line, with a digest of its driver and of the parts that this runs or loads; and what the session is asked about
//! a call: its request, without what gulmaat sees to itself, or why the session isn't asked at all.
#![tactic(auto)]

mod call;
mod clang_files;
mod compilers;
mod native;
mod parts;
mod passing;
mod precompiled;
mod specs;

pub use call::{Call, call_of};
pub use compilers::{KnownCompiler, compiler_at, kind_of};
pub use native::native_of;
pub use passing::reason_against;
