//! Keys of requests to rustc: what is asked for one, what is hashed of it, and what a compile of it runs; and with it the
//! names of the layers below that a caller of a key uses. Words and files are handed on by `cmdlines`, texts and faults by `ckeys`.
#![tactic(auto)]

mod archives;
mod asking;
mod collecting;
mod compilation;
mod digests;
mod finishing;
mod hasher;
mod laws;
mod ordered_lists;
mod place;

pub use ckeys_records::RustcAnswers;
pub use compilation::RustCompilation;
pub use hasher::RustHasher;
pub use laws::{dep_info_is_told_where_emitted, rustc_keys_tell_records};
pub use rustc_compiler::{Rust, RustFault};
pub use rustc_options::parsed::{CrateTypes, ParsedArguments};
pub use rustc_options::{
    ArgCodegen, ArgCrateTypes, ArgData, ArgExtern, ArgLinkLibrary, ArgLinkPath, ArgTarget,
    ArgUnstable,
};
pub use rustc_parts::parts::{EnvDep, Parts, RShape};
pub use rustc_parts::{key_bytes, read_key_bytes};
pub use rustc_texts::{TextFault, dep_info_with_targets, parse_dep_info, parse_env_dep_info};
pub use rustkeys_base::parse::parse_arguments;
pub use rustkeys_base::{
    ExpandResponseFile, is_rmeta_artifact_notification, split_rust_response_file_args,
};
