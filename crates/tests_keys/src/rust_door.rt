//! The names of a caller of a key of a request to rustc, by `rustkeys` alone: this is built only while it hands on each of them.

pub use rustkeys::{
    ArgCodegen, ArgCrateTypes, ArgData, ArgExtern, ArgLinkLibrary, ArgLinkPath, ArgTarget,
    ArgUnstable, CrateTypes, EnvDep, ExpandResponseFile, ParsedArguments, Parts, RShape, Rust,
    RustCompilation, RustFault, RustHasher, RustcAnswers, TextFault, dep_info_with_targets,
    is_rmeta_artifact_notification, key_bytes, parse_arguments, parse_dep_info, parse_env_dep_info,
    read_key_bytes, split_rust_response_file_args,
};
