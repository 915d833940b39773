//! The session that answers requests, and with it all that a caller of it names. What one request is answered, of whichever family, goes by
//! the verdict on it and its key, over the stores of the session.
#![tactic(auto)]

mod answering;
mod c_calls;
mod compile;
mod laws;
mod outputs;
mod prepared;
mod rust_calls;
mod session;
mod sizes;

pub use base_bounded_store::LruStore;
pub use base_files::{
    FileFail, FileTime, Files, Listed, MemoryFile, MemoryFiles, Metadata, OsBytes,
};
pub use ckeys::{CCompiler, EntryKey, PreprocessorCacheEntry};
pub use ckeys_base::{HashState, Store};
pub use ckeys_records::output_name::OutputName;
pub use ckeys_records::shape::CShape;
pub use ckeys_records::{
    ConfigError, Fault, KeyConfig, Preprocessor, Printed, RustcAnswers, Step, Ticks, ToolFail,
};
pub use ckeys_time_macros::{Zone, ZoneError};
pub use cmdlines::{Clang, Diab, Gcc, Msvc, TaskingVX};
pub use cmdlines_base::{ArtifactDescriptor, SingleCompileCommand};
pub use cmdlines_tables::CCompilerKind;
pub use cmdlines_tables::language::Language;
pub use laws::{
    call_keys_tell_records, cfg_places_do_not_count_in_store_keys,
    dep_info_is_answered_where_emitted, fingerprints_tell_store_keys,
    folders_do_not_count_in_store_keys, no_limit_is_passed_by_none, premises_can_be_met,
    premises_can_be_met_over_records, records_of_earlier_calls_are_true,
    records_that_are_not_kept_change_nothing, store_keys_tell_records, two_direct_runs_agree,
    two_runs_agree,
};
pub use rustc_compiler::{Rust, RustFault};
pub use rustc_parts::parts::{EnvDep, Parts, RShape};
pub use session::Session;
pub use wrap_base::store_key::{Family, Pairs, Shape, StoreKey};
pub use wrap_base::{
    Answer, AnyC, Call, Compiled, Compiler, Config, How, MapStore, Named, Output, Reason, Request,
    Tool,
};
pub use wrap_fingerprints::explain::explain;
pub use wrap_fingerprints::{CParts, Fingerprint, Part};
