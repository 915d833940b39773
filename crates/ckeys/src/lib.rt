//! Keys of C requests: what is hashed of a request, in which order, and what its bytes alone don't determine; and the names of the
//! layers below that a caller of a key uses. Words, compilers and files are handed on by `cmdlines`.
#![tactic(auto)]

mod call_list;
mod compiler;
mod compiler_impl;
mod contents;
mod entry;
mod hasher;
mod known;
mod laws;
mod needed;
mod place;

pub use call_list::{HashCall, hash_keys};
pub use ckeys_base::error::Error;
pub use ckeys_base::{
    Digest, HASH_BUFFER_SIZE, HashState, KeptSlices, OsStrExt, Store, UnescapeError,
    ascii_unescape_default, decode_path, encode_path, fmt_duration_as_secs, hex, kept_slices,
    normalize_path, normalize_win_path, resolve_compiler_avoiding_wrapper, strip_basedirs,
    strip_basedirs_from_arg,
};
pub use ckeys_include_records::entry_key::EntryKey;
pub use ckeys_include_records::{
    Asker, CachedResult, IncludeEntry, KeyText, PreprocessorCacheEntry, SeenInput,
    preprocessor_cache_entry_hash_key,
};
pub use ckeys_marker_walk::walk::walk;
pub use ckeys_marker_walk::{Mark, Markers, Walk};
pub use ckeys_records::shape::CShape;
pub use ckeys_records::{
    CACHE_VERSION, ConfigError, Fault, HashKeyParams, KeyConfig, Preprocessor, Printed, Step,
    Ticks, ToolFail, hash_arguments,
};
pub use ckeys_time_macros::{
    MetadataCtimeExt, TimeMacroFinder, Timestamp, Zone, ZoneError, local_day,
    reader_sync_time_macros,
};
pub use cmdlines_base::ArtifactDescriptor;
pub use cmdlines_tables::language::Language;
pub use cmdlines_tables::{CCompilerKind, ParsedArguments};
pub use compiler::CCompiler;
pub use compiler_impl::CCompilerImpl;
pub use contents::KeyContents;
pub use hasher::{CCompilerHasher, needs_c_preprocessing};
pub use laws::{entry_premises_can_be_met, records_are_true};
pub use place::CallPlace;
