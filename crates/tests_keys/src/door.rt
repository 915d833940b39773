//! The names of a caller of a key of a C request, by `ckeys` alone: this is built only while it hands on each of them, and calls that make use of
//! those that other names' signatures have in them.

pub use ckeys::{
    ArtifactDescriptor, Asker, CACHE_VERSION, CCompiler, CCompilerHasher, CCompilerImpl,
    CCompilerKind, CShape, CachedResult, CallPlace, ConfigError, Digest, EntryKey, Error, Fault,
    HASH_BUFFER_SIZE, HashCall, HashKeyParams, HashState, IncludeEntry, KeptSlices, KeyConfig,
    KeyText, Language, Mark, Markers, MetadataCtimeExt, OsStrExt, ParsedArguments, Preprocessor,
    PreprocessorCacheEntry, Printed, SeenInput, Step, Store, Ticks, TimeMacroFinder, Timestamp,
    ToolFail, UnescapeError, Walk, Zone, ZoneError, ascii_unescape_default, decode_path,
    encode_path, fmt_duration_as_secs, hash_arguments, hash_keys, hex, kept_slices, local_day,
    normalize_path, normalize_win_path, preprocessor_cache_entry_hash_key, reader_sync_time_macros,
    resolve_compiler_avoiding_wrapper, strip_basedirs, strip_basedirs_from_arg, walk,
};
use std::alloc::{AllocError, Global};

/// The key of who asks over this input, with these digests of extra files, if it has one.
pub fn key_over<H: HashState>(
    alloc: Global,
    asker: &Asker<'_>,
    extra: &[String],
    input: &SeenInput<'_>,
) -> Result<Option<String>, AllocError> {
    preprocessor_cache_entry_hash_key::<H>(alloc, asker, extra, input)
}

/// The first name in the markers of a text.
pub fn first_name(text: &[u8]) -> Option<&[u8]> {
    for mark in Markers::new(text) {
        if let Mark::Named(name) = mark {
            return Some(name);
        }
    }
    None
}

/// The key of the first result of a record.
pub fn first_key(record: &PreprocessorCacheEntry) -> Option<&KeyText> {
    let first: &CachedResult = record.results().first()?;
    Some(&first.key)
}

/// Another hasher of the same request.
pub fn another<'a, I>(
    hasher: &CCompilerHasher<'a, I>,
) -> Result<CCompilerHasher<'a, I>, AllocError> {
    hasher.clone()
}

/// Whether the escapes of a text can't be read.
pub fn is_badly_escaped(alloc: Global, text: &[u8]) -> bool {
    match ascii_unescape_default(alloc, text) {
        Ok(_) => false,
        Err(error) => error == UnescapeError::BadEscape,
    }
}
