//! Keys of texts without folders, and digests of texts: as they are, and without folders by way of a copy.

use base_files::OsBytes;
use ckeys_base::{Digest, strip_basedirs};
use ckeys_records::HashKeyParams;
use cmdlines_tables::language::Language;
use sha2::Sha256;
use std::alloc::{AllocError, Global};

/// What stands for the compiler in each key.
const COMPILER_DIGEST: &str = "d";

/// Makes the key of the text so often, as one of a request in C with these folders and no other part.
pub(crate) fn keys(
    alloc: Global,
    text: &[u8],
    folders: &[OsBytes],
    repeats: u32,
) -> Result<String, AllocError> {
    let params = HashKeyParams::new(COMPILER_DIGEST, Language::C, &[], text).with_basedirs(folders);
    let mut last = String::new(alloc);
    for _ in 0..repeats {
        let (key, _) = params.compute::<Sha256>(alloc)?;
        last = key;
    }
    Ok(last)
}

/// The digest of a text.
fn digest_of(alloc: Global, text: &[u8]) -> Result<String, AllocError> {
    let mut digest: Digest<Sha256> = Digest::new();
    digest.update(text);
    digest.finish(alloc)
}

/// Digests the text so often, as it is.
pub(crate) fn text_digests(alloc: Global, text: &[u8], repeats: u32) -> Result<String, AllocError> {
    let mut last = String::new(alloc);
    for _ in 0..repeats {
        last = digest_of(alloc, text)?;
    }
    Ok(last)
}

/// Digests the text so often, by way of a copy without these folders.
pub(crate) fn copy_digests(
    alloc: Global,
    text: &[u8],
    folders: &[OsBytes],
    repeats: u32,
) -> Result<String, AllocError> {
    let mut last = String::new(alloc);
    for _ in 0..repeats {
        let left = strip_basedirs(alloc, text, folders)?;
        last = digest_of(alloc, left.as_slice())?;
    }
    Ok(last)
}
