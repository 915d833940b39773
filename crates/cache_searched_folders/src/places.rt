//! Where names are looked for: folders by their paths, and names as they are written.

use base_files::join;
use cache_watch_lists::{PlainName, Unwatched};
use std::alloc::Global;

/// A folder in which names are looked for.
#[derive(Drop)]
pub(crate) struct Place {
    /// Its path, without a slash after it: that of the topmost folder is empty.
    pub(crate) path: String,
    /// Its number, where something was looked for there.
    pub(crate) number: Option<usize>,
}

/// The folders in which a compiler looks, in their order.
#[derive(Drop)]
pub struct Places {
    /// For names in quotes alone.
    pub(crate) quoted: Vec<Place>,
    /// For all names.
    pub(crate) bracketed: Vec<Place>,
}

/// A name that is looked for.
#[derive(Drop)]
pub(crate) struct Name<'n> {
    pub(crate) text: &'n str,
    pub(crate) number: usize,
    /// As listings have it.
    pub(crate) plain: Option<PlainName<'n>>,
}

/// The path of a folder, which may be one of the call's, with a slash after it.
pub(crate) fn path_of(alloc: Global, dir: &[u8], folder: &[u8]) -> Result<String, Unwatched> {
    let folder = join(alloc, dir, folder)?;
    let path = join(alloc, folder.as_bytes(), b"")?;
    match String::from_utf8(path.into_vec()) {
        Ok(path) => Ok(path),
        Err(_) => Err(Unwatched::Path),
    }
}

/// The path of a folder of which that one has no slash after it.
pub(crate) fn or_topmost(path: &str) -> &str {
    if path.is_empty() { "/" } else { path }
}

/// The path of the folder above that one.
pub(crate) fn above(path: &str) -> &str {
    match path.rsplit_once('/') {
        Some((front, _)) => front,
        None => "",
    }
}

impl Place {
    /// The path of a name there.
    pub(crate) fn path_of(&self, alloc: Global, name: &str) -> Result<String, Unwatched> {
        if name.starts_with('/') {
            return Ok(String::from_str(alloc, name)?);
        }
        let folder = self.path.as_str();
        Ok(format!(in alloc; "{folder}/{name}")?)
    }
}
