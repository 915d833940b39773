//! What the words of a command say of the files that a compile writes beside its object, and of names of files in the object.

use crate::dependencies::{Dependencies, dependencies_of};
use crate::placed::PlacedWords;
use crate::prefix_maps::{PrefixMaps, prefix_maps_of};
use crate::side_files::{SideFiles, asked_by, side_files_of};
use base_files::{Listed, OsBytes};
use std::alloc::{AllocError, Global};

/// What the words of a command say of the files that a compile writes beside its object, and of names of files in the object.
#[derive(Drop)]
pub struct Beside {
    pub dependencies: Dependencies,
    pub side_files: SideFiles,
    /// The words that map names of files, once they were taken.
    pub maps: PrefixMaps,
}

impl Beside {
    /// Takes the words by which a GCC that runs in that folder maps names of files. In files beside the object it doesn't.
    pub fn take_maps(&mut self, alloc: Global, dir: &[u8]) -> Result<(), AllocError> {
        if self.side_files.words.is_empty() {
            self.maps = prefix_maps_of(alloc, dir, self.dependencies.others.as_slice())?;
        }
        Ok(())
    }

    /// The words that say nothing of these, as they are given to the session.
    pub fn session_words(&self, alloc: Global) -> Result<Listed<OsBytes>, AllocError> {
        let mut words = Listed::new(alloc);
        for placed in PlacedWords::of(self.dependencies.others.as_slice()) {
            if asked_by(placed).is_some() {
                continue;
            }
            if let Some(word) = self.maps.session_word(alloc, placed)? {
                words.push(with_long_name(alloc, word)?)?;
            }
        }
        Ok(words)
    }
}

/// A word as it is given to the session, which passes a call with `-specs=` through, and has no rule for the option's other name, `--specs=`.
fn with_long_name(alloc: Global, word: OsBytes) -> Result<OsBytes, AllocError> {
    if !word.as_bytes().starts_with(b"-specs=") {
        return Ok(word);
    }
    let mut long = Vec::from_slice(alloc, b"-")?;
    long.extend_from_slice(word.as_bytes())?;
    Ok(OsBytes::from_vec(long))
}

/// What the words of a command say of the files beside its object; nothing where it can't be determined which are written.
pub fn beside_of(alloc: Global, words: &[OsBytes]) -> Result<Option<Beside>, AllocError> {
    let Some(side_files) = side_files_of(alloc, words)? else {
        return Ok(None);
    };
    let Some(dependencies) = dependencies_of(alloc, words)? else {
        return Ok(None);
    };
    Ok(Some(Beside {
        dependencies,
        side_files,
        maps: PrefixMaps::new(alloc),
    }))
}
