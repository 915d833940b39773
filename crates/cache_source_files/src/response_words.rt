//! Response files of a call: a compiler takes their words in the place of the words that name them, so they are read before all else.

use crate::loading::load;
use base_files::{Listed, OsBytes};
use base_snapshots::SnapshotFiles;
use cache_host::HostError;
use cmdlines_response_files::{ParseFault, Style, expand};
use std::rt::Files;

/// How many files are read at most.
const MOST: usize = 64;

/// The words of a command to GCC or Clang in that folder, with those of the response files that they name. A word whose file isn't there
/// stays, as compilers have it. None where a file can't be read, or there are too many.
pub fn opened_words<R: Files + AllocGlobal>(
    rt: &R,
    dir: &OsBytes,
    words: &[OsBytes],
) -> Result<Option<Listed<OsBytes>>, HostError> {
    let mut files = SnapshotFiles::new(rt.alloc());
    // Each turn reads the file that was asked for.
    for _ in 0..MOST {
        match expand(rt.alloc(), Style::Gnu, dir, words, &mut files) {
            Ok(opened) => return Ok(Some(opened)),
            Err(ParseFault::Memory) => return Err(HostError::Memory),
            Err(ParseFault::Read(path)) => {
                if !load(rt, path, &mut files)? {
                    return Ok(None);
                }
            }
        }
    }
    Ok(None)
}
