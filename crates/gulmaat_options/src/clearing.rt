//! What is kept is removed.

use crate::error::OptionError;
use cache_dir::Kind;
use std::io::ErrorKind;
use std::rt::Files;
use std::{fs, io};

/// How often it is tried to remove a folder.
const TRIES: u32 = 16;

/// Whether what was to be removed is gone, by whomever.
fn is_gone(done: &io::Result<()>) -> bool {
    match done {
        Ok(()) => true,
        Err(error) => error.kind() == ErrorKind::NotFound,
    }
}

/// Takes away a folder with all that is in it. While others put files there it is tried again.
fn clear_folder<R: Files + AllocGlobal>(rt: &R, place: &str) -> Result<(), OptionError> {
    for _ in 0..TRIES {
        if is_gone(&fs::remove_dir_all(rt, place)) {
            return Ok(());
        }
    }
    Err(OptionError::Wrong(format!(in rt.alloc(); "{place} can't be removed")?))
}

/// Takes away what is kept under this name.
fn clear_part<R: Files + AllocGlobal>(rt: &R, kept: &str, part: &str) -> Result<(), OptionError> {
    let place = format!(in rt.alloc(); "{kept}/{part}")?;
    clear_folder(rt, place.as_str())
}

/// Takes away the file of sizes.
fn clear_sizes<R: Files + AllocGlobal>(rt: &R, kept: &str) -> Result<(), OptionError> {
    let place = format!(in rt.alloc(); "{kept}/sizes")?;
    match is_gone(&fs::remove_file(rt, place.as_str())) {
        true => Ok(()),
        false => Err(OptionError::Device),
    }
}

/// Takes away all that is kept in this folder, and not its settings nor its counters.
pub fn clear<R: Files + AllocGlobal>(rt: &R, kept: &str) -> Result<(), OptionError> {
    for kind in Kind::ALL.iter() {
        clear_part(rt, kept, kind.name())?;
    }
    clear_sizes(rt, kept)
}
