//! Links by which the program runs in place of compilers: a folder with them comes before those of the compilers in `PATH`.

use crate::error::OptionError;
use std::fs;
use std::os::unix::fs::symlink;
use std::rt::Files;

/// Names of compilers.
const NAMES: [&str; 6] = ["cc", "c++", "gcc", "g++", "clang", "clang++"];

/// Whether a name of a file is one of a compiler: one of these names, or with a version or the machine that it compiles for, as `gcc-12` and
/// `x86_64-linux-gnu-g++`.
pub fn is_compiler(name: &str) -> bool {
    let bare = match name.rsplit_once('-') {
        Some((front, version)) if is_version(version) => front,
        _ => name,
    };
    match bare.rsplit_once('-') {
        Some((machine, last)) => machine.contains('-') && NAMES.contains(&last),
        None => NAMES.contains(&bare),
    }
}

/// Whether it is a number, perhaps with dots in it.
fn is_version(text: &str) -> bool {
    for byte in text.as_bytes() {
        if !matches!(byte, b'0'..=b'9' | b'.') {
            return false;
        }
    }
    !text.is_empty()
}

/// Puts a link to the host under that name into the folder, in the place of an old one.
fn put_link<R: Print + Files + AllocGlobal>(
    rt: &R,
    host: &str,
    folder: &str,
    name: &str,
) -> Result<(), OptionError> {
    let place = format!(in rt.alloc(); "{folder}/{name}")?;
    if let Ok(metadata) = fs::symlink_metadata(rt, place.as_str()) {
        if !metadata.is_symlink() {
            return Err(OptionError::Wrong(format!(in rt.alloc();
                "{place} is there, and is no link: name another folder"
            )?));
        }
        fs::remove_file(rt, place.as_str())?;
    }
    symlink(rt, host, place.as_str())?;
    println!(rt; "{place}")?;
    Ok(())
}

/// Puts links for the compilers of a folder of the path.
fn put_links<R: Print + Files + AllocGlobal + Clone + Drop>(
    rt: &R,
    host: &str,
    folder: &str,
    from: &str,
) -> Result<(), OptionError> {
    let Ok(entries) = fs::read_dir(rt, from) else {
        return Ok(());
    };
    for entry in entries {
        let Ok(entry) = entry else {
            continue;
        };
        if is_compiler(entry.file_name()) {
            put_link(rt, host, folder, entry.file_name())?;
        }
    }
    Ok(())
}

/// Puts links to the host into the folder, one for each name of a compiler that is on this path.
pub fn links<R: Print + Files + AllocGlobal + Clone + Drop>(
    rt: &R,
    host: &str,
    folder: &str,
    path: &str,
) -> Result<(), OptionError> {
    fs::create_dir_all(rt, folder)?;
    for from in path.split(':') {
        if from.starts_with('/') && from != folder {
            put_links(&rt, host, folder, from)?;
        }
    }
    Ok(())
}
