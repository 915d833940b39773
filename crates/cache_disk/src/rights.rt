//! Rights of what is made in the folder of what is kept, where a umask is set for that.

use std::fs::Permissions;
use std::io::ErrorKind;
use std::os::unix::fs::PermissionsExt;
use std::rt::Files;
use std::{fs, io};

/// The rights of files that no umask takes from.
const FILE: u32 = 0o666;

/// Those of folders.
const FOLDER: u32 = 0o777;

/// Gives a file that was made just now the rights that this umask leaves; without one it has those of the process.
pub fn give_rights<R: Files>(rt: &R, place: &str, umask: Option<u32>) -> io::Result<()> {
    match umask {
        Some(umask) => fs::set_permissions(rt, place, Permissions::from_mode(FILE & !umask)),
        None => Ok(()),
    }
}

/// Makes a folder, where it isn't there.
fn make_folder<R: Files>(rt: &R, place: &str, umask: u32) -> io::Result<()> {
    match fs::create_dir(rt, place) {
        Ok(()) => fs::set_permissions(rt, place, Permissions::from_mode(FOLDER & !umask)),
        Err(error) if error.kind() == ErrorKind::AlreadyExists => Ok(()),
        Err(error) => Err(error),
    }
}

/// Makes a folder and those that it lies in, where they aren't there, with the rights that this umask leaves.
pub fn make_folders<R: Files>(rt: &R, place: &str, umask: Option<u32>) -> io::Result<()> {
    let Some(umask) = umask else {
        return fs::create_dir_all(rt, place);
    };
    if fs::metadata(rt, place).is_ok() {
        return Ok(());
    }
    for (at, byte) in place.bytes().enumerate() {
        if byte == b'/' && at != 0 {
            if let Some((folder, _)) = place.split_at_checked(at) {
                make_folder(rt, folder, umask)?;
            }
        }
    }
    make_folder(rt, place, umask)
}
