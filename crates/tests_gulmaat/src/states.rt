//! States of files: tokens that stand for contents, outputs that were made, locks on their paths, devices that are trusted, and since when a file
//! is the same.

use crate::disks::{change, change_all, line_of, make_fresh};
use crate::rows::{Question, Row, are_answered, says, text_or_fail, yes_or_no};
use base_files::{FileTime, OsBytes};
use base_formats::put_framed;
use cache_dir::digest_of;
use cache_disk::{State, time_of};
use cache_host::CommandLine;
use cache_source_files::{Tokens, lock_paths, made_since, states_of};
use cache_watch_lists::devices_in;
use std::alloc::{AllocError, Global};
use std::fs;
use std::fs::{File, OpenOptions};
use std::test::Fail;
use tests_kit::holds;

/// The row of the token `token` for a path, in this state.
fn row_of(alloc: Global, place: &str, state: State) -> Result<Vec<u8>, AllocError> {
    let mut row = Vec::new(alloc);
    put_framed(&mut row, place.as_bytes())?;
    state.put(&mut row)?;
    put_framed(&mut row, b"token")?;
    Ok(row)
}

/// The token that is noted of a file in its state now.
fn tokens_of(rt: &HostRuntime, place: &str) -> Result<Tokens, Fail> {
    let alloc = rt.alloc();
    let state = State::of(&fs::metadata(rt, place)?);
    let row = row_of(alloc, place, state)?;
    let mut tokens = Tokens::new(alloc);
    tokens.take_rows(alloc, row.as_slice())?;
    Ok(tokens)
}

/// Whether these tokens know a file as it is now.
fn knows(rt: &HostRuntime, tokens: &Tokens, place: &str) -> Result<bool, Fail> {
    let metadata = fs::metadata(rt, place)?;
    let path = OsBytes::from_slice(rt.alloc(), place.as_bytes())?;
    match tokens.get(&path, &metadata) {
        Some(token) => Ok(token.as_bytes() == b"token".as_slice()),
        None => Ok(false),
    }
}

/// What is done in the folder, and whether the tokens of `a.h` then know a file.
const KNOWN: &str = r#"
 | gulmaat_tests_tokens/a.h => yes
 | gulmaat_tests_tokens/b.h => no
write a.h longer | gulmaat_tests_tokens/a.h => no
"#;

/// Whether these tokens know a file.
#[derive(Clone, Copy)]
struct IsKnown<'a> {
    tokens: &'a Tokens,
}

impl Question for IsKnown<'_> {
    fn answer(&self, rt: &HostRuntime, row: &Row<'_>) -> Result<String, Fail> {
        change(rt, "gulmaat_tests_tokens", row.first)?;
        let is_known = knows(rt, self.tokens, row.second)?;
        yes_or_no(rt.alloc(), is_known)
    }
}

#[test]
fn tokens_are_of_a_state(rt: HostRuntime) -> Result<(), Fail> {
    let folder = "gulmaat_tests_tokens";
    make_fresh(&rt, folder)?;
    change_all(&rt, folder, "write a.h one\nwrite b.h one")?;
    let tokens = tokens_of(&rt, "gulmaat_tests_tokens/a.h")?;
    let known = are_answered(&rt, KNOWN, &IsKnown { tokens: &tokens });
    drop(tokens);
    known
}

/// A list of this path alone.
fn alone(alloc: Global, path: &str) -> Result<Vec<OsBytes>, Fail> {
    let mut paths = Vec::new(alloc);
    paths.push(OsBytes::from_slice(alloc, path.as_bytes())?)?;
    Ok(paths)
}

/// What is done between two looks at `a.o`, and what was made there then.
const MADE: &str = r#"
 => none
write a.o one => one
 => none
write b.o two => none
write a.o longer => longer
remove a.o => none
folder a.o => none
"#;

/// What was made at a path, as text.
fn text_of_made(alloc: Global, made: &[Option<OsBytes>]) -> Result<String, Fail> {
    match made {
        [Some(contents)] => text_or_fail(format!(in alloc; "{contents}")),
        _ => says(alloc, "none"),
    }
}

/// What was made at a path while a row was done.
struct MadeWhile;

impl Question for MadeWhile {
    fn answer(&self, rt: &HostRuntime, row: &Row<'_>) -> Result<String, Fail> {
        let paths = alone(rt.alloc(), "gulmaat_tests_made/a.o")?;
        let before = states_of(rt, paths.as_slice())?;
        let changed = change(rt, "gulmaat_tests_made", row.first);
        let made = made_since(rt, paths.as_slice(), before.as_slice());
        drop(before);
        drop(paths);
        changed?;
        match made {
            Ok(made) => text_of_made(rt.alloc(), made.as_slice()),
            Err(_) => Err("what was made can't be told".into()),
        }
    }
}

#[test]
fn outputs_are_made(rt: HostRuntime) -> Result<(), Fail> {
    make_fresh(&rt, "gulmaat_tests_made")?;
    are_answered(&rt, MADE, &MadeWhile)
}

/// The file of the lock of a path, where there is one.
fn lock_of(rt: &HostRuntime, folder: &str, path: &str) -> Result<Option<File>, Fail> {
    let alloc = rt.alloc();
    let Ok(digest) = digest_of(alloc, path.as_bytes()) else {
        return Err("no digest".into());
    };
    let name = digest.as_str().get(..3).unwrap_or("");
    let place = format!(in alloc; "{folder}/kept/locks/{name}")?;
    let mut options = OpenOptions::new();
    options.append(true);
    Ok(options.open(rt, place.as_str()).ok())
}

/// Whether these outputs have the lock of this object, as long as it is held.
fn lock_object(
    rt: &HostRuntime,
    folder: &str,
    line: &CommandLine,
    paths: &[OsBytes],
    object: &str,
) -> Result<bool, Fail> {
    let Ok(locks) = lock_paths(rt, line, paths, None) else {
        return Err("no lock".into());
    };
    let Some(file) = lock_of(rt, folder, object)? else {
        return Ok(false);
    };
    let is_held = file.try_lock().is_err();
    drop(locks);
    Ok(is_held && file.try_lock().is_ok())
}

/// The path of the file `real/a.o`.
fn object_in(rt: &HostRuntime, folder: &str) -> Result<String, Fail> {
    let real = fs::canonicalize(rt, folder)?;
    text_or_fail(format!(in rt.alloc(); "{}/real/a.o", real.as_str()))
}

/// Whether an output of this name has the lock of the file `real/a.o`, as long as it is held.
fn locks_object(rt: &HostRuntime, folder: &str, name: &str) -> Result<bool, Fail> {
    let object = object_in(rt, folder)?;
    let paths = alone(rt.alloc(), name)?;
    let line = line_of(rt, folder, "-c a.c")?;
    lock_object(rt, folder, &line, paths.as_slice(), object.as_str())
}

/// Names of outputs, and whether they have the lock of `real/a.o`: another file, the file itself, and the file by a link.
const LOCKED: &str = r#"
real/b.o => no
real/a.o => yes
linked/a.o => yes
"#;

/// Whether an output has the lock of the object.
struct LocksObject;

impl Question for LocksObject {
    fn answer(&self, rt: &HostRuntime, row: &Row<'_>) -> Result<String, Fail> {
        let locks_object = locks_object(rt, "gulmaat_tests_locks", row.first)?;
        yes_or_no(rt.alloc(), locks_object)
    }
}

#[test]
fn outputs_are_locked(rt: HostRuntime) -> Result<(), Fail> {
    let folder = "gulmaat_tests_locks";
    make_fresh(&rt, folder)?;
    change_all(&rt, folder, "folder real\nlink linked real")?;
    are_answered(&rt, LOCKED, &LocksObject)
}

/// Lines of the list of mounts, as the kernel's manual has them, and the number of the device, in hexadecimal, where its file system is trusted.
const MOUNTS: &str = r#"
 =>
36 35 98:0 /mnt1 /mnt2 rw,noatime master:1 - ext3 /dev/root rw,errors=continue => 6200
36 35 98:0 /mnt1 /mnt2 rw,noatime - ext4 /dev/root rw => 6200
40 35 259:300 / / rw shared:1 master:2 - xfs /dev/nvme rw => 11032c
41 35 0:44 / /home rw - nfs4 server:/home rw =>
42 35 0:45 / /mnt rw - squashfs /dev/loop0 ro =>
"#;

/// The first trusted device of a list of mounts.
struct TrustedDevice;

impl Question for TrustedDevice {
    fn answer(&self, rt: &HostRuntime, row: &Row<'_>) -> Result<String, Fail> {
        let devices = devices_in(rt.alloc(), row.first.as_bytes())?;
        match devices.iter().next() {
            Some(device) => text_or_fail(format!(in rt.alloc(); "{device:x}")),
            None => Ok(String::new(rt.alloc())),
        }
    }
}

#[test]
fn devices_are_trusted(rt: HostRuntime) -> Result<(), Fail> {
    are_answered(&rt, MOUNTS, &TrustedDevice)
}

/// A moment by its seconds and nanoseconds.
type Moment = (i64, u32);

/// When a call began, and before which moment a file of any file system must have been changed last to have been the same since.
const BEGINNINGS: [(Moment, Moment); 3] = [
    ((5, 20_000_001), (5, 1)),
    ((5, 20_000_000), (5, 0)),
    ((5, 19_999_999), (4, 980_000_000)),
];

#[test]
fn files_are_the_same_since_a_call_began(rt: HostRuntime) -> Result<(), Fail> {
    let mut line = line_of(&rt, "/d", "-c a.c")?;
    let start = FileTime::from_seconds(0);
    let mut are_right = line.began == start;
    for (began, wanted) in BEGINNINGS.iter() {
        line.began = time_of(began.0, i64::from(began.1));
        let found = line.settled_before();
        are_right = are_right && (found.seconds, found.nanoseconds) == *wanted;
    }
    drop(line);
    holds(are_right, "when a file must have been changed last")
}
