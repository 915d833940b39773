//! Whether the definitions of stripping say what is meant, by examples.

use base_files::OsBytes;
use ckeys_base::{strip_basedirs, strip_basedirs_from_arg};
use std::alloc::Global;
use std::test::Fail;
use tests_kit::{Checks, words};

/// Whether that is left of an argument without the folders.
fn is_left(alloc: Global, folders: &[OsBytes], argument: &[u8], want: &[u8]) -> bool {
    match strip_basedirs_from_arg(alloc, argument, folders) {
        Ok(left) => left.as_slice() == want,
        Err(_) => false,
    }
}

/// Whether an argument stays as it is.
fn stays(alloc: Global, folders: &[OsBytes], argument: &[u8]) -> bool {
    is_left(alloc, folders, argument, argument)
}

/// Each argument without that folder.
fn lose_a_folder(alloc: Global, project: &[OsBytes]) -> Result<(), Fail> {
    let mut checks = Checks::new(alloc);
    let mapped = b"-ffile-prefix-map=/home/user/project=.".as_slice();
    checks.holds(
        is_left(alloc, project, mapped, b"-ffile-prefix-map==."),
        "mapped",
    );
    let joined = b"-I/home/user/project/inc".as_slice();
    checks.holds(is_left(alloc, project, joined, b"-I/inc"), "joined");
    checks.holds(
        is_left(alloc, project, b"/home/user/project", b""),
        "the folder",
    );
    checks.holds(stays(alloc, project, b"/home/user/project-docs"), "longer");
    let quoted = b"-DROOT=\"/home/user/project\"".as_slice();
    checks.holds(stays(alloc, project, quoted), "quoted");
    let defined = b"-DROOT=/home/user/project".as_slice();
    checks.holds(stays(alloc, project, defined), "defined");
    checks.holds(stays(alloc, project, b"--/home/user/project"), "dashes");
    checks.holds(stays(alloc, project, b"x/home/user/project"), "after x");
    checks.end()
}

#[test]
fn arguments_lose_a_folder(rt: HostRuntime) -> Result<(), Fail> {
    let project = words(rt.alloc(), "/home/user/project")?;
    lose_a_folder(rt.alloc(), &project)
}

/// A text, and what is left of it without the folders, of which the longest goes.
const TEXT: &[u8] = b"# 1 \"/home/user/project/a.c\"\n# 2 \"/home/user/b.h\" </home/user>\n\
    /home/user-docs x/home/user/project\n";

const LEFT: &[u8] = b"# 1 \"/a.c\"\n# 2 \"/b.h\" <>\n/home/user-docs x/home/user/project\n";

#[test]
fn texts_lose_folders(rt: HostRuntime) -> Result<(), Fail> {
    let nested = words(rt.alloc(), "/home/user /home/user/project")?;
    match strip_basedirs(rt.alloc(), TEXT, &nested) {
        Ok(left) if left.as_slice() == LEFT => Ok(()),
        _ => Err("another text is left".into()),
    }
}
