//! Whether the clauses of paths say what is meant, by examples worked out by hand.

use base_files::{Component, OsBytes, compare_paths, components};
use ckeys_base::{normalize_path, normalize_win_path};
use std::alloc::Global;
use std::cmp::Ordering;
use std::test::Fail;
use tests_kit::{Checks, holds, words};

/// Whether a path has these components.
fn has(alloc: Global, path: &[u8], want: &[Component<'_>]) -> bool {
    match components(alloc, path) {
        Ok(list) => list.as_slice() == want,
        Err(_) => false,
    }
}

#[test]
fn components_by_example(rt: HostRuntime) -> Result<(), Fail> {
    let alloc = rt.alloc();
    let mut checks = Checks::new(alloc);
    let (root, here, up) = (Component::RootDir, Component::CurDir, Component::ParentDir);
    let (a, b) = (Component::Normal(b"a"), Component::Normal(b"b"));
    checks.holds(has(alloc, b"", &[]), "nothing");
    checks.holds(has(alloc, b".", &[here]), ".");
    checks.holds(has(alloc, b"./a", &[here, a]), "./a");
    checks.holds(has(alloc, b"a/./b", &[a, b]), "a/./b");
    checks.holds(has(alloc, b"a//b/", &[a, b]), "a//b/");
    checks.holds(has(alloc, b"/", &[root]), "/");
    checks.holds(has(alloc, b"/./a", &[root, a]), "/./a");
    checks.holds(has(alloc, b"//a/../b", &[root, a, up, b]), "//a/../b");
    let dotted = [Component::Normal(b".a")];
    checks.holds(has(alloc, b".a/.", &dotted), ".a/.");
    checks.end()
}

/// Paths in their order, the empty one first.
const RISING: &str =
    " / /. /r /r/a . ./a ../y a a/ a/./b a//b a/b a/b-c a-b a.b lib/x.rlib lib-y.rlib lib.rlib";

/// Whether each comes before the next.
fn rise(paths: &[OsBytes]) -> bool {
    let [first, later @ ..] = paths else {
        return false;
    };
    let mut last = first;
    for path in later {
        if compare_paths(last.as_bytes(), path.as_bytes()) != Ordering::Less {
            return false;
        }
        last = path;
    }
    true
}

#[test]
fn paths_in_order(rt: HostRuntime) -> Result<(), Fail> {
    let paths = words(rt.alloc(), RISING)?;
    holds(paths.len() == 19 && rise(&paths), "they rise")
}

/// Whether that is the normal form of a path.
fn is_normal(alloc: Global, path: &[u8], want: &[u8]) -> bool {
    match normalize_path(alloc, path) {
        Ok(normal) => normal.as_bytes() == want,
        Err(_) => false,
    }
}

#[test]
fn normal_paths_by_example(rt: HostRuntime) -> Result<(), Fail> {
    let alloc = rt.alloc();
    let mut checks = Checks::new(alloc);
    checks.holds(is_normal(alloc, b"a/./b/../c", b"a/c"), "a/c");
    checks.holds(is_normal(alloc, b"/../a", b"/a"), "/a");
    checks.holds(is_normal(alloc, b"../a", b"a"), "a");
    checks.holds(is_normal(alloc, b"./a//b/", b"a/b"), "a/b");
    checks.holds(is_normal(alloc, b"/a/..", b"/"), "/");
    checks.holds(is_normal(alloc, b"a/../..", b""), "nothing");
    let windows = normalize_win_path(alloc, b"C:\\Foo")?;
    checks.holds(windows.as_slice() == b"c:/foo".as_slice(), "of Windows");
    checks.end()
}
