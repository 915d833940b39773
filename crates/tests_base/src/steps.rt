//! How many nodes of a compiler's tree a word is looked for in.

use cmdlines_tables::{CCompilerKind, compiler_tree};
use std::alloc::{AllocError, Global};
use std::test::Fail;
use tests_kit::is_that;

/// The flag that fits a word best, if one does, and in how many steps it was found.
fn found(alloc: Global, kind: CCompilerKind, word: &[u8]) -> Result<String, AllocError> {
    let tree = compiler_tree(alloc, kind)?;
    let (entry, steps) = tree.search_counted(word);
    let text = match entry {
        Some(entry) => format!(in alloc; "{} in {steps}", entry.flag()),
        None => format!(in alloc; "nothing in {steps}"),
    };
    drop(tree);
    text
}

/// The root, `/`, `M` and `P`; the root alone; and as far as a flag goes, since none goes on after it.
#[test]
fn a_step_is_one_node(rt: HostRuntime) -> Result<(), Fail> {
    let alloc = rt.alloc();
    let text = found(alloc, CCompilerKind::Msvc, b"/MP4")?;
    is_that(text.as_str(), "/MP in 4", "/MP4")?;
    let text = found(alloc, CCompilerKind::Msvc, b"")?;
    is_that(text.as_str(), "nothing in 1", "an empty word")?;
    let text = found(alloc, CCompilerKind::Gcc, b"-stdlib=libc++")?;
    is_that(text.as_str(), "-stdlib in 8", "-stdlib=libc++")
}
