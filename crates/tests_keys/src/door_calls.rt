//! Calls by the names of `ckeys` alone.

use crate::door::{
    CCompiler, KeyText, PreprocessorCacheEntry, another, first_key, first_name, is_badly_escaped,
};
use crate::scene::Scene;
use base_files::{Listed, OsBytes};
use cmdlines::Gcc;
use std::alloc::{AllocError, Global};
use std::test::Fail;
use tests_kit::Checks;

/// Whether a record whose only result has this key gives it.
fn has_key(alloc: Global, key: &str) -> Result<bool, AllocError> {
    let mut record = PreprocessorCacheEntry::new(alloc);
    record.add_result(
        KeyText::new(String::from_str(alloc, key)?),
        Listed::new(alloc),
    )?;
    Ok(match first_key(&record) {
        Some(first) => first.as_str() == key,
        None => false,
    })
}

/// Whether a copy of a hasher asks for the same, of the same executable with the same digest.
fn is_copied(alloc: Global, scene: &Scene) -> Result<bool, AllocError> {
    let executable = OsBytes::from_slice(alloc, b"/usr/bin/gcc")?;
    let digest = String::from_str(alloc, "d")?;
    let compiler = CCompiler::with_digest(Gcc::new(alloc, false, None, None)?, executable, digest);
    let hasher = compiler.hasher(&scene.parsed);
    let copy = another(&hasher)?;
    Ok(
        copy.parsed == hasher.parsed
            && copy.executable == hasher.executable
            && copy.executable_digest == hasher.executable_digest,
    )
}

#[test]
fn calls_by_the_door_alone(rt: HostRuntime) -> Result<(), Fail> {
    let alloc = rt.alloc();
    let scene = Scene::new(alloc);
    let is_copied = is_copied(alloc, &scene);
    drop(scene);
    let mut checks = Checks::new(alloc);
    checks.holds(matches!(is_copied, Ok(true)), "a hasher is copied");
    checks.holds(matches!(has_key(alloc, "k"), Ok(true)), "a result's key");
    checks.holds(
        matches!(first_name(b"int x;\n# 1 \"a.h\"\n"), Some(name) if name == b"a.h".as_slice()),
        "a marker's name",
    );
    checks.holds(is_badly_escaped(alloc, b"\\q"), "a bad escape");
    checks.holds(!is_badly_escaped(alloc, b"\\n"), "a good escape");
    checks.end()
}
