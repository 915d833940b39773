//! Entry keys, as hashlib computes them of the framed parts.

use crate::door::key_over;
use crate::scene::{Scene, digests};
use ckeys_include_records::entry_key::{EntryKey, entry_key};
use ckeys_include_records::{Asker, SeenInput};
use sha2::Sha256;
use std::alloc::{AllocError, Global};
use std::test::Fail;
use tests_kit::holds;

/// The entry key of who asks over this input, with two digests of extra files.
fn key_of(alloc: Global, asker: &Asker, input: &SeenInput) -> Result<Option<EntryKey>, AllocError> {
    let extra = digests(alloc)?;
    entry_key::<Sha256>(alloc, asker, extra.as_slice(), input)
}

/// Whether the key alone is this one.
fn has_key(alloc: Global, asker: &Asker, input: &SeenInput, key: &str) -> Result<bool, AllocError> {
    let extra = digests(alloc)?;
    Ok(
        match key_over::<Sha256>(alloc, asker, extra.as_slice(), input)? {
            Some(found) => found.as_str() == key,
            None => false,
        },
    )
}

/// Whether it has this identity and this key.
fn has(alloc: Global, asker: &Asker, input: &SeenInput, identity: &str, key: &str) -> bool {
    match key_of(alloc, asker, input) {
        Ok(Some(found)) => {
            found.identity.as_bytes() == identity.as_bytes()
                && found.key.as_bytes() == key.as_bytes()
                && matches!(has_key(alloc, asker, input, key), Ok(true))
        }
        _ => false,
    }
}

/// The identity of gcc, and its key over an input that asks for its day and its second.
const OF_GCC: &str = "8f9ee611f2b057ef69340bf27a52bdcac4f4c6045f8106019db8f21163f8a626";

const OF_DATED: &str = "24bcc327ecd43a9c40123b7afd9bbeca329571ad5a6ed8d3b210e0e39dad50fd";

/// The identity of Clang for C++, and its key over an input that asks for neither.
const OF_CLANG: &str = "d3c54ca85b22ba2b4d3a0fe1b761283e3f758628bf23840f428af59d1e37d9a3";

const OF_PLAIN: &str = "75fccfd2d5e658a0fa670cff18e7f9897b9a5e7f12edea29e90276b88d26eb2c";

/// Both keys.
fn keys_are_told(alloc: Global, scene: &mut Scene) -> Result<(), Fail> {
    scene.set(alloc, "/usr/bin/gcc", "/bin", "foo.o")?;
    let dated = SeenInput {
        contents: b"__DATE__ __TIMESTAMP__",
        day: Some(0),
        second: 1_700_000_000,
    };
    let of_gcc = has(alloc, &scene.gcc(), &dated, OF_GCC, OF_DATED);
    scene.ask_for_cxx();
    let plain = SeenInput {
        contents: b"int x;",
        day: None,
        second: 5,
    };
    let of_clang = has(alloc, &scene.clang(), &plain, OF_CLANG, OF_PLAIN);
    holds(of_gcc && of_clang, "both keys")
}

#[test]
fn keys_of_calls_by_example(rt: HostRuntime) -> Result<(), Fail> {
    let mut scene = Scene::new(rt.alloc());
    let told = keys_are_told(rt.alloc(), &mut scene);
    drop(scene);
    told
}
