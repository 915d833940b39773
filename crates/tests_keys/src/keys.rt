//! What is hashed of a request.

use crate::scene::digests;
use base_files::OsBytes;
use ckeys_records::HashKeyParams;
use ckeys_records::shape::CShape;
use cmdlines_tables::language::Language;
use sha2::Sha256;
use std::alloc::{AllocError, Global};
use std::test::Fail;
use tests_kit::{holds, is_that, words};

/// A variable that is hashed.
fn variables(alloc: Global) -> Result<Vec<(OsBytes, OsBytes)>, AllocError> {
    let name = OsBytes::from_slice(alloc, b"MACOSX_DEPLOYMENT_TARGET")?;
    let mut list = Vec::new(alloc);
    list.push((name, OsBytes::from_slice(alloc, b"11")?))?;
    Ok(list)
}

/// The key of a request for C++ that has each part.
fn key_of_each_part(alloc: Global) -> Result<(String, CShape), AllocError> {
    let list = words(alloc, "-O2 -I/w/inc")?;
    let architecture = words(alloc, "-arch x86_64")?;
    let folders = words(alloc, "/w")?;
    let extra = digests(alloc)?;
    let variables = variables(alloc)?;
    HashKeyParams::new("d", Language::Cxx, list.as_slice(), b"# 1 \"/w/foo.c\"")
        .with_arch_args(architecture.as_slice())
        .with_extra_hashes(extra.as_slice())
        .with_env_vars(variables.as_slice())
        .with_plusplus(true)
        .with_basedirs(folders.as_slice())
        .with_assembler_digest(Some("as"))
        .compute::<Sha256>(alloc)
}

/// The digest of `d`, the byte 1, `11c++`, each word without the folder and with the byte 255 after it, `e1e2as`, the name of the
/// variable and its value, each after its length in eight bytes, with `=` between, and the text without the folder.
const OF_EACH_PART: &str = "d7bc0d2ed290c459d2910a3ab7e8e2093a0d3108a3be2c05b761411e6aefefbf";

#[test]
fn each_part_is_hashed_in_order(rt: HostRuntime) -> Result<(), Fail> {
    let (key, _) = key_of_each_part(rt.alloc())?;
    is_that(key.as_str(), OF_EACH_PART, "the key")
}

/// The key of a request for C whose compiler is `cc` and whose text is `t`, with these digests of extra files and of an assembler.
fn key_of_a_text(
    alloc: Global,
    extra: &[String],
    assembler: Option<&str>,
) -> Result<(String, CShape), AllocError> {
    HashKeyParams::new("cc", Language::C, &[], b"t")
        .with_extra_hashes(extra)
        .with_assembler_digest(assembler)
        .compute::<Sha256>(alloc)
}

/// The digest of `cc`, the byte 0, `11cabt`.
const OF_EQUAL_BYTES: &str = "79b81a5bc89709067eb5c43a01aac71189d04f7a3409dc711dbc43a1e2302f66";

/// An extra file and an assembler of one digest have equal bytes in a key, and the shapes tell them apart.
#[test]
fn shapes_tell_equal_bytes_apart(rt: HostRuntime) -> Result<(), Fail> {
    let mut extra = Vec::new(rt.alloc());
    extra.push(String::from_str(rt.alloc(), "ab")?)?;
    let (file, of_file) = key_of_a_text(rt.alloc(), extra.as_slice(), None)?;
    let (assembler, of_assembler) = key_of_a_text(rt.alloc(), &[], Some("ab"))?;
    let differ = of_file != of_assembler;
    drop(of_file);
    drop(of_assembler);
    is_that(file.as_str(), OF_EQUAL_BYTES, "an extra file")?;
    is_that(assembler.as_str(), OF_EQUAL_BYTES, "an assembler")?;
    holds(differ, "the shapes differ")
}
