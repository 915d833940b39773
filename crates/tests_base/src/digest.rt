//! Digests that FIPS 180 prints, and readers that fail.

use ckeys_base::error::Error;
use ckeys_base::{Digest, hex};
use sha2::Sha256;
use std::alloc::Global;
use std::test::Fail;
use tests_kit::{Checks, ShortReader, files_of, holds, is_that, words};

/// The digest of nothing, the low half of each byte first.
const OF_NOTHING: &str = "3e0b4c2489cfc141a9bf4f8c99f69b4272ea144e46b939c44a5999b187258b55";

/// The digest of `abc`, which the standard prints as `ba7816bf..`.
const OF_ABC: &str = "ab8761fbf810fcae141404edd5ea22320b30163a6971a7c94b01ff162f0051da";

/// A message of 448 bits.
const TWO_BLOCKS: &[u8] = b"abcdbcdecdefdefgefghfghighijhijkijkljklmklmnlmnomnopnopq";

/// Its digest, which the standard prints as `248d6a61..`.
const OF_TWO_BLOCKS: &str = "42d8a6162d60838b5e0c6239c0e306933ac34e9546ff12766fcede4d91bd601c";

/// The digest of a million times `a`, which the standard prints as `cdc76e5c..`.
const OF_A_MILLION: &str = "dc7ce6c59941bf29181a7c2e487de3761f08a9844a7902e040d693cc7c11c20d";

/// Whether a reader of these bytes gives this digest.
fn is_digested(alloc: Global, bytes: &[u8], want: &str) -> bool {
    match Digest::<Sha256>::reader_sync(alloc, bytes) {
        Ok(text) => text.as_str() == want,
        Err(_) => false,
    }
}

#[test]
fn prints_the_digests_of_the_standard(rt: HostRuntime) -> Result<(), Fail> {
    let alloc = rt.alloc();
    let mut checks = Checks::new(alloc);
    checks.holds(is_digested(alloc, b"", OF_NOTHING), "nothing");
    checks.holds(is_digested(alloc, b"abc", OF_ABC), "abc");
    checks.holds(is_digested(alloc, TWO_BLOCKS, OF_TWO_BLOCKS), "two blocks");
    checks.end()
}

#[test]
fn more_is_read_than_a_buffer_holds(rt: HostRuntime) -> Result<(), Fail> {
    let long = vec![in rt.alloc(); b'a'; 1_000_000]?;
    holds(is_digested(rt.alloc(), &long, OF_A_MILLION), "a million")
}

/// Three pieces were read before the failure, and none is empty.
#[test]
fn what_came_before_a_failure_is_shown(rt: HostRuntime) -> Result<(), Fail> {
    let mut shown = 0u64;
    let reader = ShortReader { left: 3 };
    let text = Digest::<Sha256>::reader_sync_with(rt.alloc(), reader, |piece: &[u8]| {
        if let [byte] = piece {
            shown = shown.wrapping_mul(16).wrapping_add(u64::from(*byte));
        }
    });
    let is_told = matches!(text, Err(Error::Io));
    holds(is_told && shown == 0x321, "three pieces, and the failure")
}

/// The low half of each byte comes first.
#[test]
fn two_bytes_are_four_digits(rt: HostRuntime) -> Result<(), Fail> {
    is_that(
        hex(rt.alloc(), &[0x1f, 0xa0])?.as_str(),
        "f10a",
        "two bytes",
    )
}

#[test]
fn errors_are_printed(rt: HostRuntime) -> Result<(), Fail> {
    let mut checks = Checks::new(rt.alloc());
    checks.prints(&Error::Io, "the bytes cannot be read or written");
    checks.prints(&Error::Memory, "no memory was left");
    checks.end()
}

/// A delimiter is a zero byte, `SCCACHE`, a zero byte, the name and a zero byte: `sha256sum` prints `285584ef..` of them after an `a`.
#[test]
fn a_delimiter_is_its_bytes(rt: HostRuntime) -> Result<(), Fail> {
    let mut digest: Digest<Sha256> = Digest::new();
    digest.update(b"a");
    digest.delimiter(b"env");
    is_that(
        digest.finish(rt.alloc())?.as_str(),
        "825548fe6073a0af65a2f3190790b2d4786bd65e78e81d129261a5c1f70fea6f",
        "a delimiter",
    )
}

#[test]
fn files_are_digested_in_order(rt: HostRuntime) -> Result<(), Fail> {
    let names = words(rt.alloc(), "/w/abc /w/empty")?;
    let mut files = files_of(
        rt.alloc(),
        &[("/w/abc", b"abc".as_slice()), ("/w/empty", b"")],
    )?;
    let found = Digest::<Sha256>::hash_all(rt.alloc(), &names, &mut files);
    drop(files);
    let Ok(Some(all)) = found else {
        return Err("no digests".into());
    };
    match all.as_slice() {
        [abc, nothing] => holds(
            abc.as_str() == OF_ABC && nothing.as_str() == OF_NOTHING,
            "two files",
        ),
        _ => Err("not two digests".into()),
    }
}
