//! Digests of BLAKE2b that another program prints.

use base_blake2::Blake2b256;
use ckeys_base::Digest;
use std::alloc::{AllocError, Global};
use std::test::Fail;
use tests_kit::{Checks, is_that};

/// The digest of a message of so many bytes, up to 4096: byte `i` is `(31 * i + i / 256) % 251`.
fn digest_of(alloc: Global, length: usize) -> Result<String, AllocError> {
    let mut hasher = Blake2b256::new();
    for i in 0..length.min(4096) {
        hasher.update(&[((31 * i + i / 256) % 251) as u8]);
    }
    hex::encode(alloc, hasher.finalize())
}

/// Whether that is its digest.
fn has(alloc: Global, length: usize, want: &str) -> bool {
    match digest_of(alloc, length) {
        Ok(text) => text.as_str() == want,
        Err(_) => false,
    }
}

/// As python3's `hashlib.blake2b` gives them: about the ends of words and blocks, and of some and many blocks.
#[test]
fn digests_are_those_of_another_program(rt: HostRuntime) -> Result<(), Fail> {
    let alloc = rt.alloc();
    let mut checks = Checks::new(alloc);
    let want = "0e5751c026e543b2e8ab2eb06099daa1d1e5df47778f7787faab45cdf12fe3a8";
    checks.holds(has(alloc, 0, want), want);
    let want = "03170a2e7597b7b7e3d84c05391d139a62b157e78786d8c082f29dcf4c111314";
    checks.holds(has(alloc, 1, want), want);
    let want = "537d510eb075f5f8030341bcc9d432ffe7ae61b5142870e4ae59baf3cfc1ffc2";
    checks.holds(has(alloc, 3, want), want);
    let want = "79f587a13728cf1c45e937193fb0e3d9a8b34e977a34be8e0b992019057d1947";
    checks.holds(has(alloc, 63, want), want);
    let want = "884dbb82e38c4d4bd09d4e9b89e8d3fc10e5ed75433483ab66b1e07081558acf";
    checks.holds(has(alloc, 64, want), want);
    let want = "b6f3563018c011c2f3ea82e6b65dc0d127592ba55ab7a6a01f3baa44b97558eb";
    checks.holds(has(alloc, 127, want), want);
    let want = "4d689738d2da62a38d1a0d8b7b1d774b8030fdfd60457de760cecee2c758b835";
    checks.holds(has(alloc, 128, want), want);
    let want = "f918c1ff89655c423ee79a6f2a73f99185ad922ddba3f74be0bda1f15c3353d5";
    checks.holds(has(alloc, 129, want), want);
    let want = "be1ff860172e14c414221b9f0192392857332da0da3d6f40cb97edf5a6a0d12d";
    checks.holds(has(alloc, 255, want), want);
    let want = "07084f77831ac193c8e8f3cd872f349db46cd37093491a54a1d58ef718e055c6";
    checks.holds(has(alloc, 256, want), want);
    let want = "412927e90edcf81467639d11adbdf3031da7bf3d7bc511c0938e44159df45bb8";
    checks.holds(has(alloc, 257, want), want);
    let want = "6c5799aed115d197893d8a9933cb8bdfa1287b738189e0ae19a088527d71ee3e";
    checks.holds(has(alloc, 1000, want), want);
    let want = "50a363050a945bc36d57025d8c90a2e2edb86185f7951e8e3de7b2744ccdad1f";
    checks.holds(has(alloc, 4096, want), want);
    checks.end()
}

/// As `b2sum -l 256` prints that of `abc`, but the text of a digest has the low half of each byte first.
#[test]
fn it_is_a_hash_of_keys(rt: HostRuntime) -> Result<(), Fail> {
    let mut digest: Digest<Blake2b256> = Digest::new();
    digest.update(b"a");
    digest.update(b"bc");
    let text = digest.finish(rt.alloc())?;
    is_that(
        text.as_str(),
        "dbdd18c3362493271317fef3ee8975b94969e4b31bbce32427268c0c865d3291",
        "abc",
    )
}
