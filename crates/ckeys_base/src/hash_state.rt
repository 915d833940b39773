//! Hash functions, as states that take bytes piece by piece.

ghost use Rattle.std.specs.Prelude.{◌≡◌, ℕ, [], ◌++◌, IfOk, length, vec_len};
ghost use Rattle.base_files.specs.Bytes.{Bytes};
ghost use Rattle.sha2.specs.Hashers.{Holds256};
ghost use Rattle.sha2.specs.Sha256.{sha256};
ghost use Rattle.sha2.proofs.Facts256.{length-sha256};
ghost use Rattle.ckeys_base.specs.Hex.{AreBytes};
ghost use Rattle.ckeys_base.specs.ShaBytes.{AreBytes-sha256};

use sha2::Sha256;
use std::alloc::{AllocError, Global};

/// A hash function. A state of it holds byte strings: what it was fed, piece by piece.
pub trait HashState: Drop {
    /// How many bytes a digest has.
    const LEN: usize;

    ghost LEN: { ℕ };

    /// The state holds these bytes.
    ghost holds: { Self → Bytes → Type 0 };

    /// The digest of some bytes.
    ghost digest_of: { Bytes → Bytes };

    /// The state that holds nothing but the empty string.
    fn new() -> Self
        ensures { holds result [] };

    /// Takes more bytes, after those that it holds. It takes no memory.
    fn feed(&mut self, bytes: &[u8])
        ensures { (held : Bytes) → holds self.old held → holds self.new (held ++ bytes.now) };

    /// The digest of what is held, of `LEN` bytes.
    fn digest(self, alloc: Global) -> Result<Vec<u8>, AllocError>
        ensures value { IfOk result
            (λ digest. (held : Bytes) → holds self held → digest.items ≡ digest_of held) }
        ensures length { IfOk result (λ digest. vec_len digest ≡ LEN) };

    /// Each digest has that many bytes.
    ghost digest_length: { (bytes : Bytes) → length (digest_of bytes) ≡ LEN };

    /// Each digest is a byte string.
    ghost digest_bytes: { (bytes : Bytes) → AreBytes (digest_of bytes) };
}

/// SHA-256 of FIPS 180-4.
impl HashState for Sha256 {
    const LEN: usize = 32;

    ghost LEN = { 32 };

    ghost holds = { Holds256 };

    ghost digest_of = { sha256 };

    ghost digest_length = { length-sha256 };

    ghost digest_bytes = { AreBytes-sha256 };

    fn new() -> Sha256 {
        sha2::Digest::new()
    }

    fn feed(&mut self, bytes: &[u8]) {
        sha2::Digest::update(self, bytes);
    }

    fn digest(self, alloc: Global) -> Result<Vec<u8>, AllocError> {
        let digest = sha2::Digest::finalize(self);
        Ok(Vec::from_array(alloc, digest)?)
    }
}
