//! BLAKE2b as a hash function of keys and digests.

ghost use Rattle.base_blake2.specs.Blake2b.{blake2b-256};
ghost use Rattle.base_blake2.specs.DigestBytes.{AreBytes-blake2b-256, length-blake2b-256};
ghost use Rattle.base_blake2.specs.Hashers.{Holds};

use crate::Blake2b256;
use ckeys_base::HashState;
use std::alloc::{AllocError, Global};

/// BLAKE2b of RFC 7693 with a digest of 32 bytes.
impl HashState for Blake2b256 {
    const LEN: usize = 32;

    ghost LEN = { 32 };

    ghost holds = { Holds };

    ghost digest_of = { blake2b-256 };

    ghost digest_length = { length-blake2b-256 };

    ghost digest_bytes = { AreBytes-blake2b-256 };

    fn new() -> Blake2b256 {
        Blake2b256::new()
    }

    fn feed(&mut self, bytes: &[u8]) {
        self.update(bytes);
    }

    fn digest(self, alloc: Global) -> Result<Vec<u8>, AllocError> {
        Ok(Vec::from_array(alloc, self.finalize())?)
    }
}
