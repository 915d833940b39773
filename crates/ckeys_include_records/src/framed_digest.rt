//! The digest of a list of parts, each part after its length.

ghost use Rattle.std.specs.Prelude.{◌≡◌, List, [], ◌∷◌, ◌++◌, IfOk, string_bytes};
ghost use Rattle.base_files.specs.Bytes.{Bytes};
ghost use Rattle.base_formats.specs.Spelling.{FitsFrame, framed_all};
ghost use Rattle.ckeys_base.specs.Hex.{hex_of};

use ckeys_base::{Digest, HashState};
use std::alloc::{AllocError, Global};
use std::marker::Model;

/// A digest in the making, of parts that are each fed after their length. Contracts see the state of its hash
/// function.
#[derive(Drop)]
pub(crate) struct FramedDigest<H: HashState> {
    digest: Digest<H>,
}

impl<H: HashState> Model for FramedDigest<H> {
    ghost Value = { H };

    ghost view = { λ a. a.digest };
}

impl<H: HashState> FramedDigest<H> {
    /// A digest of no parts so far.
    pub(crate) fn new() -> Self
        ensures { H.holds result (framed_all []) }
    {
        FramedDigest {
            digest: Digest::new(),
        }
    }

    /// Takes one more part, after those that it holds.
    pub(crate) fn put(&mut self, part: &[u8])
        ensures held { (parts : List Bytes) → H.holds self.old (framed_all parts)
            → H.holds self.new (framed_all (parts ++ part.now ∷ [])) }
        ensures fits { FitsFrame part.now }
    {
        self.digest.update(&(part.len() as u64).to_le_bytes());
        self.digest.update(part);
    }

    /// The digest of all parts, as text.
    pub(crate) fn finish(self, alloc: Global) -> Result<String, AllocError>
        ensures { IfOk result (λ text. (parts : List Bytes) → H.holds self (framed_all parts)
            → string_bytes text ≡ hex_of (H.digest_of (framed_all parts))) }
    {
        self.digest.finish(alloc)
    }
}
