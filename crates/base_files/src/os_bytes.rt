//! Byte strings as words, paths, names and contents.

ghost use Rattle.std.specs.Prelude.{◌≡◌, [], IfOk, nat_eq};
ghost use Rattle.std.specs.Ordering.{nat_cmp, as_partial_cmp};
ghost use Rattle.std.specs.Cmp.Lexicographic.{slice_cmp, pointwise};
ghost use Rattle.std.specs.Cmp.{partial_order_from_own_ties};
ghost use Rattle.std.specs.Cmp.Rules.{comparing, hashing};
ghost use Rattle.std.specs.Hash as fed;
ghost use Rattle.std.proofs.Common.{rules};

use crate::lossy::Lossy;
use std::alloc::{AllocError, Global};
use std::cmp::Ordering;
use std::fmt;
use std::hash::{Hash, Hasher};
use std::marker::Model;

/// A word, a path, a name or contents: bytes that need not be text.
#[derive(Drop)]
pub struct OsBytes {
    bytes: Vec<u8>,
}

impl Model for OsBytes {
    ghost use Rattle.std.specs.Prelude.{ℕ, List};

    ghost Value = { List ℕ };

    ghost view = { λ a. a.bytes.items };
}

impl OsBytes {
    /// A copy of these bytes.
    pub fn from_slice(alloc: Global, bytes: &[u8]) -> Result<OsBytes, AllocError>
        ensures { IfOk result (λ copy. copy ≡ bytes.now) }
    {
        Ok(OsBytes {
            bytes: Vec::from_slice(alloc, bytes)?,
        })
    }

    /// These bytes. It takes no memory.
    pub fn from_vec(bytes: Vec<u8>) -> OsBytes
        ensures { result ≡ bytes.items }
    {
        OsBytes { bytes }
    }

    /// Gives the bytes back. It takes no memory.
    pub fn into_vec(self) -> Vec<u8>
        ensures { result.items ≡ self }
    {
        let OsBytes { bytes } = self;
        bytes
    }

    /// The empty string. It takes no memory.
    pub fn empty(alloc: Global) -> OsBytes
        ensures { result ≡ [] }
    {
        OsBytes {
            bytes: Vec::new(alloc),
        }
    }

    pub fn as_bytes(&self) -> &[u8]
        ensures { result.now ≡ self.now }
    {
        self.bytes.as_slice()
    }
}

impl Clone for OsBytes {
    ghost is_clone = { λ bytes copy. copy ≡ bytes };

    fn clone(&self) -> Result<OsBytes, AllocError> {
        OsBytes::from_slice(*self.bytes.allocator(), self.as_bytes())
    }
}

impl PartialEq for OsBytes {
    ghost eq = { pointwise nat_eq };

    ghost laws = { Prim.search (comparing, rules) };

    fn eq(&self, other: &OsBytes) -> bool {
        self.as_bytes() == other.as_bytes()
    }
}

impl Eq for OsBytes {
    ghost laws = { Prim.search (comparing, rules) };
}

impl PartialOrd for OsBytes {
    ghost partial_cmp = { as_partial_cmp (slice_cmp nat_cmp) };

    ghost laws = { partial_order_from_own_ties (Prim.search (comparing, rules)) (Prim.search (comparing, rules)) };

    fn partial_cmp(&self, other: &OsBytes) -> Option<Ordering> {
        Some(self.cmp(other))
    }
}

impl Ord for OsBytes {
    ghost cmp = { slice_cmp nat_cmp };

    ghost total = { Prim.search (comparing, rules) };

    ghost matches_partial_cmp = { Prim.search (comparing, rules) };

    ghost matches_eq = { Prim.search (comparing, rules) };

    fn cmp(&self, other: &OsBytes) -> Ordering {
        self.as_bytes().cmp(other.as_bytes())
    }
}

impl Hash for OsBytes {
    ghost hash_input = { fed.slice fed.u8 };

    ghost respects_eq = { Prim.search (hashing, rules) };

    fn hash<H: Hasher>(&self, state: &mut H) {
        self.as_bytes().hash(state);
    }
}

/// The bytes between quotes, each that isn't printable ASCII escaped.
impl fmt::Debug for OsBytes {
    fn fmt<W: fmt::Write>(&self, f: &mut fmt::Formatter<W>) -> fmt::Result {
        write!(f, "\"{}\"", self.as_bytes().escape_ascii())
    }
}

/// The text of the bytes, where U+FFFD replaces what isn't UTF-8.
impl fmt::Display for OsBytes {
    ghost use Rattle.std.specs.Prelude.{Some};
    ghost use Rattle.std.specs.Str.Lossy.{utf8_lossy};

    ghost output = { λ bytes. Some (utf8_lossy bytes) };

    fn fmt<W: fmt::Write>(&self, f: &mut fmt::Formatter<W>) -> fmt::Result {
        let bytes = self.as_bytes();
        Lossy { bytes }.fmt(f)
    }
}
