//! Digests as text.

ghost use Rattle.std.specs.Prelude.{◌≡◌, string_bytes, nat_eq};
ghost use Rattle.std.specs.Ordering.{nat_cmp, as_partial_cmp};
ghost use Rattle.std.specs.Cmp.Lexicographic.{slice_cmp, pointwise};
ghost use Rattle.std.specs.Cmp.{partial_order_from_own_ties};
ghost use Rattle.std.specs.Cmp.Rules.{comparing};
ghost use Rattle.std.proofs.Common.{rules};
ghost use Rattle.base_formats.specs.FieldFormats.{text_format};
ghost use Rattle.base_formats.specs.Reading.{text_at};
ghost use Rattle.base_formats.specs.Spelling.{IsText, framed};

use base_formats::{Field, ReadFault, put_framed, read_text};
use std::alloc::{AllocError, Global};
use std::cmp::Ordering;
use std::fmt;
use std::marker::Model;

/// A digest as text: a key, or the digest of a file. Contracts see its bytes.
#[derive(Drop)]
pub struct KeyText {
    text: String,
}

impl Model for KeyText {
    ghost use Rattle.std.specs.Prelude.{string_bytes};
    ghost use Rattle.base_files.specs.Bytes.{Bytes};

    ghost Value = { Bytes };

    ghost view = { λ a. string_bytes a.text };
}

impl KeyText {
    /// This text. It takes no memory.
    pub fn new(text: String) -> KeyText
        ensures { result ≡ string_bytes text }
    {
        KeyText { text }
    }

    /// Gives the text back. It takes no memory.
    pub fn into_string(self) -> String
        ensures { string_bytes result ≡ self }
    {
        let KeyText { text } = self;
        text
    }

    pub fn as_str(&self) -> &str
        ensures { result.now ≡ self.now }
    {
        self.text.as_str()
    }
}

impl Clone for KeyText {
    ghost is_clone = { λ text copy. copy ≡ text };

    fn clone(&self) -> Result<KeyText, AllocError> {
        Ok(KeyText::new(String::from_str(*self.text.allocator(), self.as_str())?))
    }
}

impl PartialEq for KeyText {
    ghost eq = { pointwise nat_eq };

    ghost laws = { Prim.search (comparing, rules) };

    fn eq(&self, other: &KeyText) -> bool {
        self.as_str().as_bytes() == other.as_str().as_bytes()
    }
}

impl Eq for KeyText {
    ghost laws = { Prim.search (comparing, rules) };
}

impl PartialOrd for KeyText {
    ghost partial_cmp = { as_partial_cmp (slice_cmp nat_cmp) };

    ghost laws = { partial_order_from_own_ties (Prim.search (comparing, rules)) (Prim.search (comparing, rules)) };

    fn partial_cmp(&self, other: &KeyText) -> Option<Ordering> {
        Some(self.cmp(other))
    }
}

/// By bytes.
impl Ord for KeyText {
    ghost cmp = { slice_cmp nat_cmp };

    ghost total = { Prim.search (comparing, rules) };

    ghost matches_partial_cmp = { Prim.search (comparing, rules) };

    ghost matches_eq = { Prim.search (comparing, rules) };

    fn cmp(&self, other: &KeyText) -> Ordering {
        self.as_str().as_bytes().cmp(other.as_str().as_bytes())
    }
}

impl fmt::Debug for KeyText {
    fn fmt<W: fmt::Write>(&self, f: &mut fmt::Formatter<W>) -> fmt::Result {
        fmt::Debug::fmt(self.as_str(), f)
    }
}

impl fmt::Display for KeyText {
    ghost use Rattle.std.specs.Prelude.{Some};

    ghost output = { λ text. Some text };

    fn fmt<W: fmt::Write>(&self, f: &mut fmt::Formatter<W>) -> fmt::Result {
        f.write_str(self.as_str())
    }
}

/// The bytes after their length.
impl Field for KeyText {
    ghost reads = { text_at };

    ghost spells = { framed };

    ghost fits = { IsText };

    ghost is_format = { text_format };

    fn read(alloc: Global, bytes: &[u8]) -> Result<(KeyText, &[u8]), ReadFault> {
        let (text, rest) = read_text(alloc, bytes)?;
        Ok((KeyText::new(text), rest))
    }

    fn put(&self, out: &mut Vec<u8>) -> Result<(), AllocError> {
        put_framed(out, self.text.as_bytes())?;
        Ok(())
    }
}
