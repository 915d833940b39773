//! Bytes as they are shown to people.

use bstr::{BStr, ByteSlice};
use std::alloc::{AllocError, Global};
use std::fmt;

/// Bytes that are shown as text, where U+FFFD replaces what isn't UTF-8.
#[derive(Clone, Copy)]
pub struct Lossy<'a> {
    pub bytes: &'a [u8],
}

impl<'a> Lossy<'a> {
    ghost use Rattle.std.specs.Prelude.{◌≡◌, IfOk, string_bytes};
    ghost use Rattle.std.specs.Str.Lossy.{utf8_lossy};

    /// The text that is shown.
    pub fn text(self, alloc: Global) -> Result<String, AllocError>
        ensures { IfOk result (λ text. string_bytes text ≡ utf8_lossy self.entry.bytes.now) }
    {
        let mut text = String::new(alloc);
        self.bytes.to_str_lossy_into(&mut text)?;
        Ok(text)
    }
}

impl<'a> fmt::Display for Lossy<'a> {
    ghost use Rattle.std.specs.Prelude.{Some};
    ghost use Rattle.std.specs.Str.Lossy.{utf8_lossy};

    ghost output = { λ lossy. Some (utf8_lossy lossy.bytes.now) };

    fn fmt<W: fmt::Write>(&self, f: &mut fmt::Formatter<W>) -> fmt::Result {
        BStr::new(self.bytes).fmt(f)
    }
}
