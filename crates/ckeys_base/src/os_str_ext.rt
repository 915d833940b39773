//! What words that need not be text begin with.

ghost use Rattle.std.specs.Prelude.{◌≡◌, ◌↔◌, ◌++◌, IsTrue, MatchOption};
ghost use Rattle.base_files.specs.Bytes.{Bytes};

use base_files::OsBytes;

/// A byte string and text before it.
pub trait OsStrExt {
    /// The bytes.
    ghost bytes: { Self → Bytes };

    /// Whether it begins with this text.
    fn starts_with(&self, prefix: &str) -> bool
        ensures { IsTrue result ↔ (rest : Bytes) × (bytes self.now ≡ prefix.now ++ rest) };

    /// What comes after the prefix, where this text begins with it.
    fn split_prefix(&self, prefix: &str) -> Option<&[u8]>
        ensures { MatchOption result
            ((rest : Bytes) → ¬ (bytes self.now ≡ prefix.now ++ rest))
            (λ rest. bytes self.now ≡ prefix.now ++ rest.now) };
}

impl OsStrExt for OsBytes {
    ghost bytes = { λ word. word };

    fn starts_with(&self, prefix: &str) -> bool {
        self.as_bytes().starts_with(prefix.as_bytes())
    }

    fn split_prefix(&self, prefix: &str) -> Option<&[u8]> {
        self.as_bytes().strip_prefix(prefix.as_bytes())
    }
}
