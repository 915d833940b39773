//! Digests as text.

/// How many letters a digest has: two for each byte.
pub const LETTERS: usize = 64;
