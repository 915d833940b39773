//! How large a result is, and whether it's kept.

ghost use Rattle.std.specs.Prelude.{◌≡◌};
ghost use Rattle.wrap_keys.specs.Sizes.{is_within, size_of};

use base_files::OsBytes;

/// The lengths of the outputs' contents, added up. So many bytes can be more than 64 bits count.
fn size_of(pairs: &[(OsBytes, OsBytes)]) -> u128
    ensures { result ≡ size_of pairs.now }
{
    let mut size = 0u128;
    for pair in pairs {
        size += pair.1.as_bytes().len() as u128;
    }
    size
}

/// Whether a result of these outputs is kept: it's no larger than the limit, where there is one.
pub fn is_within(max_kept: Option<u64>, pairs: &[(OsBytes, OsBytes)]) -> bool
    ensures { result ≡ is_within max_kept (size_of pairs.now) }
{
    match max_kept {
        Some(max_kept) => size_of(pairs) <= u128::from(max_kept),
        None => true,
    }
}
