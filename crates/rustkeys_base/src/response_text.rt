//! The words of the text of one of rustc's response files.

ghost use Rattle.std.specs.Prelude.{◌≡◌, IfOk};
ghost use Rattle.rustkeys_base.specs.Lines.{rustc_lines};

use base_files::{Listed, OsBytes};
use std::alloc::{AllocError, Global};

/// The lines of a text without the white space around each, but for those that are empty then: rustc takes each as one word.
pub fn split_rust_response_file_args(
    alloc: Global,
    text: &str,
) -> Result<Listed<OsBytes>, AllocError>
    ensures words { IfOk result (λ words. words ≡ rustc_lines text.now) }
{
    let mut words = Vec::new(alloc);
    for line in text
        .split('\n')
        .map(str::trim)
        .filter(|line| !line.is_empty())
    {
        words.push(OsBytes::from_slice(alloc, line.as_bytes())?)?;
    }
    Ok(Listed::from_vec(words))
}
