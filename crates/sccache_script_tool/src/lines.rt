//! The lines of a C source.

ghost use Rattle.std.specs.Prelude.{◌≡◌, ◌<◌, ◌++◌, ◌∷◌, [], length, MatchOption, OnOk};
ghost use Rattle.std.specs.Option.{option_copied};
ghost use Rattle.sccache_script_tool.specs.Lines.{lines, ahead_of, with_end, included};

use cmdlines_base::after;
use memchr::memchr;
use std::alloc::AllocError;

/// The first line, with its line end, and what comes after it.
pub fn split_line(text: &[u8]) -> Option<(&[u8], &[u8])>
    ensures { MatchOption result (lines text.now ≡ [])
        (λ found. (lines text.now ≡ found.0.now ∷ lines found.1.now)
        × (length found.1.now < length text.now)) }
{
    if text.is_empty() {
        return None;
    }
    let end = match memchr(b'\n', text) {
        Some(place) => place + 1,
        None => text.len(),
    };
    Some(text.split_at(end))
}

/// What comes before the ending, where the text ends with it.
fn ahead_of<'a>(ending: &[u8], text: &'a [u8]) -> Option<&'a [u8]>
    ensures { option_copied result ≡ ahead_of ending.now text.now }
{
    text.strip_suffix(ending)
}

/// The name in a line that includes a file.
pub fn included(line: &[u8]) -> Option<&[u8]>
    ensures { option_copied result ≡ included line.now }
{
    let line = ahead_of(b"\n", line).unwrap_or(line);
    ahead_of(b"\"", after(b"#include \"", line)?)
}

/// Adds contents, and a line end where they lack one.
pub fn push_with_end(contents: &[u8], text: &mut Vec<u8>) -> Result<(), AllocError>
    ensures { OnOk result (text.new.items ≡ text.old.items ++ with_end contents.now) }
{
    text.extend_from_slice(contents)?;
    if !contents.ends_with(b"\n") {
        text.push(b'\n')?;
    }
    Ok(())
}
