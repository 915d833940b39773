//! A word cut in two at a separator.

ghost use Rattle.std.specs.Prelude.{◌≡◌, true, IfOk, OnOk, IfErr};
ghost use Rattle.std.specs.Str.{is_utf8};
ghost use Rattle.cmdlines_base.specs.Splitting.{IsSplit, IsNoText};

use crate::argument_error::{ArgParseError, ArgParseResult};
use base_files::OsBytes;
use std::alloc::Global;

/// What comes before the first separator and what comes after it, and `None` for the second where there is no
/// separator. A word that isn't UTF-8 is handed back as `InvalidUnicode`.
pub fn split_os_string_arg(
    alloc: Global,
    word: OsBytes,
    separator: &str,
) -> ArgParseResult<(String, Option<String>)>
    ensures split { IfOk result (λ parts. IsSplit separator.now word parts.0 parts.1) }
    ensures text { OnOk result (is_utf8 word ≡ true) }
    ensures refused { IfErr result (IsNoText word) }
{
    let Ok(text) = str::from_utf8(word.as_bytes()) else {
        return Err(ArgParseError::InvalidUnicode(word));
    };
    match text.split_once(separator) {
        None => Ok((String::from_str(alloc, text)?, None)),
        Some((before, after)) => {
            let before = String::from_str(alloc, before)?;
            let after = String::from_str(alloc, after)?;
            Ok((before, Some(after)))
        }
    }
}
