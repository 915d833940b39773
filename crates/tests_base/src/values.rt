//! A value as a text, the first word of an argument, and words cut in two.

use base_files::OsBytes;
use cmdlines_base::{
    ArgDisposition, ArgParseResult, ArgToStringResult, Argument, IntoArg, split_os_string_arg,
};
use std::alloc::Global;
use std::test::Fail;
use tests_kit::{Checks, holds};

fn refuse(_path: &[u8]) -> Option<String> {
    None
}

/// The value `a b` as text: it is no path, so that no transformer is asked.
fn text_of_a_value(alloc: Global) -> ArgToStringResult {
    OsBytes::from_slice(alloc, b"a b")?.into_arg_string(alloc, &mut refuse)
}

#[test]
fn a_value_has_a_text(rt: HostRuntime) -> Result<(), Fail> {
    match text_of_a_value(rt.alloc()) {
        Ok(text) => holds(text.as_str() == "a b", "a b"),
        Err(_) => Err("no text".into()),
    }
}

#[test]
fn the_flag_comes_first(rt: HostRuntime) -> Result<(), Fail> {
    let inc = OsBytes::from_slice(rt.alloc(), b"inc")?;
    let argument = Argument::WithValue("-I", inc, ArgDisposition::Concatenated(None));
    let first = argument.to_os_string(rt.alloc());
    drop(argument);
    holds(first?.as_bytes() == b"-I".as_slice(), "the flag")
}

/// A word cut in two.
fn split(alloc: Global, word: &[u8], separator: &str) -> ArgParseResult<(String, Option<String>)> {
    split_os_string_arg(alloc, OsBytes::from_slice(alloc, word)?, separator)
}

/// Whether that comes before the first separator of a word, and that after it.
fn is_cut(alloc: Global, word: &[u8], separator: &str, before: &str, after: &str) -> bool {
    match split(alloc, word, separator) {
        Ok((front, rest)) => match rest {
            Some(rest) => front.as_str() == before && rest.as_str() == after,
            None => false,
        },
        Err(_) => false,
    }
}

/// Whether a word has no separator.
fn is_whole(alloc: Global, word: &[u8], separator: &str) -> bool {
    match split(alloc, word, separator) {
        Ok((front, rest)) => rest.is_none() && front.as_bytes() == word,
        Err(_) => false,
    }
}

#[test]
fn words_are_cut_at_the_first_separator(rt: HostRuntime) -> Result<(), Fail> {
    let alloc = rt.alloc();
    let mut checks = Checks::new(alloc);
    checks.holds(is_cut(alloc, b"a=b=c", "=", "a", "b=c"), "a=b=c");
    checks.holds(is_cut(alloc, b"a=", "=", "a", ""), "a=");
    checks.holds(is_cut(alloc, b"=a", "=", "", "a"), "=a");
    checks.holds(is_cut(alloc, b"a::b::c", "::", "a", "b::c"), "a::b::c");
    let accents = b"\xc3\xa9=\xc3\xa9".as_slice();
    checks.holds(is_cut(alloc, accents, "=", "\u{e9}", "\u{e9}"), "accents");
    checks.holds(is_whole(alloc, b"a", "="), "a");
    checks.holds(is_whole(alloc, b"", "="), "nothing");
    checks.holds(is_whole(alloc, b"a:b", "::"), "a:b");
    checks.end()
}
