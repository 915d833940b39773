//! The MSVC grammar of response texts.

ghost use Rattle.std.specs.Prelude.{◌≡◌, ◌<◌, [], ◌∷◌, ◌++◌, IfOk, OnOk, MatchOption, length};
ghost use Rattle.std.specs.Iterator.{at_most};
ghost use Rattle.cmdlines_response_files.specs.Msvc.{backslashes, is_separator};
ghost use Rattle.cmdlines_response_files.specs.Scanning.{Steps, msvc_arguments};
ghost use Rattle.cmdlines_response_files.specs.Left.{text_left};

use base_files::OsBytes;
use std::alloc::{AllocError, Global};

fn is_separator(byte: u8) -> bool
    ensures { result ≡ is_separator byte }
{
    byte == b' ' || byte == b'\t' || byte == b'\n' || byte == b'\r'
}

/// Adds so many backslashes at the end.
#[tactic(auto, using(std::proofs::lemmas::List::replicate_more))]
fn push_backslashes(bytes: &mut Vec<u8>, count: usize) -> Result<(), AllocError>
    ensures { OnOk result (bytes.new.items ≡ bytes.old.items ++ backslashes count) }
{
    for _ in 0..count {
        bytes.push(b'\\')?;
    }
    Ok(())
}

/// The first argument of the text and the text after it, and None where no argument begins.
fn first_argument(alloc: Global, text: &[u8]) -> Result<Option<(OsBytes, &[u8])>, AllocError>
    ensures argument { IfOk result (λ found. MatchOption found (msvc_arguments text.now ≡ [])
        (λ first. msvc_arguments text.now ≡ first.0 ∷ msvc_arguments first.1.now)) }
    ensures shorter { IfOk result
        (λ found. MatchOption found (Unit {0}) (λ first. length first.1.now < length text.now)) }
{
    let mut argument = Vec::new(alloc);
    let mut begun = false;
    let mut quoted = false;
    let mut slashes: usize = 0;
    let mut rest = text;
    while let Some((byte, after)) = rest.split_first() {
        rest = after;
        if *byte == b'\\' {
            slashes += 1;
        } else if *byte == b'"' {
            push_backslashes(&mut argument, slashes / 2)?;
            if slashes % 2 == 0 {
                quoted = !quoted;
            } else {
                argument.push(b'"')?;
            }
            slashes = 0;
            begun = true;
        } else if is_separator(*byte) && !quoted {
            if begun || slashes != 0 {
                push_backslashes(&mut argument, slashes)?;
                return Ok(Some((OsBytes::from_vec(argument), rest)));
            }
        } else {
            push_backslashes(&mut argument, slashes)?;
            argument.push(*byte)?;
            slashes = 0;
            begun = true;
        }
    }
    if begun || slashes != 0 {
        push_backslashes(&mut argument, slashes)?;
        return Ok(Some((OsBytes::from_vec(argument), rest)));
    }
    Ok(None)
}

/// The arguments of a response text by the MSVC grammar, one after another: white space separates them, `"` groups, and
/// backslashes before a `"` count twice. A quoted empty string is an empty argument. Once out of memory it is at its end.
#[derive(Drop)]
pub struct SplitMsvcResponseFileArgs<'a> {
    alloc: Global,
    text: &'a [u8],
}

impl<'a> SplitMsvcResponseFileArgs<'a> {
    /// The arguments of that text.
    pub fn new(alloc: Global, text: &'a [u8]) -> SplitMsvcResponseFileArgs<'a>
        ensures { text_left result ≡ text.now }
    {
        SplitMsvcResponseFileArgs { alloc, text }
    }
}

impl<'a> Iterator for SplitMsvcResponseFileArgs<'a> {
    type Item = Result<OsBytes, AllocError>;

    ghost next_gives = { λ s r t. Steps (text_left s) r (text_left t) };

    ghost remaining = { λ s. at_most (length (text_left s)) };

    fn next(&mut self) -> Option<Result<OsBytes, AllocError>> {
        if self.text.is_empty() {
            return None;
        }
        let found = first_argument(self.alloc, self.text);
        self.text = &[];
        match found {
            Err(error) => Some(Err(error)),
            Ok(None) => None,
            Ok(Some((argument, rest))) => {
                self.text = rest;
                Some(Ok(argument))
            }
        }
    }
}
