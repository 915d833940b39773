//! How a compiler opens words.

ghost use Rattle.std.specs.Prelude.{◌≡◌, IfOk};
ghost use Rattle.std.specs.List.{list_any};
ghost use Rattle.std.specs.Option.{option_copied};
ghost use Rattle.cmdlines_response_files.specs.Decoding.{decoded};
ghost use Rattle.cmdlines_response_files.specs.Scanning.{gnu_arguments, msvc_arguments};
ghost use Rattle.cmdlines_response_files.specs.Styles.{after, is_special, mark_of, names_file, path_of, words_of};

use crate::decoding::decode_response_text;
use crate::gnu_texts::split_gnu_response_file_args;
use crate::msvc_texts::SplitMsvcResponseFileArgs;
use base_files::{Listed, OsBytes, join};
use std::alloc::{AllocError, Global};

/// Whose way it is to name a response file and to cut its text.
#[derive(Clone, Copy, Debug, PartialEq, Eq)]
pub enum Style {
    /// Gcc's and Clang's: `@NAME`, by the GNU grammar.
    Gnu,
    /// Msvc's: `@NAME`, decoded, by its own grammar.
    Msvc,
    /// Diab's: `-@NAME`, by the GNU grammar, unless the text holds a quote or a backslash.
    Diab,
}

impl Style {
    /// What comes before the name of a response file.
    fn mark(self) -> &'static [u8]
        ensures { result.now ≡ mark_of self }
    {
        match self {
            Style::Gnu | Style::Msvc => b"@",
            Style::Diab => b"-@",
        }
    }

    /// Whether one of the words names a response file. It takes no memory.
    pub fn opens_any(self, words: &[OsBytes]) -> bool
        ensures { result ≡ list_any (names_file self) words.now }
    {
        words.iter().any(|word| self.names_file(word.as_bytes()))
    }

    fn names_file(self, word: &[u8]) -> bool
        ensures { result ≡ names_file self word.now }
    {
        word.starts_with(self.mark())
    }

    /// The path of the response file that a word names, in that directory.
    pub(crate) fn path(
        self,
        alloc: Global,
        dir: &OsBytes,
        word: &[u8],
    ) -> Result<Option<OsBytes>, AllocError>
        ensures { IfOk result (λ path. path ≡ path_of self dir.now word.now) }
    {
        match after(self.mark(), word) {
            Some(name) => Ok(Some(join(alloc, dir.as_bytes(), name)?)),
            None => Ok(None),
        }
    }

    /// The words of a text, where such a text is opened.
    pub(crate) fn words(
        self,
        alloc: Global,
        text: &[u8],
    ) -> Result<Option<Listed<OsBytes>>, AllocError>
        ensures { IfOk result (λ words. words ≡ words_of self text.now) }
    {
        match self {
            Style::Gnu => Ok(Some(gnu_words(alloc, text)?)),
            Style::Msvc => Ok(Some(msvc_words(alloc, text)?)),
            Style::Diab => {
                if holds_special(text) {
                    return Ok(None);
                }
                Ok(Some(gnu_words(alloc, text)?))
            }
        }
    }
}

/// What comes after the mark, where the word begins with it.
fn after<'a>(mark: &[u8], word: &'a [u8]) -> Option<&'a [u8]>
    ensures { option_copied result ≡ after mark.now word.now }
{
    word.strip_prefix(mark)
}

/// Whether a quote or a backslash is in the text.
fn holds_special(text: &[u8]) -> bool
    ensures { result ≡ list_any is_special text.now }
{
    text.iter().any(|byte| is_special(*byte))
}

fn is_special(byte: u8) -> bool
    ensures { result ≡ is_special byte }
{
    byte == b'"' || byte == b'\'' || byte == b'\\'
}

fn gnu_words(alloc: Global, text: &[u8]) -> Result<Listed<OsBytes>, AllocError>
    ensures { IfOk result (λ words. words ≡ gnu_arguments text.now) }
{
    Ok(Listed::from_vec(split_gnu_response_file_args(alloc, text)?))
}

fn msvc_words(alloc: Global, text: &[u8]) -> Result<Listed<OsBytes>, AllocError>
    ensures { IfOk result (λ words. words ≡ msvc_arguments (decoded text.now)) }
{
    let decoded = decode_response_text(alloc, text)?;
    let mut words = Vec::new(alloc);
    for word in SplitMsvcResponseFileArgs::new(alloc, decoded.as_bytes()) {
        words.push(word?)?;
    }
    Ok(Listed::from_vec(words))
}
