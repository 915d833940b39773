//! Response files: texts that are split into their arguments, and chains of files of which each names the next one.

ghost use Rattle.std.specs.Prelude.{◌≡◌, IfOk, length};
ghost use Rattle.cmdlines_response_files.specs.Expansion.{expanded};
ghost use Rattle.cmdlines_response_files.specs.declared.style.Style.TheVariants.{Gnu};
ghost use Rattle.cmdlines_response_files.specs.Decoding.{decoded};
ghost use Rattle.cmdlines_response_files.specs.Scanning.{gnu_arguments, msvc_arguments};

use base_files::{FileTime, MemoryFile, MemoryFiles, OsBytes};
use cmdlines_response_files::{
    ParseFault, SplitMsvcResponseFileArgs, Style, decode_response_text, expand,
    split_gnu_response_file_args,
};
use std::alloc::{AllocError, Global};

/// What the line says of words, or of the texts of files: how many there are, and how many bytes they have together, modulo
/// 2 ^ 64.
#[derive(Clone, Copy, Debug, PartialEq, Eq)]
pub(crate) struct Tally {
    pub(crate) count: usize,
    pub(crate) bytes: usize,
}

impl Tally {
    /// The tally of nothing.
    pub(crate) fn none() -> Tally
        ensures { result.count ≡ 0 }
    {
        Tally { count: 0, bytes: 0 }
    }

    /// The tally of these words.
    pub(crate) fn of(words: &[OsBytes]) -> Tally
        ensures { result.count ≡ length words.now }
    {
        let mut bytes: usize = 0;
        for word in words {
            bytes = bytes.wrapping_add(word.as_bytes().len());
        }
        Tally {
            count: words.len(),
            bytes,
        }
    }
}

/// Tallies the arguments of the text by the GNU grammar.
fn split_gnu(alloc: Global, text: &[u8]) -> Result<Tally, AllocError>
    ensures { IfOk result (λ tally. tally.count ≡ length (gnu_arguments text.now)) }
{
    let arguments = split_gnu_response_file_args(alloc, text)?;
    Ok(Tally::of(arguments.as_slice()))
}

/// Decodes the text, and tallies its arguments by the MSVC grammar.
fn split_msvc(alloc: Global, text: &[u8]) -> Result<Tally, AllocError>
    ensures { IfOk result (λ tally. tally.count ≡ length (msvc_arguments (decoded text.now))) }
{
    let decoded = decode_response_text(alloc, text)?;
    let mut arguments = Vec::new(alloc);
    for argument in SplitMsvcResponseFileArgs::new(alloc, decoded.as_bytes()) {
        arguments.push(argument?)?;
    }
    Ok(Tally::of(arguments.as_slice()))
}

/// Splits the text by the GNU grammar so often.
pub(crate) fn gnu_splittings(
    alloc: Global,
    text: &[u8],
    repeats: u32,
) -> Result<Tally, AllocError> {
    let mut last = Tally::none();
    for _ in 0..repeats {
        last = split_gnu(alloc, text)?;
    }
    Ok(last)
}

/// Decodes the text and splits it by the MSVC grammar so often.
pub(crate) fn msvc_splittings(
    alloc: Global,
    text: &[u8],
    repeats: u32,
) -> Result<Tally, AllocError> {
    let mut last = Tally::none();
    for _ in 0..repeats {
        last = split_msvc(alloc, text)?;
    }
    Ok(last)
}

/// The texts of a chain of so many files: each has a definition, and the name of the next file where there is one.
fn chain(alloc: Global, count: u32) -> Result<Vec<OsBytes>, AllocError>
    ensures { IfOk result (λ texts. length texts.items ≡ count) }
{
    let mut texts = Vec::new(alloc);
    for number in 0..count {
        let next = number + 1;
        let text = if next < count {
            format!(in alloc; "-DA=1 @{next}")?
        } else {
            String::from_str(alloc, "-DA=1")?
        };
        texts.push(OsBytes::from_vec(text.into_bytes()))?;
    }
    Ok(texts)
}

/// Files of these texts in the folder `/w`, named by their numbers.
fn files_of(alloc: Global, texts: Vec<OsBytes>) -> Result<MemoryFiles, AllocError> {
    let mut files = MemoryFiles::new(alloc);
    let mut number: u64 = 0;
    for contents in texts {
        let path = format!(in alloc; "/w/{number}")?;
        let mtime = FileTime::from_seconds(0);
        files.insert(
            OsBytes::from_vec(path.into_bytes()),
            MemoryFile { contents, mtime },
        )?;
        number = number.saturating_add(1);
    }
    Ok(files)
}

/// Tallies what the words become once the files that they name are opened.
fn open(
    alloc: Global,
    dir: &OsBytes,
    words: &[OsBytes],
    files: &mut MemoryFiles,
) -> Result<Tally, ParseFault>
    ensures words { IfOk result
        (λ tally. tally.count ≡ length (expanded Gnu dir.now files.old words.now)) }
    ensures files { files.new ≡ files.old }
{
    let words = expand(alloc, Style::Gnu, dir, words, files)?;
    Ok(Tally::of(words.as_slice()))
}

/// Builds a chain of so many files, and opens it so often.
pub(crate) fn openings(alloc: Global, count: u32, repeats: u32) -> Result<Tally, ParseFault> {
    let mut files = files_of(alloc, chain(alloc, count)?)?;
    let dir = OsBytes::from_slice(alloc, b"/w")?;
    let first = [OsBytes::from_slice(alloc, b"@0")?];
    let mut last = Tally::none();
    for _ in 0..repeats {
        last = open(alloc, &dir, &first, &mut files)?;
    }
    Ok(last)
}

/// Tallies copies of the texts.
pub(crate) fn copy(alloc: Global, texts: &[OsBytes]) -> Result<Tally, AllocError>
    ensures { IfOk result (λ tally. tally.count ≡ length texts.now) }
{
    let mut copies = Vec::new(alloc);
    for text in texts {
        copies.push(OsBytes::from_slice(alloc, text.as_bytes())?)?;
    }
    Ok(Tally::of(copies.as_slice()))
}

/// Builds the texts of a chain of so many files, and copies them so often.
pub(crate) fn chain_copies(alloc: Global, count: u32, repeats: u32) -> Result<Tally, AllocError> {
    let texts = chain(alloc, count)?;
    let mut last = Tally::none();
    for _ in 0..repeats {
        last = copy(alloc, &texts)?;
    }
    Ok(last)
}
