//! rustc's words with the files that they name opened.

ghost use Rattle.std.specs.Prelude.{◌≡◌, ◌∷◌, ◌++◌, [], false, Err, IfErr, IfOk, IsErrOf, List, Ok, OnOk, Some, codes, length, map};
ghost use Rattle.std.specs.Iterator.{at_most};
ghost use Rattle.std.specs.List.{list_any};
ghost use Rattle.std.specs.Option.{option_copied};
ghost use Rattle.base_files.specs.Bytes.{Bytes};
ghost use Rattle.base_files.specs.Tree.{Tree};
ghost use Rattle.base_files.specs.Views.{FilesFail};
ghost use Rattle.cmdlines_response_files.specs.Causes.{CauseOf};
ghost use Rattle.cmdlines_response_files.specs.Known.{AreTrue};
ghost use Rattle.cmdlines_response_files.specs.Styles.{after};
ghost use Rattle.cmdlines_response_files.specs.Words.{Gives, Takes};
ghost use Rattle.rustkeys_base.specs.Asking.{IsNamedIn};
ghost use Rattle.rustkeys_base.specs.Expansion.{expanded_by_rustc, names_file, opened_by, path_of, words_in, words_of_text};
ghost use Rattle.rustkeys_base.specs.Words.{items_left};

use crate::response_text::split_rust_response_file_args;
use base_files::{FileFail, Files, Listed, OsBytes, join};
use cmdlines_response_files::{KnownFiles, ParseFault};
use std::alloc::{AllocError, Global};
use std::vec::IntoIter;

/// What comes after the `@` that a word begins with.
fn after_at(word: &[u8]) -> Option<&[u8]>
    ensures { option_copied result ≡ after (codes "@") word.now }
{
    word.strip_prefix(b"@")
}

/// The path of the response file that a word names, in that directory.
fn path_of(alloc: Global, dir: &OsBytes, word: &OsBytes) -> Result<Option<OsBytes>, AllocError>
    ensures { IfOk result (λ path. path ≡ path_of dir.now word.now) }
{
    match after_at(word.as_bytes()) {
        Some(name) => Ok(Some(join(alloc, dir.as_bytes(), name)?)),
        None => Ok(None),
    }
}

/// The words of a text, where it is UTF-8.
#[tactic(auto, using(crate::proofs::TextLaws::words_of_utf8, crate::proofs::TextLaws::words_of_other))]
fn words_of_text(alloc: Global, bytes: &OsBytes) -> Result<Option<Listed<OsBytes>>, AllocError>
    ensures { IfOk result (λ words. words ≡ words_of_text bytes.now) }
{
    match str::from_utf8(bytes.as_bytes()) {
        Ok(text) => Ok(Some(split_rust_response_file_args(alloc, text)?)),
        Err(_) => Ok(None),
    }
}

/// The words of the file of that path. One that is known is neither read nor cut again.
fn words_in<F: Files>(
    alloc: Global,
    known: &mut KnownFiles,
    files: &mut F,
    path: OsBytes,
) -> Result<Option<Listed<OsBytes>>, ParseFault>
    requires { AreTrue known.old (words_in (F.tree files.old)) }
    ensures words { IfOk result (λ words. words ≡ words_in (F.tree files.old) path) }
    ensures known { OnOk result (AreTrue known.new (words_in (F.tree files.old))) }
    ensures cause { IfErr result (CauseOf (FilesFail F.Files files.old files.new)) }
    ensures asked { IfErr result (CauseOf (λ name. path ≡ name)) }
    ensures tree { F.tree files.new ≡ F.tree files.old }
    ensures steady { OnOk result (F.failed files.new ≡ F.failed files.old) }
    ensures memory { IsErrOf result ParseFault.Memory → F.failed files.new ≡ F.failed files.old }
{
    if let Some(words) = known.get(&path)? {
        return Ok(words);
    }
    match files.read(alloc, &path) {
        Ok(Some(text)) => {
            let words = words_of_text(alloc, &text)?;
            known.note(&path, text.as_bytes(), &words)?;
            Ok(words)
        }
        Ok(None) => Ok(None),
        Err(FileFail::Memory) => Err(ParseFault::Memory),
        Err(FileFail::Device) => Err(ParseFault::Read(path)),
    }
}

/// The words of the file that a word names.
fn opened_by<F: Files>(
    alloc: Global,
    dir: &OsBytes,
    known: &mut KnownFiles,
    files: &mut F,
    word: &OsBytes,
) -> Result<Option<Listed<OsBytes>>, ParseFault>
    requires { AreTrue known.old (words_in (F.tree files.old)) }
    ensures opened { IfOk result (λ words. words ≡ opened_by dir.now (F.tree files.old) word.now) }
    ensures known { OnOk result (AreTrue known.new (words_in (F.tree files.old))) }
    ensures cause { IfErr result (CauseOf (FilesFail F.Files files.old files.new)) }
    ensures asked { IfErr result (CauseOf (λ name. path_of dir.now word.now ≡ Some name)) }
    ensures tree { F.tree files.new ≡ F.tree files.old }
    ensures steady { OnOk result (F.failed files.new ≡ F.failed files.old) }
    ensures memory { IsErrOf result ParseFault.Memory → F.failed files.new ≡ F.failed files.old }
{
    let Some(path) = path_of(alloc, dir, word)? else {
        return Ok(None);
    };
    words_in(alloc, known, files, path)
}

/// What rustc's words become once the files that they name are opened, from that directory. A word whose file isn't there, or isn't
/// UTF-8, stays, and so does what comes from a file; `Read` names a file on which there was an I/O error.
pub fn expand_rustc<F: Files>(
    alloc: Global,
    dir: &OsBytes,
    words: &[OsBytes],
    files: &mut F,
) -> Result<Listed<OsBytes>, ParseFault>
    ensures words { IfOk result
        (λ list. list ≡ expanded_by_rustc dir.now (F.tree files.old) words.now) }
    ensures cause { IfErr result (CauseOf (FilesFail F.Files files.old files.new)) }
    ensures asked { IfErr result (CauseOf (IsNamedIn dir.now words.now)) }
    ensures tree { F.tree files.new ≡ F.tree files.old }
    ensures steady { OnOk result (F.failed files.new ≡ F.failed files.old) }
    ensures memory { IsErrOf result ParseFault.Memory → F.failed files.new ≡ F.failed files.old }
{
    let mut known = KnownFiles::new(alloc);
    let mut out = Vec::new(alloc);
    for word in words {
        match opened_by(alloc, dir, &mut known, files, word)? {
            Some(lines) => out.append(&mut lines.into_vec())?,
            None => out.push(word.clone()?)?,
        }
    }
    Ok(Listed::from_vec(out))
}

/// The words of a command line for rustc, with those that name files replaced by the words of these files; or the fault that kept them from
/// being read.
#[derive(Drop)]
pub struct ExpandResponseFile {
    words: IntoIter<OsBytes>,
    fault: Option<ParseFault>,
}

impl ExpandResponseFile {
    /// These words, with the response files that they name opened from that directory.
    pub fn new<F: Files>(
        alloc: Global,
        dir: &OsBytes,
        words: &[OsBytes],
        files: &mut F,
    ) -> ExpandResponseFile
        ensures gives { Gives (items_left result)
            (expanded_by_rustc dir.now (F.tree files.old) words.now)
            (FilesFail F.Files files.old files.new) }
        ensures asked { Gives (items_left result)
            (expanded_by_rustc dir.now (F.tree files.old) words.now)
            (IsNamedIn dir.now words.now) }
        ensures tree { F.tree files.new ≡ F.tree files.old }
        // There was no I/O error where words are all that comes, nor when out of memory.
        ensures steady { (given : List Bytes) → items_left result ≡ map Ok given
            → F.failed files.new ≡ F.failed files.old }
        ensures memory { items_left result ≡ Err ParseFault.Memory ∷ []
            → F.failed files.new ≡ F.failed files.old }
    {
        match expand_rustc(alloc, dir, words, files) {
            Ok(words) => ExpandResponseFile {
                words: words.into_vec().into_iter(),
                fault: None,
            },
            Err(fault) => ExpandResponseFile {
                words: Vec::new(alloc).into_iter(),
                fault: Some(fault),
            },
        }
    }
}

impl Iterator for ExpandResponseFile {
    type Item = Result<OsBytes, ParseFault>;

    ghost next_gives = { λ s r t. Takes (items_left s) r (items_left t) };

    ghost remaining = { λ s. at_most (length (items_left s)) };

    fn next(&mut self) -> Option<Result<OsBytes, ParseFault>> {
        match self.words.next() {
            Some(word) => Some(Ok(word)),
            None => self.fault.take().map(Err),
        }
    }
}

/// Each response file is opened once, in the place of its own word: words of which none names one stay as they are, and words in a row
/// become in a row what they become apart. A call of it does nothing.
pub fn files_of_words_open_once()
    ensures others_stay { (dir : Bytes) (tree : Tree) (words : List Bytes)
        → list_any names_file words ≡ false → expanded_by_rustc dir tree words ≡ words }
    ensures apart { (dir : Bytes) (tree : Tree) (words more : List Bytes)
        → expanded_by_rustc dir tree (words ++ more)
        ≡ expanded_by_rustc dir tree words ++ expanded_by_rustc dir tree more }
{}
