//! What one word opens.

ghost use Rattle.std.specs.Prelude.{◌≡◌, IfOk, IfErr, OnOk, IsErrOf};
ghost use Rattle.base_files.specs.Views.{FilesFail};
ghost use Rattle.cmdlines_response_files.specs.Causes.{CauseOf};
ghost use Rattle.cmdlines_response_files.specs.Chains.{is_open};
ghost use Rattle.cmdlines_response_files.specs.Closed.{closed_in};
ghost use Rattle.cmdlines_response_files.specs.Expansion.{opened_by, opened_with};
ghost use Rattle.cmdlines_response_files.specs.Known.{AreTrue, arguments_at};
ghost use Rattle.cmdlines_response_files.specs.Styles.{path_of};

use crate::chain::Chain;
use crate::fault::ParseFault;
use crate::known::KnownFiles;
use crate::style::Style;
use base_files::{FileFail, Files, Listed, OsBytes};
use std::alloc::Global;

/// A response file: its name, and its words.
#[derive(Drop)]
pub(crate) struct Opened {
    pub(crate) name: OsBytes,
    pub(crate) words: Listed<OsBytes>,
}

/// The file of that name with these words, where it is opened.
fn opened_with(name: OsBytes, words: Option<Listed<OsBytes>>) -> Option<Opened>
    ensures { result ≡ opened_with name words }
{
    let words = words?;
    Some(Opened { name, words })
}

/// The file of that name, where it is opened. One that is known is neither read nor cut again.
fn opened_at<F: Files>(
    alloc: Global,
    style: Style,
    known: &mut KnownFiles,
    files: &mut F,
    name: OsBytes,
) -> Result<Option<Opened>, ParseFault>
    requires { AreTrue known.old (arguments_at style (F.tree files.old)) }
    ensures opened { IfOk result
        (λ found. found ≡ opened_with name (arguments_at style (F.tree files.old) name)) }
    ensures known { OnOk result (AreTrue known.new (arguments_at style (F.tree files.old))) }
    ensures cause { IfErr result (CauseOf (FilesFail F.Files files.old files.new)) }
    ensures asked { IfErr result (CauseOf (λ asked. name ≡ asked)) }
    ensures tree { F.tree files.new ≡ F.tree files.old }
    ensures steady { OnOk result (F.failed files.new ≡ F.failed files.old) }
    ensures memory { IsErrOf result ParseFault.Memory → F.failed files.new ≡ F.failed files.old }
{
    if let Some(words) = known.get(&name)? {
        return Ok(opened_with(name, words));
    }
    match files.read(alloc, &name) {
        Ok(Some(text)) => {
            let words = style.words(alloc, text.as_bytes())?;
            known.note(&name, text.as_bytes(), &words)?;
            Ok(opened_with(name, words))
        }
        Ok(None) => Ok(None),
        Err(FileFail::Memory) => Err(ParseFault::Memory),
        Err(FileFail::Device) => Err(ParseFault::Read(name)),
    }
}

/// What a word opens, while the files of the chain are open.
pub(crate) fn opened_by<F: Files>(
    alloc: Global,
    style: Style,
    dir: &OsBytes,
    chain: &Chain,
    known: &mut KnownFiles,
    files: &mut F,
    word: &OsBytes,
) -> Result<Option<Opened>, ParseFault>
    requires { AreTrue known.old (arguments_at style (F.tree files.old)) }
    ensures opened { IfOk result
        (λ found. found
        ≡ opened_by style dir.now (closed_in (is_open chain.now) (F.tree files.old)) word.now) }
    ensures known { OnOk result (AreTrue known.new (arguments_at style (F.tree files.old))) }
    ensures cause { IfErr result (CauseOf (FilesFail F.Files files.old files.new)) }
    ensures asked { IfErr result (CauseOf (λ name. path_of style dir.now word.now ≡ Some name)) }
    ensures tree { F.tree files.new ≡ F.tree files.old }
    ensures steady { OnOk result (F.failed files.new ≡ F.failed files.old) }
    ensures memory { IsErrOf result ParseFault.Memory → F.failed files.new ≡ F.failed files.old }
{
    let Some(name) = style.path(alloc, dir, word.as_bytes())? else {
        return Ok(None);
    };
    if chain.holds(&name) {
        return Ok(None);
    }
    opened_at(alloc, style, known, files, name)
}
