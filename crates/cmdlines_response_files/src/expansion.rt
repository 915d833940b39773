//! Words with the files that they name opened.

ghost use Rattle.std.specs.Prelude.{◌≡◌, ◌++◌, IfOk, IfErr, OnOk, IsErrOf};
ghost use Rattle.base_files.specs.Bytes.{Bytes};
ghost use Rattle.base_files.specs.Views.{FilesFail};
ghost use Rattle.cmdlines_response_files.specs.Asking.{IsAskedFor};
ghost use Rattle.cmdlines_response_files.specs.Causes.{CauseOf};
ghost use Rattle.cmdlines_response_files.specs.Closed.{without};
ghost use Rattle.cmdlines_response_files.specs.Expansion.{expanded};
ghost use Rattle.cmdlines_response_files.specs.Known.{AreTrue, arguments_at};

use crate::chain::Chain;
use crate::fault::ParseFault;
use crate::known::KnownFiles;
use crate::opening::{Opened, opened_by};
use crate::style::Style;
use crate::unread::{Part, Unread};
use base_files::{Files, Listed, OsBytes};
use std::alloc::Global;

/// Adds what the words of a file become, while it is open. The files that it opens are open while their words are read.
fn expand_file<F: Files>(
    alloc: Global,
    style: Style,
    dir: &OsBytes,
    known: &mut KnownFiles,
    files: &mut F,
    file: Opened,
    out: &mut Vec<OsBytes>,
) -> Result<(), ParseFault>
    requires { AreTrue known.old (arguments_at style (F.tree files.old)) }
    ensures words { OnOk result
        (out.new.items
        ≡ out.old.items ++ expanded style dir.now (without file.name (F.tree files.old)) file.words) }
    ensures known { OnOk result (AreTrue known.new (arguments_at style (F.tree files.old))) }
    ensures cause { IfErr result (CauseOf (FilesFail F.Files files.old files.new)) }
    ensures asked { IfErr result
        (CauseOf (IsAskedFor style dir.now (without file.name (F.tree files.old)) file.words)) }
    ensures tree { F.tree files.new ≡ F.tree files.old }
    ensures steady { OnOk result (F.failed files.new ≡ F.failed files.old) }
    ensures memory { IsErrOf result ParseFault.Memory → F.failed files.new ≡ F.failed files.old }
{
    let mut chain = Chain::new(alloc);
    let mut unread = Unread::new(alloc);
    chain.open(&file.name)?;
    unread.add(file)?;
    while let Some(part) = unread.next() {
        match part {
            Part::End(name) => chain.close(&name),
            Part::Word(word) => match opened_by(alloc, style, dir, &chain, known, files, &word)? {
                None => out.push(word)?,
                Some(found) => {
                    chain.open(&found.name)?;
                    unread.add(found)?;
                }
            },
        }
    }
    Ok(())
}

/// What the words become once the files that they name are opened, from that directory. A word whose file is open already, or isn't
/// there, stays; `Read` names a file on which there was an I/O error.
pub fn expand<F: Files>(
    alloc: Global,
    style: Style,
    dir: &OsBytes,
    words: &[OsBytes],
    files: &mut F,
) -> Result<Listed<OsBytes>, ParseFault>
    ensures words { IfOk result (λ list. list ≡ expanded style dir.now (F.tree files.old) words.now) }
    ensures cause { IfErr result (CauseOf (FilesFail F.Files files.old files.new)) }
    ensures asked { IfErr result
        (CauseOf (IsAskedFor style dir.now (F.tree files.old) words.now)) }
    ensures tree { F.tree files.new ≡ F.tree files.old }
    ensures steady { OnOk result (F.failed files.new ≡ F.failed files.old) }
    ensures memory { IsErrOf result ParseFault.Memory → F.failed files.new ≡ F.failed files.old }
{
    let none = Chain::new(alloc);
    let mut known = KnownFiles::new(alloc);
    let mut out = Vec::new(alloc);
    for word in words {
        match opened_by(alloc, style, dir, &none, &mut known, files, word)? {
            None => out.push(word.clone()?)?,
            Some(file) => expand_file(alloc, style, dir, &mut known, files, file, &mut out)?,
        }
    }
    Ok(Listed::from_vec(out))
}
