//! The walk over the markers of a text.

ghost use Rattle.std.specs.Prelude.{◌≡◌, ◌||◌, true, false, not, if◌then◌else◌, List, ◌∷◌, None, IfOk, IfErr, OnOk, IsErrOf};
ghost use Rattle.std.specs.Borrow.{Bor};
ghost use Rattle.std.specs.Str.{bytes_eq};
ghost use Rattle.base_files.specs.Bytes.{Bytes};
ghost use Rattle.base_files.specs.Path.{join};
ghost use Rattle.base_files.specs.Views.{FilesFail};
ghost use Rattle.cmdlines_response_files.specs.Causes.{CauseOf};
ghost use Rattle.ckeys_marker_walk.specs.Named.{asks_for_more, named_files_of, walk_names};
ghost use Rattle.ckeys_marker_walk.specs.Scanning.{Sight, named};
ghost use Rattle.ckeys_marker_walk.specs.Seen.{has_come};
ghost use Rattle.ckeys_marker_walk.specs.Spelling.{meant};
ghost use Rattle.ckeys_marker_walk.specs.Steps.{names_with, standing_on};

use crate::answer::Walk;
use crate::line::Mark;
use crate::markers::Markers;
use crate::names::unescaped;
use base_files::{FileFail, Files, Listed, OsBytes, join};
use ckeys_time_macros::holds::holds;
use cmdlines_response_files::ParseFault;
use std::alloc::{AllocError, Global};
use std::collections::HashSet;

/// What becomes of a name.
#[derive(Clone, Copy)]
pub(crate) enum Standing {
    /// It is among the named files.
    Counts,
    /// It isn't.
    Skipped,
    /// Its file refuses the text.
    Refuses,
}

/// The names that have come, as written between quotes.
#[derive(Drop)]
pub(crate) struct Seen<'a> {
    pub(crate) names: HashSet<&'a [u8]>,
}

impl<'a> Seen<'a> {
    /// None has come.
    fn new(alloc: Global) -> Seen<'a>
        ensures { (name : Bor Bytes) → has_come result name ≡ false }
    {
        Seen {
            names: HashSet::new(alloc),
        }
    }

    /// Whether the name comes for the first time; from then on it has come.
    fn comes_first(&mut self, name: &'a [u8]) -> Result<bool, AllocError>
        ensures first { IfOk result (λ first. first ≡ not (has_come self.old name.entry)) }
        ensures come { OnOk result ((other : Bor Bytes) →
            has_come self.new other ≡ (bytes_eq name.now other.now || has_come self.old other)) }
    {
        Ok(self.names.insert(name)?)
    }
}

/// Whether the text asks for a file that no marker names.
fn asks_for_more(text: &[u8]) -> bool
    ensures { result ≡ asks_for_more text.now }
{
    holds(text, b".incbin") || holds(text, b"#pragma GCC pch_preprocess")
}

/// What becomes of a name, by one look at its file at most.
#[tactic(auto, unfolding(ckeys_time_macros::specs::Macros::holds_time))]
fn standing_on<F: Files>(
    alloc: Global,
    name: &[u8],
    input: &[u8],
    dir: &[u8],
    files: &mut F,
) -> Result<Standing, ParseFault>
    ensures verdict { IfOk result (λ verdict.
        verdict ≡ standing_on dir.now (F.tree files.old) input.now name.now) }
    ensures cause { IfErr result (CauseOf (FilesFail F.Files files.old files.new)) }
    ensures tree { F.tree files.new ≡ F.tree files.old }
    ensures steady { OnOk result (F.failed files.new ≡ F.failed files.old) }
    ensures memory { IsErrOf result ParseFault.Memory → F.failed files.new ≡ F.failed files.old }
{
    if name.starts_with(b"<") {
        return Ok(Standing::Skipped);
    }
    let path = join(alloc, dir, name)?;
    if path.as_bytes() == input {
        return Ok(Standing::Skipped);
    }
    match files.read(alloc, &path) {
        Ok(Some(contents)) => {
            if holds(contents.as_bytes(), b"__TIME__") {
                Ok(Standing::Refuses)
            } else {
                Ok(Standing::Counts)
            }
        }
        Ok(None) => Ok(Standing::Skipped),
        Err(FileFail::Memory) => Err(ParseFault::Memory),
        Err(FileFail::Device) => Err(ParseFault::Read(path)),
    }
}

/// The name that is written like this between quotes.
fn name_of(alloc: Global, raw: &[u8]) -> Result<OsBytes, AllocError>
    ensures { IfOk result (λ name. name ≡ meant raw.now) }
{
    Ok(OsBytes::from_vec(unescaped(alloc, raw)?.into_owned(alloc)?))
}

/// Takes the name of the next marker, which is written like this between quotes. Answers whether the walk goes on.
fn take_name<'a, F: Files>(
    alloc: Global,
    raw: &'a [u8],
    input: &[u8],
    dir: &[u8],
    files: &mut F,
    seen: &mut Seen<'a>,
    names: &mut Vec<OsBytes>,
) -> Result<bool, ParseFault>
    ensures names { IfOk result (λ goes_on. (told : List Sight) →
        let was = names_with dir.now (F.tree files.old) input.now names.old.items seen.old in
        let is = names_with dir.now (F.tree files.old) input.now names.new.items seen.new in
        was (named raw.now ∷ told) ≡ (if goes_on then is told else None)) }
    // A name that came before isn't looked up in the files.
    ensures again { has_come seen.old raw.entry ≡ true → files.new ≡ files.old }
    ensures cause { IfErr result (CauseOf (FilesFail F.Files files.old files.new)) }
    ensures tree { F.tree files.new ≡ F.tree files.old }
    ensures steady { OnOk result (F.failed files.new ≡ F.failed files.old) }
    ensures memory { IsErrOf result ParseFault.Memory → F.failed files.new ≡ F.failed files.old }
{
    if !seen.comes_first(raw)? {
        return Ok(true);
    }
    let name = name_of(alloc, raw)?;
    match standing_on(alloc, name.as_bytes(), input, dir, files)? {
        Standing::Counts => {
            names.push(name)?;
            Ok(true)
        }
        Standing::Skipped => Ok(true),
        Standing::Refuses => Ok(false),
    }
}

/// The named files of a preprocessed text: the names of its markers that don't begin with `<`, are of regular files and aren't the
/// input, each once, in the order in which they appear first. Names, and that of the input, are read from the directory `dir`.
///
/// `Refused` where a line can't be distinguished from a marker, the text holds `.incbin` or `#pragma GCC pch_preprocess`, or a named file
/// holds `__TIME__`. `Read` names a file on which an I/O error occurred, and `Memory` means out of memory.
///
/// A name that comes again costs a look-up among those that came, and no call of the files.
pub fn walk<F: Files>(
    alloc: Global,
    text: &[u8],
    input: &[u8],
    dir: &[u8],
    files: &mut F,
) -> Result<Walk, ParseFault>
    ensures named { IfOk result (λ found. walk_names found
        ≡ named_files_of dir.now (F.tree files.old) (join dir.now input.now) text.now) }
    ensures cause { IfErr result (CauseOf (FilesFail F.Files files.old files.new)) }
    ensures tree { F.tree files.new ≡ F.tree files.old }
    ensures steady { OnOk result (F.failed files.new ≡ F.failed files.old) }
    ensures memory { IsErrOf result ParseFault.Memory → F.failed files.new ≡ F.failed files.old }
{
    if asks_for_more(text) {
        return Ok(Walk::Refused);
    }
    let path = join(alloc, dir, input)?;
    let mut seen = Seen::new(alloc);
    let mut names = Vec::new(alloc);
    for mark in Markers::new(text) {
        match mark {
            Mark::Named(raw) => {
                if !take_name(
                    alloc,
                    raw,
                    path.as_bytes(),
                    dir,
                    files,
                    &mut seen,
                    &mut names,
                )? {
                    return Ok(Walk::Refused);
                }
            }
            Mark::Refused => return Ok(Walk::Refused),
        }
    }
    Ok(Walk::Names(Listed::from_vec(names)))
}
