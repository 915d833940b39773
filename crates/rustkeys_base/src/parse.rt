//! The parse of rustc's words: they are cut by its table, and what they say is gathered and closed.

ghost use Rattle.std.specs.Prelude.{◌≡◌, ◌↔◌, [], ◌∷◌, Some, alloc_error, IfOk, IfErr, IsErrOf, OnOk, MatchOption};
ghost use Rattle.cmdlines_response_files.specs.Causes.{CauseOf};
ghost use Rattle.rustkeys_base.specs.Expansion.{expanded_by_rustc};
ghost use Rattle.std.specs.Option.{option_map};
ghost use Rattle.base_files.specs.Views.{FilesFail};
ghost use Rattle.rustc_options.specs.Table.{rustc_entries, rustc_reading};
ghost use Rattle.rustkeys_base.specs.Asking.{IsAskedByItems, IsAskedByRustc, IsTargetFile, target_file_in};
ghost use Rattle.rustkeys_base.specs.Asks.{AsksFor, asks_of};
ghost use Rattle.rustkeys_base.specs.Facts.{no_facts, facts_with};
ghost use Rattle.rustkeys_base.specs.Requests.{Gathers, IsAsked, kept_with};
ghost use Rattle.rustkeys_base.specs.Saying.{token_in};
ghost use Rattle.rustkeys_base.specs.Parsing.{after_rustc, decides, request_reading, decision_of, decision_of_refusal, decision_on, not_parsed};

use crate::closing::close;
use crate::deciding::{Refusal, decides, refused};
use crate::expansion::expand_rustc;
use crate::facts::Facts;
use base_files::{Files, Listed, OsBytes};
use cmdlines_base::{
    ArgParseError, ArgsIter, Argument, ByteTree, CompilerArguments, NormalizedDisposition,
};
use cmdlines_response_files::ParseFault;
use rustc_options::parsed::ParsedArguments;
use rustc_options::{ArgData, rustc_table};
use std::alloc::{AllocError, Global};

/// The words of the request: a first word `rustc`, which a wrapper leaves there, is none of them.
fn after_rustc(words: &[OsBytes]) -> &[OsBytes]
    ensures { result.now ≡ after_rustc words.now }
{
    match words.split_first() {
        Some((word, rest)) if word.as_bytes() == b"rustc".as_slice() => rest,
        _ => words,
    }
}

/// What words come to that can't be cut.
fn not_cut(error: ArgParseError) -> Result<Refusal, AllocError>
    ensures answer { IfOk result (λ why. decision_of_refusal why ≡ not_parsed) }
    ensures error { IsErrOf result alloc_error ↔ (error ≡ ArgParseError.Memory) }
{
    match error {
        ArgParseError::Memory => Err(AllocError),
        ArgParseError::UnexpectedEndOfArgs
        | ArgParseError::InvalidUnicode(_)
        | ArgParseError::Other(_) => Ok(refused("argument parse")),
    }
}

/// Adds an argument, made separate from its value where it may be joined or separate; one on colours is left out.
fn keep(
    arguments: &mut Listed<Argument<ArgData>>,
    argument: Argument<ArgData>,
) -> Result<(), AllocError>
    ensures { OnOk result (arguments.new ≡ kept_with arguments.old argument) }
{
    if let Some(ArgData::Color(_)) = argument.get_data() {
        drop(argument);
        return Ok(());
    }
    arguments.push(argument.normalize(NormalizedDisposition::Separated))
}

/// Notes an argument, unless it decides by itself.
fn note<F: Files>(
    alloc: Global,
    dir: &OsBytes,
    facts: &mut Facts,
    argument: &Argument<ArgData>,
    files: &mut F,
) -> Result<Option<Refusal>, ParseFault>
    ensures decides { IfOk result
        (λ why. option_map decision_of_refusal why
        ≡ decides dir.now (F.tree files.old) facts.old (token_in argument.now)) }
    ensures noted { IfOk result
        (λ why. MatchOption why (facts.new ≡ facts_with facts.old (token_in argument.now ∷ []))
        (λ decided. Unit {0})) }
    ensures cause { IfErr result (CauseOf (FilesFail F.Files files.old files.new)) }
    ensures asked { IfErr result
        (CauseOf (λ name. target_file_in dir.now (token_in argument.now) ≡ Some name)) }
    ensures tree { F.tree files.new ≡ F.tree files.old }
    ensures steady { OnOk result (F.failed files.new ≡ F.failed files.old) }
    ensures memory { IsErrOf result ParseFault.Memory → F.failed files.new ≡ F.failed files.old }
{
    let why = decides(alloc, dir, facts, argument, files)?;
    if why.is_none() {
        facts.note(argument)?;
    }
    Ok(why)
}

/// Takes an argument to those that are kept, unless it decides by itself.
fn take<F: Files>(
    alloc: Global,
    dir: &OsBytes,
    facts: &mut Facts,
    kept: &mut Listed<Argument<ArgData>>,
    argument: Argument<ArgData>,
    files: &mut F,
) -> Result<Option<Refusal>, ParseFault>
    ensures decides { IfOk result
        (λ why. option_map decision_of_refusal why
        ≡ decides dir.now (F.tree files.old) facts.old (token_in argument)) }
    ensures noted { IfOk result
        (λ why. MatchOption why (facts.new ≡ facts_with facts.old (token_in argument ∷ []))
        (λ decided. Unit {0})) }
    ensures kept { IfOk result
        (λ why. MatchOption why (kept.new ≡ kept_with kept.old argument) (λ decided. Unit {0})) }
    ensures cause { IfErr result (CauseOf (FilesFail F.Files files.old files.new)) }
    ensures asked { IfErr result
        (CauseOf (λ name. target_file_in dir.now (token_in argument) ≡ Some name)) }
    ensures tree { F.tree files.new ≡ F.tree files.old }
    ensures steady { OnOk result (F.failed files.new ≡ F.failed files.old) }
    ensures memory { IsErrOf result ParseFault.Memory → F.failed files.new ≡ F.failed files.old }
{
    let why = note(alloc, dir, facts, &argument, files);
    if !matches!(why, Ok(None)) {
        drop(argument);
        return why;
    }
    keep(kept, argument)?;
    Ok(None)
}

/// Gathers what the words say, as far as none decides by itself.
fn gather<F: Files>(
    alloc: Global,
    tree: &ByteTree<ArgData>,
    words: &[OsBytes],
    dir: &OsBytes,
    facts: &mut Facts,
    kept: &mut Listed<Argument<ArgData>>,
    files: &mut F,
) -> Result<Option<Refusal>, ParseFault>
    requires tree { tree.now ≡ rustc_entries ∷ [] }
    requires facts { facts.old ≡ no_facts }
    requires kept { kept.old ≡ [] }
    ensures gathered { IfOk result
        (Gathers dir.now (F.tree files.old) (rustc_reading words.now) facts.new kept.new) }
    ensures cause { IfErr result (CauseOf (FilesFail F.Files files.old files.new)) }
    ensures asked { IfErr result
        (CauseOf (IsTargetFile dir.now (rustc_reading words.now).items)) }
    ensures tree { F.tree files.new ≡ F.tree files.old }
    ensures steady { OnOk result (F.failed files.new ≡ F.failed files.old) }
    ensures memory { IsErrOf result ParseFault.Memory → F.failed files.new ≡ F.failed files.old }
{
    let mut arguments = ArgsIter::new(alloc, words, tree);
    while let Some(next) = arguments.next() {
        match next {
            Err(error) => return Ok(Some(not_cut(error)?)),
            Ok(argument) => {
                let why = take(alloc, dir, facts, kept, argument, files)?;
                if why.is_some() {
                    return Ok(why);
                }
            }
        }
    }
    Ok(None)
}

/// Gathers what the words say, cut by the table of rustc, as far as none decides by itself.
fn gather_words<F: Files>(
    alloc: Global,
    words: &[OsBytes],
    dir: &OsBytes,
    facts: &mut Facts,
    kept: &mut Listed<Argument<ArgData>>,
    files: &mut F,
) -> Result<Option<Refusal>, ParseFault>
    requires facts { facts.old ≡ no_facts }
    requires kept { kept.old ≡ [] }
    ensures gathered { IfOk result
        (Gathers dir.now (F.tree files.old) (rustc_reading words.now) facts.new kept.new) }
    ensures cause { IfErr result (CauseOf (FilesFail F.Files files.old files.new)) }
    ensures asked { IfErr result
        (CauseOf (IsTargetFile dir.now (rustc_reading words.now).items)) }
    ensures tree { F.tree files.new ≡ F.tree files.old }
    ensures steady { OnOk result (F.failed files.new ≡ F.failed files.old) }
    ensures memory { IsErrOf result ParseFault.Memory → F.failed files.new ≡ F.failed files.old }
{
    let tree = ByteTree::of_one(rustc_table(alloc)?);
    gather(alloc, &tree, words, dir, facts, kept, files)
}

/// What words come to, with no response file opened.
fn parse<F: Files>(
    alloc: Global,
    words: &[OsBytes],
    dir: &OsBytes,
    files: &mut F,
) -> Result<CompilerArguments<ParsedArguments>, ParseFault>
    ensures decision { IfOk result
        (λ answer. decision_of answer
        ≡ decision_on dir.now (F.tree files.old) (request_reading words.now)) }
    ensures asked { IfOk result
        (IsAsked dir.now (F.tree files.old) (request_reading words.now).items) }
    ensures cause { IfErr result (CauseOf (FilesFail F.Files files.old files.new)) }
    ensures names { IfErr result
        (CauseOf (IsAskedByItems dir.now (request_reading words.now).items)) }
    ensures tree { F.tree files.new ≡ F.tree files.old }
    ensures steady { OnOk result (F.failed files.new ≡ F.failed files.old) }
    ensures memory { IsErrOf result ParseFault.Memory → F.failed files.new ≡ F.failed files.old }
{
    let mut facts = Facts::new(alloc);
    let mut kept = Listed::new(alloc);
    match gather_words(alloc, after_rustc(words), dir, &mut facts, &mut kept, files) {
        Ok(None) => close(alloc, dir, facts, kept, files),
        Ok(Some(why)) => {
            drop(facts);
            Ok(why.into_answer())
        }
        Err(fault) => {
            drop(facts);
            Err(fault)
        }
    }
}

/// What these words come to as a request to rustc, with the response files that they name opened from that directory. `Read` names
/// a file on which there was an I/O error.
pub fn parse_arguments<F: Files>(
    alloc: Global,
    words: &[OsBytes],
    dir: &OsBytes,
    files: &mut F,
) -> Result<CompilerArguments<ParsedArguments>, ParseFault>
    ensures decision { IfOk result
        (λ answer. decision_of answer
        ≡ decision_on dir.now (F.tree files.old)
        (request_reading (expanded_by_rustc dir.now (F.tree files.old) words.now))) }
    ensures asked { IfOk result
        (IsAsked dir.now (F.tree files.old)
        (request_reading (expanded_by_rustc dir.now (F.tree files.old) words.now)).items) }
    ensures asks { IfOk result
        (AsksFor (asks_of dir.now (F.tree files.old)
        (request_reading (expanded_by_rustc dir.now (F.tree files.old) words.now)).items)) }
    ensures cause { IfErr result (CauseOf (FilesFail F.Files files.old files.new)) }
    ensures names { IfErr result
        (CauseOf (IsAskedByRustc dir.now (F.tree files.old) words.now)) }
    ensures tree { F.tree files.new ≡ F.tree files.old }
    ensures steady { OnOk result (F.failed files.new ≡ F.failed files.old) }
    ensures memory { IsErrOf result ParseFault.Memory → F.failed files.new ≡ F.failed files.old }
{
    let expanded = expand_rustc(alloc, dir, words, files)?;
    parse(alloc, expanded.as_slice(), dir, files)
}
