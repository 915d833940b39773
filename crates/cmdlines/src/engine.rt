//! The one parse of the C compilers: words are cut by a compiler's tables, and what they say is gathered and closed.

ghost use Rattle.std.specs.Prelude.{◌≡◌, ◌↔◌, ◌&&◌, Bool, false, true, alloc_error, codes, IfOk, IsErrOf, MatchOption};
ghost use Rattle.cmdlines_base.specs.Table.{all_entries};
ghost use Rattle.cmdlines_tables.specs.Values.{placed};
ghost use Rattle.cmdlines.specs.Collecting.{no_facts, no_lists};
ghost use Rattle.cmdlines.specs.Parsing.{closing, decision_of, decision_by, refused};
ghost use Rattle.cmdlines.specs.Wanted.{is_hard, is_hard_word, may_name_folder, names_folder, flag_of};

use crate::closing::{close, refused};
use crate::facts::Facts;
use crate::lists::Lists;
use base_files::OsBytes;
use cmdlines_base::{ArgParseError, Argument, CompilerArguments, SearchableArgInfo};
use cmdlines_tables::kind::ArgKind;
use cmdlines_tables::{
    ArgData, CCompilerKind, ParsedArguments, Spelling, arguments_are_their_items, arguments_of,
};
use std::alloc::{AllocError, Global};

/// Whether a word for Clang's front end is about modules or precompiled headers, or loads a plugin.
fn is_hard_word(word: &[u8]) -> bool
    ensures { result ≡ is_hard_word word.now }
{
    word == b"-load".as_slice()
        || word == b"-include-pch".as_slice()
        || word == b"-emit-pch".as_slice()
        || word.starts_with(b"-fmodule")
}

/// Whether that compiler takes the word of an output for the name of a folder.
fn names_folder(kind: CCompilerKind, word: &[u8]) -> bool
    ensures { result ≡ may_name_folder kind && names_folder word.now }
{
    kind.spelling() == Spelling::Msvc && (word.ends_with(b"/") || word.ends_with(b"\\"))
}

/// The flag of an option that is too hard for that compiler.
fn too_hard_flag(kind: CCompilerKind, argument: &Argument<ArgData>) -> Option<&'static str>
    ensures { (after : Bool)
        → MatchOption result (is_hard kind (placed after argument.now) ≡ false)
        (λ flag. (is_hard kind (placed after argument.now) ≡ true)
        × (flag.now ≡ flag_of (placed after argument.now))) }
{
    let (flag, option, word) = match argument {
        Argument::Raw(_) | Argument::UnknownFlag(_) => return None,
        Argument::Flag(flag, data) => (flag, data.kind(), [].as_slice()),
        Argument::WithValue(flag, data, _) => (flag, data.kind(), data.word()),
    };
    let is_hard = match option {
        ArgKind::TooHard => true,
        ArgKind::XClang => is_hard_word(word),
        ArgKind::Output => names_folder(kind, word),
        _ => false,
    };
    if is_hard { Some(flag) } else { None }
}

/// Why words are refused that can't be cut.
fn not_cut(error: ArgParseError) -> Result<&'static str, AllocError>
    ensures reason { IfOk result (λ reason. reason.now ≡ codes "argument parse") }
    ensures error { IsErrOf result alloc_error ↔ (error ≡ ArgParseError.Memory) }
{
    match error {
        ArgParseError::Memory => Err(AllocError),
        ArgParseError::UnexpectedEndOfArgs
        | ArgParseError::InvalidUnicode(_)
        | ArgParseError::Other(_) => Ok("argument parse"),
    }
}

/// Gathers what words say, cut by a table as that compiler cuts, or tells why they are refused.
fn gather<S: SearchableArgInfo<ArgData>>(
    alloc: Global,
    kind: CCompilerKind,
    table: &S,
    words: &[OsBytes],
    facts: &mut Facts,
    lists: &mut Lists,
) -> Result<Option<&'static str>, AllocError>
    requires facts { facts.old ≡ no_facts }
    requires lists { lists.old ≡ no_lists }
    ensures { IfOk result (λ refusal. MatchOption refusal
        (decision_by kind (all_entries (S.tables table.now)) words.now
        ≡ closing kind facts.new lists.new)
        (λ reason. decision_by kind (all_entries (S.tables table.now)) words.now
        ≡ refused reason.now)) }
{
    // A law, which costs nothing: what follows from it is said above.
    arguments_are_their_items();
    let mut arguments = arguments_of(alloc, kind, table, words);
    while let Some(next) = arguments.next() {
        match next {
            Err(error) => return Ok(Some(not_cut(error)?)),
            Ok(argument) => {
                if let Some(flag) = too_hard_flag(kind, &argument) {
                    return Ok(Some(flag));
                }
                facts.note(alloc, table, &argument)?;
                lists.take(alloc, argument, arguments.seen_double_dashes())?;
            }
        }
    }
    Ok(None)
}

/// What words come to by a table, cut as that compiler cuts.
pub(crate) fn parse<S: SearchableArgInfo<ArgData>>(
    alloc: Global,
    kind: CCompilerKind,
    table: &S,
    words: &[OsBytes],
) -> Result<CompilerArguments<ParsedArguments>, AllocError>
    ensures { IfOk result
        (λ answer. decision_of answer
        ≡ decision_by kind (all_entries (S.tables table.now)) words.now) }
{
    let mut facts = Facts::new();
    let mut lists = Lists::new(alloc);
    match gather(alloc, kind, table, words, &mut facts, &mut lists)? {
        Some(reason) => Ok(refused(reason)),
        None => close(alloc, kind, facts, lists),
    }
}
