//! What a command of the scripted tool compiles.

ghost use Rattle.std.specs.Prelude.{Bool, ◌≡◌, ◌++◌, IfOk, OnOk};
ghost use Rattle.std.specs.Option.{option_copied};
ghost use Rattle.cmdlines_base.specs.Table.{all_entries};
ghost use Rattle.cmdlines_base.specs.Reading.{reading};
ghost use Rattle.cmdlines_tables.specs.Tables.{ends_options, reading_of};
ghost use Rattle.cmdlines_tables.specs.Values.{placed};
ghost use Rattle.sccache_script_tool.specs.Scripted.{only, input_in, is_preprocessed, language_in, source_in, takes_as_it_stands};

use base_files::OsBytes;
use ckeys::needs_c_preprocessing;
use ckeys_records::Step;
use cmdlines::EachKind;
use cmdlines_base::{ArgParseError, Argument, SearchableArgInfo};
use cmdlines_tables::kind::ArgKind;
use cmdlines_tables::language::Language;
use cmdlines_tables::{ArgData, CCompilerKind, arguments_are_their_items, arguments_of};
use std::alloc::{AllocError, Global};

/// What a command compiles: its input, and the name of its language.
#[derive(Drop)]
pub struct Source {
    pub input: Option<OsBytes>,
    pub language: Option<OsBytes>,
}

/// The one of the words, where there is one.
fn only(words: Vec<OsBytes>) -> Option<OsBytes>
    ensures { result ≡ only words.items }
{
    let mut words = words;
    let last = words.pop()?;
    if words.is_empty() { Some(last) } else { None }
}

/// Adds the language that an argument names.
fn push_language(
    alloc: Global,
    argument: &Argument<ArgData>,
    languages: &mut Vec<OsBytes>,
) -> Result<(), AllocError>
    ensures { OnOk result
        ((after : Bool)
        → languages.new.items ≡ languages.old.items ++ language_in (placed after argument.now)) }
{
    if let Argument::WithValue(_, data, _) = argument {
        if data.kind() == ArgKind::Language {
            languages.push(OsBytes::from_slice(alloc, data.word())?)?;
        }
    }
    Ok(())
}

/// Adds the input that an argument names.
fn push_input(argument: Argument<ArgData>, inputs: &mut Vec<OsBytes>) -> Result<(), AllocError>
    ensures { OnOk result
        ((after : Bool) → inputs.new.items ≡ inputs.old.items ++ input_in (placed after argument)) }
{
    if let Argument::Raw(word) = argument {
        inputs.push(word)?;
    }
    Ok(())
}

/// What the words of a command to that compiler name, by a table.
fn source_by<S: SearchableArgInfo<ArgData>>(
    alloc: Global,
    kind: CCompilerKind,
    words: &[OsBytes],
    table: &S,
) -> Result<Source, AllocError>
    ensures { IfOk result
        (λ source. source
        ≡ source_in (reading (ends_options kind) (all_entries (S.tables table.now)) words.now)) }
{
    // A law, which costs nothing: what follows from it is said above.
    arguments_are_their_items();
    let mut inputs = Vec::new(alloc);
    let mut languages = Vec::new(alloc);
    let mut arguments = arguments_of(alloc, kind, table, words);
    while let Some(next) = arguments.next() {
        match next {
            Ok(argument) => {
                push_language(alloc, &argument, &mut languages)?;
                push_input(argument, &mut inputs)?;
            }
            Err(ArgParseError::Memory) => return Err(AllocError),
            Err(_) => {
                return Ok(Source {
                    input: None,
                    language: None,
                });
            }
        }
    }
    Ok(Source {
        input: only(inputs),
        language: only(languages),
    })
}

/// What the words of a command to that compiler name.
pub fn source_of(
    alloc: Global,
    compilers: &EachKind,
    kind: CCompilerKind,
    words: &[OsBytes],
) -> Result<Source, AllocError>
    ensures { IfOk result (λ source. source ≡ source_in (reading_of kind words.now)) }
{
    source_by(alloc, kind, words, compilers.of(kind).tree())
}

/// Whether inputs of the language of this name aren't preprocessed.
fn is_preprocessed(name: &[u8]) -> bool
    ensures { result ≡ is_preprocessed name.now }
{
    match Language::from_name(name) {
        Some(language) => !needs_c_preprocessing(language),
        None => false,
    }
}

/// Whether the step takes an input of that language as it is.
pub fn takes_as_it_stands(step: Step, language: Option<&OsBytes>) -> bool
    ensures { result ≡ takes_as_it_stands step (option_copied language.entry) }
{
    match (step, language) {
        (Step::Compile, Some(name)) => is_preprocessed(name.as_bytes()),
        _ => false,
    }
}
