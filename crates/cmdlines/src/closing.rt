//! What a request comes to once all its words are read: it compiles one input, in a known language, into an output.

ghost use Rattle.std.specs.Prelude.{◌≡◌, ◌∷◌, [], false, length, None, Some, IfErr, IfOk, OnOk, MatchOption, MatchResult};
ghost use Rattle.std.specs.Option.{option_copied};
ghost use Rattle.cmdlines.specs.Parsing.{decision_of, refused, closing, with_inputs, with_language, with_output, language_by_extension, language_for, known_language, object_extension, output_named_by, output_for, outputs_at, artifact_at, differ};

use crate::facts::Facts;
use crate::lists::{Input, Lists};
use base_files::{Listed, OsBytes, extension, file_name, with_extension};
use cmdlines_base::{ArtifactDescriptor, ColorMode, CompilerArguments};
use cmdlines_tables::language::Language;
use cmdlines_tables::{CCompilerKind, ParsedArguments, Spelling};
use std::alloc::{AllocError, Global};

/// Refused for this reason, with no more text.
pub(crate) fn refused(reason: &'static str) -> CompilerArguments<ParsedArguments>
    ensures { decision_of result ≡ refused reason.now }
{
    CompilerArguments::CannotCache(reason, None)
}

/// The language of an input by its extension.
fn language_by_extension(input: &[u8]) -> Option<Language>
    ensures { result ≡ language_by_extension input.now }
{
    Language::from_extension(extension(input)?)
}

/// The language of an input: by the last language option, and where it says `none`, or there is none, by its
/// extension.
fn language_for(option: Option<&OsBytes>, input: &[u8]) -> Option<Language>
    ensures { result ≡ language_for (option_copied option.entry) input.now }
{
    match option {
        Some(name) if name.as_bytes() != b"none".as_slice() => Language::from_name(name.as_bytes()),
        _ => language_by_extension(input),
    }
}

/// That language, where the compiler knows it.
fn known_language(kind: CCompilerKind, option: Option<&OsBytes>, input: &[u8]) -> Option<Language>
    ensures { result ≡ known_language kind (option_copied option.entry) input.now }
{
    let language = language_for(option, input)?;
    if kind.knows(language) {
        Some(language)
    } else {
        None
    }
}

/// The extension of objects.
fn object_extension(kind: CCompilerKind) -> &'static str
    ensures { result.now ≡ object_extension kind }
{
    match kind.spelling() {
        Spelling::Msvc => "obj",
        Spelling::Gnu | Spelling::Plain => "o",
    }
}

/// The output that an option names: to Msvc an empty name is none.
fn output_named_by(kind: CCompilerKind, path: OsBytes) -> Option<OsBytes>
    ensures { result ≡ output_named_by kind path }
{
    if kind.spelling() == Spelling::Msvc && path.as_bytes().is_empty() {
        None
    } else {
        Some(path)
    }
}

/// Where the object goes: as the last output option says, or else to the input's file name, its extension replaced
/// by that of objects.
fn output_for(
    alloc: Global,
    kind: CCompilerKind,
    output: Option<OsBytes>,
    input: &[u8],
) -> Result<Option<OsBytes>, AllocError>
    ensures { IfOk result (λ path. path ≡ output_for kind output input.now) }
{
    if let Some(path) = output {
        if let Some(named) = output_named_by(kind, path) {
            return Ok(Some(named));
        }
    }
    match file_name(input) {
        None => Ok(None),
        Some(name) => {
            let extension = object_extension(kind);
            Ok(Some(with_extension(alloc, name, extension.as_bytes())?))
        }
    }
}

/// An output that a compile may not leave out.
fn artifact_at(
    alloc: Global,
    name: &'static str,
    path: OsBytes,
) -> Result<(OsBytes, ArtifactDescriptor), AllocError>
    ensures { IfOk result (λ artifact. artifact ≡ artifact_at name.now path) }
{
    let optional = false;
    let name = OsBytes::from_slice(alloc, name.as_bytes())?;
    Ok((name, ArtifactDescriptor { path, optional }))
}

/// The outputs in the order of their names: messages for tools, where they are asked for, and the object.
fn outputs_at(
    alloc: Global,
    diagnostics: Option<OsBytes>,
    path: OsBytes,
) -> Result<Listed<(OsBytes, ArtifactDescriptor)>, AllocError>
    ensures { IfOk result (λ outputs. outputs ≡ outputs_at diagnostics path) }
{
    let mut outputs = Listed::new(alloc);
    if let Some(messages) = diagnostics {
        outputs.push(artifact_at(alloc, "dia", messages)?)?;
    }
    outputs.push(artifact_at(alloc, "obj", path)?)?;
    Ok(outputs)
}

/// Whether two of the values differ.
fn differ(values: &[OsBytes]) -> bool
    ensures { result ≡ differ values.now }
{
    let Some((first, others)) = values.split_first() else {
        return false;
    };
    let mut rest = others;
    while let Some((other, more)) = rest.split_first() {
        if other != first {
            return true;
        }
        rest = more;
    }
    false
}

/// The outputs of a compile of that input, where there are any: the object goes where `output_for` says.
fn outputs_for(
    alloc: Global,
    kind: CCompilerKind,
    output: Option<OsBytes>,
    diagnostics: Option<OsBytes>,
    input: &[u8],
) -> Result<Option<Listed<(OsBytes, ArtifactDescriptor)>>, AllocError>
    ensures { IfOk result (λ outputs. MatchOption outputs (output_for kind output input.now ≡ None)
        (λ outputs. (path : _) × (output_for kind output input.now ≡ Some path)
        × (outputs ≡ outputs_at diagnostics path))) }
{
    match output_for(alloc, kind, output, input)? {
        None => Ok(None),
        Some(path) => Ok(Some(outputs_at(alloc, diagnostics, path)?)),
    }
}

/// The one input among words, or why there is none.
fn only(inputs: &[Input]) -> Result<&Input, &'static str>
    ensures { MatchResult result (λ input. inputs.now ≡ input.now ∷ [])
        (λ reason. (kind : CCompilerKind) (f : Facts) (l : Lists)
        → with_inputs kind f l inputs.now ≡ refused reason.now) }
{
    match inputs.split_first() {
        None => Err("no input file"),
        Some((input, others)) => {
            if others.is_empty() {
                Ok(input)
            } else {
                Err("multiple input files")
            }
        }
    }
}

/// The one input.
fn the_input(inputs: Listed<Input>) -> Input
    requires { length inputs ≡ 1 }
    ensures { inputs ≡ result ∷ [] }
{
    match inputs.into_vec().pop() {
        Some(input) => input,
        None => unreachable!(),
    }
}

/// The language of the one input, of one architecture at most, or why the words are refused.
fn language_of(kind: CCompilerKind, facts: &Facts, lists: &Lists) -> Result<Language, &'static str>
    ensures one { OnOk result (length lists.now.inputs ≡ 1) }
    ensures language { IfOk result (λ language. (input : Input) → lists.now.inputs ≡ input ∷ []
        → known_language kind facts.now.language input.word ≡ Some language) }
    ensures architecture { OnOk result (differ lists.now.architectures ≡ false) }
    ensures reason { IfErr result
        (λ reason. with_inputs kind facts.now lists.now lists.now.inputs ≡ refused reason.now) }
{
    let input = only(lists.inputs.as_slice())?;
    let Some(language) = known_language(kind, facts.language.as_ref(), input.word.as_bytes()) else {
        return Err("unknown source language");
    };
    if differ(lists.architectures.as_slice()) {
        return Err("multiple different -arch");
    }
    Ok(language)
}

/// What words come to that have one input, in this language, and one architecture at most: it has an output.
fn with_language(
    alloc: Global,
    kind: CCompilerKind,
    language: Language,
    facts: Facts,
    lists: Lists,
) -> Result<CompilerArguments<ParsedArguments>, AllocError>
    requires one { length lists.inputs ≡ 1 }
    requires language { (input : Input) → lists.inputs ≡ input ∷ []
        → known_language kind facts.language input.word ≡ Some language }
    requires architecture { differ lists.architectures ≡ false }
    ensures { IfOk result
        (λ answer. decision_of answer ≡ with_inputs kind facts lists lists.inputs) }
{
    let input = the_input(lists.inputs);
    let word = input.word.as_bytes();
    let Some(outputs) = outputs_for(alloc, kind, facts.output, facts.diagnostics, word)? else {
        return Ok(refused("no output file"));
    };
    Ok(CompilerArguments::Ok(ParsedArguments {
        input: input.word,
        double_dash_input: input.after_dashes,
        language,
        outputs,
        preprocessor_args: lists.preprocessor,
        dependency_args: lists.dependency,
        unhashed_args: lists.unhashed,
        common_args: lists.common,
        arch_args: lists.arch,
        extra_hash_files: lists.extra_files,
        color_mode: facts.color.unwrap_or(ColorMode::Auto),
        too_hard_for_preprocessor_cache_mode: facts.blocker,
        empty_value: facts.empty_value,
        has_color_option: facts.color.is_some(),
        dependencies: facts.dependencies,
    }))
}

/// What all words come to: a request that doesn't compile isn't a compilation; it has one input, of a known language,
/// one architecture at most, and an output.
pub(crate) fn close(
    alloc: Global,
    kind: CCompilerKind,
    facts: Facts,
    lists: Lists,
) -> Result<CompilerArguments<ParsedArguments>, AllocError>
    ensures { IfOk result (λ answer. decision_of answer ≡ closing kind facts lists) }
{
    if !facts.compiles {
        return Ok(CompilerArguments::NotCompilation);
    }
    match language_of(kind, &facts, &lists) {
        Ok(language) => with_language(alloc, kind, language, facts, lists),
        Err(reason) => Ok(refused(reason)),
    }
}
