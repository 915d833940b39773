//! What one argument decides by itself, after what is known of those before it.

ghost use Rattle.std.specs.Prelude.{◌≡◌, Some, IfOk, IfErr, IsErrOf, OnOk};
ghost use Rattle.std.specs.Option.{option_map};
ghost use Rattle.base_files.specs.Views.{FilesFail};
ghost use Rattle.cmdlines_response_files.specs.Causes.{CauseOf};
ghost use Rattle.rustkeys_base.specs.Asking.{target_file, target_file_in, target_file_said};
ghost use Rattle.rustkeys_base.specs.Saying.{token_in};
ghost use Rattle.rustkeys_base.specs.Parsing.{AsksNothing, decision_of, decision_of_refusal, refused, second_input, other_types, codegen_decides, is_unsure, option_decides, decides};

use crate::facts::Facts;
use base_files::{FileFail, Files, OsBytes, join};
use cmdlines_base::{Argument, CompilerArguments};
use cmdlines_response_files::ParseFault;
use rustc_options::parsed::ParsedArguments;
use rustc_options::{ArgData, ArgOption, ArgTarget, joined_by_commas};
use std::alloc::{AllocError, Global};
use std::fmt::Write;

/// Why there is no request that can be cached.
#[derive(Drop)]
pub(crate) enum Refusal {
    /// The words don't ask for a compile.
    NotCompilation,
    /// What they ask for can't be cached, for this reason, with more text or none.
    CannotCache(&'static str, Option<String>),
}

impl Refusal {
    /// The same as an answer.
    pub(crate) fn into_answer(self) -> CompilerArguments<ParsedArguments>
        ensures decision { decision_of result ≡ decision_of_refusal self }
        ensures nothing { AsksNothing result }
    {
        match self {
            Refusal::NotCompilation => CompilerArguments::NotCompilation,
            Refusal::CannotCache(reason, more) => CompilerArguments::CannotCache(reason, more),
        }
    }
}

/// Refused for this reason, with no more text.
pub(crate) fn refused(reason: &'static str) -> Refusal
    ensures { decision_of_refusal result ≡ refused reason.now }
{
    Refusal::CannotCache(reason, None)
}

/// A second input: both are reported.
fn second_input(alloc: Global, previous: &OsBytes, next: &OsBytes) -> Result<Refusal, AllocError>
    ensures { IfOk result (λ why. decision_of_refusal why ≡ second_input previous.now next.now) }
{
    let both = format!(in alloc; "prev = {previous}, next = {next}")?;
    Ok(Refusal::CannotCache("multiple input files", Some(both)))
}

/// Crates of other types than those that can be cached.
fn other_types(alloc: Global, names: &[OsBytes]) -> Result<Option<Refusal>, AllocError>
    ensures { IfOk result (λ why. option_map decision_of_refusal why ≡ other_types names.now) }
{
    if names.is_empty() {
        return Ok(None);
    }
    let names = joined_by_commas(alloc, names)?;
    let text = format!(in alloc; "{names}")?;
    Ok(Some(Refusal::CannotCache("crate-type", Some(text))))
}

/// Options of code generation under which nothing is kept.
fn codegen(option: &ArgOption) -> Option<Refusal>
    ensures { option_map decision_of_refusal result ≡ codegen_decides option.now.opt option.now.value }
{
    let name = option.opt.as_bytes();
    if name == b"incremental".as_slice() {
        Some(refused("incremental"))
    } else if name == b"extra-filename".as_slice() && option.value.is_none() {
        Some(refused("extra-filename"))
    } else {
        None
    }
}

/// Whether a regular file of the directory has the target's name, with `.json` appended: rustc may take either.
fn is_unsure<F: Files>(
    alloc: Global,
    dir: &OsBytes,
    target: &ArgTarget,
    files: &mut F,
) -> Result<bool, ParseFault>
    ensures answer { IfOk result
        (λ unsure. unsure ≡ is_unsure dir.now (F.tree files.old) target.now) }
    ensures cause { IfErr result (CauseOf (FilesFail F.Files files.old files.new)) }
    ensures asked { IfErr result (CauseOf (λ name. target_file dir.now target.now ≡ Some name)) }
    ensures tree { F.tree files.new ≡ F.tree files.old }
    ensures steady { OnOk result (F.failed files.new ≡ F.failed files.old) }
    ensures memory { IsErrOf result ParseFault.Memory → F.failed files.new ≡ F.failed files.old }
{
    let word = match target {
        ArgTarget::Name(word) => word,
        ArgTarget::Path(_) => return Ok(false),
        ArgTarget::Unsure(_) => return Ok(true),
    };
    let mut name = Vec::from_slice(alloc, word.as_bytes())?;
    name.extend_from_slice(b".json")?;
    let path = join(alloc, dir.as_bytes(), name.as_slice())?;
    match files.is_file(alloc, &path) {
        Ok(is_there) => Ok(is_there),
        Err(FileFail::Memory) => Err(ParseFault::Memory),
        Err(FileFail::Device) => Err(ParseFault::Read(path)),
    }
}

/// What an option decides.
fn option_decides<F: Files>(
    alloc: Global,
    dir: &OsBytes,
    so_far: &Facts,
    flag: &'static str,
    value: &ArgData,
    files: &mut F,
) -> Result<Option<Refusal>, ParseFault>
    ensures answer { IfOk result
        (λ why. option_map decision_of_refusal why
        ≡ option_decides dir.now (F.tree files.old) so_far.now flag.now value.now) }
    ensures cause { IfErr result (CauseOf (FilesFail F.Files files.old files.new)) }
    ensures asked { IfErr result (CauseOf (λ name. target_file_said dir.now value.now ≡ Some name)) }
    ensures tree { F.tree files.new ≡ F.tree files.old }
    ensures steady { OnOk result (F.failed files.new ≡ F.failed files.old) }
    ensures memory { IsErrOf result ParseFault.Memory → F.failed files.new ≡ F.failed files.old }
{
    match value {
        ArgData::TooHardFlag | ArgData::TooHardPath(_) => Ok(Some(refused(flag))),
        ArgData::NotCompilationFlag | ArgData::NotCompilation(_) => {
            Ok(Some(Refusal::NotCompilation))
        }
        ArgData::Emit(_) if so_far.emit.is_some() => Ok(Some(refused("more than one --emit"))),
        ArgData::CrateType(types) => Ok(other_types(alloc, types.others.as_slice())?),
        ArgData::CodeGen(option) => Ok(codegen(option)),
        ArgData::Target(target) => {
            if is_unsure(alloc, dir, target, files)? {
                Ok(Some(refused("target unsure")))
            } else {
                Ok(None)
            }
        }
        _ => Ok(None),
    }
}

/// What an argument decides.
pub(crate) fn decides<F: Files>(
    alloc: Global,
    dir: &OsBytes,
    so_far: &Facts,
    argument: &Argument<ArgData>,
    files: &mut F,
) -> Result<Option<Refusal>, ParseFault>
    ensures answer { IfOk result
        (λ why. option_map decision_of_refusal why
        ≡ decides dir.now (F.tree files.old) so_far.now (token_in argument.now)) }
    ensures cause { IfErr result (CauseOf (FilesFail F.Files files.old files.new)) }
    ensures asked { IfErr result
        (CauseOf (λ name. target_file_in dir.now (token_in argument.now) ≡ Some name)) }
    ensures tree { F.tree files.new ≡ F.tree files.old }
    ensures steady { OnOk result (F.failed files.new ≡ F.failed files.old) }
    ensures memory { IsErrOf result ParseFault.Memory → F.failed files.new ≡ F.failed files.old }
{
    match argument {
        Argument::Raw(word) => match &so_far.input {
            None => Ok(None),
            Some(previous) => Ok(Some(second_input(alloc, previous, word)?)),
        },
        Argument::UnknownFlag(_) => Ok(None),
        Argument::Flag(flag, data) | Argument::WithValue(flag, data, _) => {
            option_decides(alloc, dir, so_far, flag, data, files)
        }
    }
}
