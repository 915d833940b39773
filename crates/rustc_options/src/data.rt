//! The values of rustc's arguments.

use crate::kind::ArgKind;
use crate::types::{
    ArgCodegen, ArgCrateTypes, ArgExtern, ArgLinkLibrary, ArgLinkPath, ArgTarget, ArgUnstable,
};
use base_files::OsBytes;
use cmdlines_base::{
    ArgParseResult, ArgToStringResult, ArgumentValue, FromArg, IntoArg, path_to_string,
    word_to_string,
};
use std::alloc::{AllocError, Global};

/// The value of an argument: what its option is for, and what its word says.
#[derive(Clone, Debug, Drop, PartialEq, Eq)]
pub enum ArgData {
    TooHardFlag,
    TooHardPath(OsBytes),
    NotCompilationFlag,
    NotCompilation(OsBytes),
    LinkLibrary(ArgLinkLibrary),
    LinkPath(ArgLinkPath),
    Emit(OsBytes),
    Extern(ArgExtern),
    Color(OsBytes),
    Json(OsBytes),
    CrateName(OsBytes),
    CrateType(ArgCrateTypes),
    OutDir(OsBytes),
    CodeGen(ArgCodegen),
    PassThrough(OsBytes),
    Target(ArgTarget),
    Unstable(ArgUnstable),
}

impl IntoArg for ArgData {
    ghost use Rattle.rustc_options.specs.Data.{word_of, path_in};

    ghost word = { word_of };

    ghost path = { path_in };

    fn into_arg_os_string(&self, alloc: Global) -> Result<OsBytes, AllocError> {
        match self {
            ArgData::TooHardFlag | ArgData::NotCompilationFlag => Ok(OsBytes::empty(alloc)),
            ArgData::TooHardPath(word)
            | ArgData::NotCompilation(word)
            | ArgData::Emit(word)
            | ArgData::Color(word)
            | ArgData::Json(word)
            | ArgData::CrateName(word)
            | ArgData::OutDir(word)
            | ArgData::PassThrough(word) => word.clone(),
            ArgData::LinkLibrary(library) => library.into_arg_os_string(alloc),
            ArgData::LinkPath(path) => path.into_arg_os_string(alloc),
            ArgData::Extern(named) => named.into_arg_os_string(alloc),
            ArgData::CrateType(types) => types.into_arg_os_string(alloc),
            ArgData::CodeGen(option) | ArgData::Unstable(option) => {
                option.into_arg_os_string(alloc)
            }
            ArgData::Target(target) => target.into_arg_os_string(alloc),
        }
    }

    fn into_arg_string<F: FnMut(&[u8]) -> Option<String>>(
        &self,
        alloc: Global,
        path_transformer: &mut F,
    ) -> ArgToStringResult {
        match self {
            ArgData::TooHardPath(path) | ArgData::OutDir(path) => {
                path_to_string(alloc, &[], path.as_bytes(), path_transformer)
            }
            ArgData::Target(target) => target.into_arg_string(alloc, path_transformer),
            ArgData::LinkPath(folder) => folder.into_arg_string(alloc, path_transformer),
            ArgData::Extern(named) => named.into_arg_string(alloc, path_transformer),
            other => {
                let word = other.into_arg_os_string(alloc)?;
                word_to_string(alloc, word.as_bytes())
            }
        }
    }
}

impl ArgumentValue for ArgData {
    ghost use Rattle.rustc_options.specs.Data.{IsFlagValue, IsWordValue, refusal, prints_its_word};
    ghost use Rattle.rustc_options.specs.Printed.{prints_what_it_read};

    type Kind = ArgKind;

    ghost flag_value = { IsFlagValue };

    ghost word_value = { IsWordValue };

    ghost refusal = { refusal };

    ghost gives_back = { prints_its_word };

    ghost prints_what_it_reads = { prints_what_it_read };

    fn of_flag(alloc: Global, kind: ArgKind) -> ArgData {
        match kind {
            ArgKind::TooHardFlag => ArgData::TooHardFlag,
            ArgKind::NotCompilationFlag => ArgData::NotCompilationFlag,
            _ => ArgData::PassThrough(OsBytes::empty(alloc)),
        }
    }

    fn of_word(alloc: Global, kind: ArgKind, word: &[u8]) -> ArgParseResult<ArgData> {
        let word = OsBytes::from_slice(alloc, word)?;
        Ok(match kind {
            ArgKind::TooHardFlag => ArgData::TooHardFlag,
            ArgKind::TooHardPath => ArgData::TooHardPath(word),
            ArgKind::NotCompilationFlag => ArgData::NotCompilationFlag,
            ArgKind::NotCompilation => ArgData::NotCompilation(word),
            ArgKind::LinkLibrary => ArgData::LinkLibrary(ArgLinkLibrary::process(word)?),
            ArgKind::LinkPath => ArgData::LinkPath(ArgLinkPath::process(word)?),
            ArgKind::Emit => ArgData::Emit(word),
            ArgKind::Extern => ArgData::Extern(ArgExtern::process(word)?),
            ArgKind::Color => ArgData::Color(word),
            ArgKind::Json => ArgData::Json(word),
            ArgKind::CrateName => ArgData::CrateName(word),
            ArgKind::CrateType => ArgData::CrateType(ArgCrateTypes::process(word)?),
            ArgKind::OutDir => ArgData::OutDir(word),
            ArgKind::CodeGen => ArgData::CodeGen(ArgCodegen::process(word)?),
            ArgKind::PassThrough => ArgData::PassThrough(word),
            ArgKind::Target => ArgData::Target(ArgTarget::process(word)?),
            ArgKind::Unstable => ArgData::Unstable(ArgUnstable::process(word)?),
        })
    }
}
