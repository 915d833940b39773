//! What words that are kept ask for, as text.

use crate::texts::{write_list, write_words};
use base_files::{Listed, OsBytes};
use cmdlines::AnyFoundCompiler;
use cmdlines_base::{Argument, ColorMode, CompilerArguments};
use cmdlines_tables::ParsedArguments;
use rustc_options::{ArgData, parsed as rust};
use sccache_recorded_builds::{Compilers, Decided};
use std::alloc::{AllocError, Global};
use std::fmt::Write;

/// How much is said of a request.
#[derive(Clone, Copy, Debug, PartialEq, Eq)]
pub(crate) enum Detail {
    /// Its input, its outputs, and what keeps direct mode from being used.
    Short,
    /// All of it.
    Lists,
}

/// Adds each output.
fn write_outputs(text: &mut String, parsed: &ParsedArguments) -> Result<(), AllocError> {
    for (name, output) in parsed.outputs.as_slice() {
        let path = &output.path;
        write!(text, "; {name} {path}")?;
        if output.optional {
            text.push_str(" or none")?;
        }
    }
    Ok(())
}

/// Adds the lists of a request.
fn write_lists(text: &mut String, parsed: &ParsedArguments) -> Result<(), AllocError> {
    write_list(text, "preprocessor", parsed.preprocessor_args.as_slice())?;
    write_list(text, "dependency", parsed.dependency_args.as_slice())?;
    write_list(text, "unhashed", parsed.unhashed_args.as_slice())?;
    write_list(text, "hashed", parsed.common_args.as_slice())?;
    write_list(text, "arch", parsed.arch_args.as_slice())?;
    write_list(text, "extra", parsed.extra_hash_files.as_slice())?;
    if parsed.has_color_option {
        write!(text, "; color {:?}", parsed.color_mode)?;
    }
    Ok(())
}

/// Adds a request to a C compiler.
fn write_request(
    text: &mut String,
    parsed: &ParsedArguments,
    detail: Detail,
) -> Result<(), AllocError> {
    let after = if parsed.double_dash_input { " --" } else { "" };
    let input = &parsed.input;
    write!(text, "input{after} {input}")?;
    if detail == Detail::Lists {
        let language = parsed.language.as_str();
        write!(text, "; language {language}")?;
    }
    write_outputs(text, parsed)?;
    if detail == Detail::Lists {
        write_lists(text, parsed)?;
    }
    if let Some(flag) = &parsed.too_hard_for_preprocessor_cache_mode {
        write!(text, "; blocker {flag}")?;
    }
    if detail == Detail::Lists && parsed.empty_value {
        text.push_str("; empty value")?;
    }
    Ok(())
}

/// Adds a word with its name, where there is one.
fn write_word(text: &mut String, name: &str, word: &Option<OsBytes>) -> Result<(), AllocError> {
    match word {
        Some(word) => write!(text, "; {name} {word}"),
        None => Ok(()),
    }
}

/// Adds the types of crate that are made.
fn write_types(text: &mut String, types: rust::CrateTypes) -> Result<(), AllocError> {
    text.push_str("; types")?;
    if types.rlib {
        text.push_str(" rlib")?;
    }
    if types.staticlib {
        text.push_str(" staticlib")?;
    }
    Ok(())
}

/// Adds what is said of a request to rustc beside its name, folder, types and what it emits.
fn write_rust_lists(text: &mut String, parsed: &rust::ParsedArguments) -> Result<(), AllocError> {
    write_list(text, "externs", parsed.externs.as_slice())?;
    write_list(text, "crates", parsed.crate_link_paths.as_slice())?;
    write_list(text, "libraries", parsed.staticlibs.as_slice())?;
    write_word(text, "dep-info", &parsed.dep_info)?;
    write_word(text, "profile", &parsed.profile)?;
    write_word(text, "gcno", &parsed.gcno)?;
    write_word(text, "target", &parsed.target_json)?;
    if parsed.color_mode != ColorMode::Auto {
        write!(text, "; color {:?}", parsed.color_mode)?;
    }
    if parsed.has_json {
        text.push_str("; json")?;
    }
    Ok(())
}

/// Adds a request to rustc.
fn write_rust_request(
    text: &mut String,
    parsed: &rust::ParsedArguments,
    detail: Detail,
) -> Result<(), AllocError> {
    let (name, folder) = (&parsed.crate_name, &parsed.output_dir);
    write!(text, "{name} in {folder}")?;
    write_types(text, parsed.crate_types)?;
    write_list(text, "emit", parsed.emit.as_slice())?;
    if detail == Detail::Lists {
        write_rust_lists(text, parsed)?;
    }
    Ok(())
}

/// Adds what the words ask for, where that is kept.
pub(crate) fn write_kept(
    text: &mut String,
    decided: &Decided,
    detail: Detail,
) -> Result<(), AllocError> {
    match decided {
        Decided::C(_, CompilerArguments::Ok(parsed)) => write_request(text, parsed, detail),
        Decided::Rustc(CompilerArguments::Ok(parsed)) => write_rust_request(text, parsed, detail),
        _ => Ok(()),
    }
}

/// The words of the compile command of a request.
fn compile_words(
    alloc: Global,
    compiler: &AnyFoundCompiler,
    parsed: &ParsedArguments,
) -> Result<Listed<OsBytes>, AllocError> {
    let none = OsBytes::empty(alloc);
    match compiler.generate_compile_commands(alloc, &none, parsed, &none, &[]) {
        Ok((command, _)) => Ok(command.arguments),
        Err(_) => Err(AllocError),
    }
}

/// Adds the words of an argument in brackets, with a space between two.
fn write_argument(
    alloc: Global,
    text: &mut String,
    argument: &Argument<ArgData>,
) -> Result<(), AllocError> {
    text.push('[')?;
    let mut is_first = true;
    for word in argument.iter_os_strings(alloc) {
        if !is_first {
            text.push(' ')?;
        }
        is_first = false;
        let word = word?;
        write!(text, "{word}")?;
    }
    text.push(']')
}

/// Adds the words of each argument in brackets.
fn write_arguments(
    alloc: Global,
    text: &mut String,
    arguments: &[Argument<ArgData>],
) -> Result<(), AllocError> {
    for argument in arguments {
        write_argument(alloc, text, argument)?;
    }
    Ok(())
}

/// Adds the words of the compile command, each after a space: of rustc the arguments that are kept, each in brackets.
pub(crate) fn write_compile(
    alloc: Global,
    text: &mut String,
    compilers: &Compilers,
    decided: &Decided,
) -> Result<(), AllocError> {
    match decided {
        Decided::C(kind, CompilerArguments::Ok(parsed)) => {
            let words = compile_words(alloc, compilers.of(*kind), parsed)?;
            write_words(text, words.as_slice())?;
        }
        Decided::Rustc(CompilerArguments::Ok(parsed)) => {
            write_arguments(alloc, text, parsed.arguments.as_slice())?;
        }
        _ => {}
    }
    Ok(())
}

/// Adds the words of the preprocess command, each after a space; rustc has none.
pub(crate) fn write_preprocess(
    alloc: Global,
    text: &mut String,
    compilers: &Compilers,
    decided: &Decided,
) -> Result<(), AllocError> {
    if let Decided::C(kind, CompilerArguments::Ok(parsed)) = decided {
        let words = compilers.of(*kind).preprocess_words(alloc, parsed)?;
        write_words(text, words.as_slice())?;
    }
    Ok(())
}
