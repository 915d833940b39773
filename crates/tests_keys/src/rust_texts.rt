//! The texts of arguments, where a closure says what each path becomes.

use base_files::{MemoryFiles, OsBytes};
use cmdlines_base::{ArgToStringResult, Argument, CompilerArguments};
use rustkeys::{ArgData, ParsedArguments, parse_arguments};
use std::alloc::{AllocError, Global};
use std::test::Fail;
use tests_kit::{is_that, words};

/// What a path becomes: `gone` nothing, `void` an empty text, and each other one `/there`.
fn moved(alloc: Global, path: &[u8]) -> Option<String> {
    let text = match path {
        b"gone" => return None,
        b"void" => "",
        _ => "/there",
    };
    String::from_str(alloc, text).ok()
}

/// Adds a text before a `|`, or why there is none.
fn write_part(text: &mut String, part: &ArgToStringResult) -> Result<(), AllocError> {
    match part {
        Ok(part) => write!(text, "{part}|"),
        Err(fault) => write!(text, "{fault}|"),
    }
}

/// Adds the texts of an argument, and the fault that ends them.
fn write_texts(
    alloc: Global,
    text: &mut String,
    argument: &Argument<ArgData>,
) -> Result<(), AllocError> {
    for part in argument.iter_strings(alloc, |path: &[u8]| moved(alloc, path)) {
        write_part(text, &part)?;
    }
    Ok(())
}

/// The texts of the arguments of a request.
fn texts_of(alloc: Global, request: &ParsedArguments) -> Result<String, AllocError> {
    let mut text = String::new(alloc);
    for argument in request.arguments.as_slice() {
        write_texts(alloc, &mut text, argument)?;
    }
    Ok(text)
}

/// Words that ask for a library, with values of each kind. A path after a name or a kind is moved, and what comes before it stays; the name
/// of a target is no path.
const WORDS: &str =
    "--emit link foo.rs --out-dir out --crate-name foo --crate-type lib,staticlib --target t.json --target gone -l p -L q -L native=o -L void --extern a=b=c --json j -C profile-use=r --cfg a=b -Z a=b --test -L gone -l";

/// The texts of their arguments.
const TEXTS: &str =
    "--emit|link|foo.rs|--out-dir|/there|--crate-name|foo|--crate-type|rlib,staticlib|--target|/there|--target|gone|-l|dylib=p|-L|all=/there|-L|native=/there|-L|all=|--extern|a=/there|--json|j|-C|profile-use=r|--cfg|a=b|-Z|a=b|--test|-L|a path cannot be transformed: \"gone\"|-ldylib=|";

/// The texts of the arguments of a request of that line, in a folder with no files.
fn texts_of_line(alloc: Global, line: &str) -> Result<String, Fail> {
    let dir = OsBytes::from_slice(alloc, b"/w")?;
    let list = words(alloc, line)?;
    let mut files = MemoryFiles::new(alloc);
    let parsed = parse_arguments(alloc, list.as_slice(), &dir, &mut files)?;
    let text = match &parsed {
        CompilerArguments::Ok(request) => texts_of(alloc, request),
        CompilerArguments::NotCompilation | CompilerArguments::CannotCache(_, _) => {
            String::from_str(alloc, "no request")
        }
    };
    drop(parsed);
    Ok(text?)
}

#[test]
fn paths_are_what_the_closure_answers(rt: HostRuntime) -> Result<(), Fail> {
    is_that(texts_of_line(rt.alloc(), WORDS)?.as_str(), TEXTS, WORDS)
}
