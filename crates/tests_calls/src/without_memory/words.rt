//! Calls on words of commands: options are looked up in a table and in a tree, and what is read of words is asked.

use super::say_ready;
use crate::Fault;
use base_files::{Listed, OsBytes};
use cmdlines::uncached_words;
use cmdlines_base::{
    ArgDisposition, ArgInfo, Argument, ByteTree, ColorMode, NormalizedDisposition,
    SearchableArgInfo,
};
use cmdlines_tables::language::Language;
use cmdlines_tables::{
    ArgData, CCompilerKind, DependencyOptions, ParsedArguments, compiler_tree, gnu_table,
};
use std::alloc::{AllocError, Global};
use tests_kit::words;

/// `search` and `check` of a table.
pub(crate) fn table<R: Eprint + AllocGlobal>(rt: &R) -> Result<bool, Fault> {
    let table = gnu_table(rt.alloc())?;
    say_ready(rt);
    Ok(finds_options(&table))
}

/// `search`, `search_counted` and `check` of a tree.
pub(crate) fn tree<R: Eprint + AllocGlobal>(rt: &R) -> Result<bool, Fault> {
    let tree = compiler_tree(rt.alloc(), CCompilerKind::Gcc)?;
    say_ready(rt);
    Ok(finds_options(&tree) && counts_steps(&tree))
}

/// Of Gcc's options `-I` is the longest that begins `-Iinc`, and none begins `foo.c`.
fn finds_options<S: SearchableArgInfo<ArgData>>(options: &S) -> bool {
    is_include_flag(options.search(b"-Iinc"))
        && options.search(b"foo.c").is_none()
        && options.check()
}

/// The longest beginning of `-Iinc` that begins an option has two bytes, so there are three steps.
fn counts_steps(options: &ByteTree<ArgData>) -> bool {
    let (found, steps) = options.search_counted(b"-Iinc");
    is_include_flag(found) && steps == 3
}

fn is_include_flag(found: Option<&ArgInfo<ArgData>>) -> bool {
    match found {
        Some(option) => matches!(option.flag(), "-I"),
        None => false,
    }
}

/// `normalize`, `flag_str` and `get_data` of an argument whose value may be joined or separate.
pub(crate) fn argument<R: Eprint + AllocGlobal>(rt: &R) -> Result<bool, Fault> {
    let value = OsBytes::from_slice(rt.alloc(), b"inc")?;
    say_ready(rt);
    let argument = Argument::WithValue("-I", value, ArgDisposition::CanBeSeparated(None));
    let normal = argument.normalize(NormalizedDisposition::Separated);
    Ok(stands_apart(&normal))
}

/// It has its flag and its value, and its value is separate.
fn stands_apart(argument: &Argument<OsBytes>) -> bool {
    let has_value = match argument.get_data() {
        Some(value) => matches!(value.as_bytes(), b"inc"),
        None => false,
    };
    has_value
        && matches!(argument.flag_str(), Some("-I"))
        && matches!(
            argument,
            Argument::WithValue(_, _, ArgDisposition::Separated)
        )
}

/// `empty_value` of a request in which one was read.
pub(crate) fn empty_value<R: Eprint + AllocGlobal>(rt: &R) -> Result<bool, Fault> {
    let request = request(rt.alloc())?;
    say_ready(rt);
    Ok(uncached_words::empty_value(&request))
}

/// What `-I '' -c foo.c` comes to.
fn request(alloc: Global) -> Result<ParsedArguments, AllocError> {
    Ok(ParsedArguments {
        input: OsBytes::from_slice(alloc, b"foo.c")?,
        double_dash_input: false,
        language: Language::C,
        outputs: Listed::new(alloc),
        preprocessor_args: Listed::from_vec(words(alloc, "-I ")?),
        dependency_args: Listed::new(alloc),
        unhashed_args: Listed::new(alloc),
        common_args: Listed::new(alloc),
        arch_args: Listed::new(alloc),
        extra_hash_files: Listed::new(alloc),
        color_mode: ColorMode::Auto,
        too_hard_for_preprocessor_cache_mode: None,
        empty_value: true,
        has_color_option: false,
        dependencies: DependencyOptions {
            asked: false,
            path: false,
            target: false,
        },
    })
}

/// `opens_file` of a command with a response file.
pub(crate) fn file_of_words<R: Eprint + AllocGlobal>(rt: &R) -> Result<bool, Fault> {
    let command = words(rt.alloc(), "-c @a.rsp")?;
    say_ready(rt);
    Ok(uncached_words::opens_file(command.as_slice(), CCompilerKind::Gcc))
}
