//! The words of a request: those that count in keys, and those of the commands that are run for it.

ghost use Rattle.std.specs.Prelude.{◌≡◌, ◌∷◌, ◌++◌, [], IfOk, OnOk, codes, filter, is_some, map};
ghost use Rattle.std.specs.List.{flat_map};
ghost use Rattle.cmdlines_base.specs.Pieces.{argument_words};
ghost use Rattle.rustc_options.specs.Data.{word_of};
ghost use Rattle.rustc_options.specs.Asks.{asks_in, said_in};
ghost use Rattle.rustc_options.specs.Sorted.{sorted_by};
ghost use Rattle.rustc_texts.specs.Words.{all_words, cfgs_of, color_words, compile_words, counts_beside, dep_info_words, file_names_words, is_cfg, is_flag, is_left_out, is_on_outputs, kept_words, rest_of, words_cmp, words_in};

use base_files::{Listed, OsBytes};
use cmdlines_base::Argument;
use rustc_options::ArgData;
use rustc_options::parsed::ParsedArguments;
use std::alloc::{AllocError, Global};

/// Whether it's the option of that flag.
fn is_flag(argument: &Argument<ArgData>, flag: &str) -> bool
    ensures { result ≡ is_flag flag.now (said_in argument.now) }
{
    match argument.flag_str() {
        None => false,
        Some(own) => flag.as_bytes() == own.as_bytes(),
    }
}

fn is_cfg(argument: &Argument<ArgData>) -> bool
    ensures { result ≡ is_cfg (said_in argument.now) }
{
    is_flag(argument, "--cfg")
}

/// Whether it's an option whose words don't count in keys.
fn is_left_out(argument: &Argument<ArgData>) -> bool
    ensures { result ≡ is_left_out (said_in argument.now) }
{
    is_flag(argument, "--extern")
        || is_flag(argument, "-L")
        || is_flag(argument, "--check-cfg")
        || is_flag(argument, "--out-dir")
        || is_flag(argument, "--diagnostic-width")
}

/// Whether its words count in keys, beside a target that is a file or none.
fn counts_beside(has_target_file: bool, argument: &Argument<ArgData>) -> bool
    ensures { result ≡ counts_beside has_target_file (said_in argument.now) }
{
    !is_left_out(argument) && !(has_target_file && is_flag(argument, "--target"))
}

/// Whether it's on what is written and where.
fn is_on_outputs(argument: &Argument<ArgData>) -> bool
    ensures { result ≡ is_on_outputs (said_in argument.now) }
{
    is_flag(argument, "--emit") || is_flag(argument, "--out-dir")
}

/// Adds a copy of a word.
fn push_word(alloc: Global, words: &mut Listed<OsBytes>, word: &str) -> Result<(), AllocError>
    ensures { OnOk result (words.new ≡ words.old ++ word.now ∷ []) }
{
    words.push(OsBytes::from_slice(alloc, word.as_bytes())?)
}

/// Adds the words of an argument.
fn push_words(
    alloc: Global,
    words: &mut Listed<OsBytes>,
    argument: &Argument<ArgData>,
) -> Result<(), AllocError>
    ensures { OnOk result (words.new ≡ words.old ++ words_in (said_in argument.now)) }
{
    for word in argument.iter_os_strings(alloc) {
        words.push(word?)?;
    }
    Ok(())
}

/// The words of all arguments.
fn all_words(alloc: Global, arguments: &[Argument<ArgData>]) -> Result<Listed<OsBytes>, AllocError>
    ensures { IfOk result (λ words. words ≡ all_words (map said_in arguments.now)) }
{
    let mut words = Listed::new(alloc);
    for argument in arguments {
        push_words(alloc, &mut words, argument)?;
    }
    Ok(words)
}

/// The words that count, but for those of the options `--cfg`.
fn other_words(
    alloc: Global,
    arguments: &[Argument<ArgData>],
    has_target_file: bool,
) -> Result<Listed<OsBytes>, AllocError>
    ensures { IfOk result
        (λ words. words
        ≡ all_words
        (filter (counts_beside has_target_file) (rest_of (map said_in arguments.now)))) }
{
    let mut words = Listed::new(alloc);
    for argument in arguments {
        if !is_cfg(argument) && counts_beside(has_target_file, argument) {
            push_words(alloc, &mut words, argument)?;
        }
    }
    Ok(words)
}

/// The words of each option `--cfg`.
fn cfgs(alloc: Global, arguments: &[Argument<ArgData>]) -> Result<Vec<Listed<OsBytes>>, AllocError>
    ensures { IfOk result
        (λ list. list.items ≡ map words_in (cfgs_of (map said_in arguments.now))) }
{
    let mut list = Vec::new(alloc);
    for argument in arguments {
        if is_cfg(argument) {
            let mut words = Listed::new(alloc);
            push_words(alloc, &mut words, argument)?;
            list.push(words)?;
        }
    }
    Ok(list)
}

/// The lists in the order of their words' bytes.
fn sorted(lists: Vec<Listed<OsBytes>>) -> Vec<Listed<OsBytes>>
    ensures { result.items ≡ sorted_by words_cmp lists.items }
{
    let mut lists = lists;
    lists.sort_unstable();
    lists
}

/// Adds the words of the lists.
fn push_lists(words: &mut Listed<OsBytes>, lists: Vec<Listed<OsBytes>>) -> Result<(), AllocError>
    ensures { OnOk result (words.new ≡ words.old ++ flat_map (λ list. list) lists.items) }
{
    for list in lists {
        push_list(words, list)?;
    }
    Ok(())
}

/// Adds the words of a list.
fn push_list(words: &mut Listed<OsBytes>, list: Listed<OsBytes>) -> Result<(), AllocError>
    ensures { OnOk result (words.new ≡ words.old ++ list) }
{
    for word in list.into_vec() {
        words.push(word)?;
    }
    Ok(())
}

/// The words of a request that count in its key: all but those of `--extern`, `-L`, `--check-cfg`, `--out-dir` and
/// `--diagnostic-width`, and of `--target` where a target is a file. Those of the options `--cfg` come at the end, in the order of
/// their bytes.
pub fn kept_words(alloc: Global, parsed: &ParsedArguments) -> Result<Listed<OsBytes>, AllocError>
    ensures { IfOk result (λ words. words ≡ kept_words (asks_in parsed.now)) }
{
    let arguments = parsed.arguments.as_slice();
    let mut words = other_words(alloc, arguments, parsed.target_json.is_some())?;
    push_lists(&mut words, sorted(cfgs(alloc, arguments)?))?;
    Ok(words)
}

/// The words with which a request is compiled: all, and those that make messages coloured, unless they are JSON.
pub fn compile_words(alloc: Global, parsed: &ParsedArguments) -> Result<Listed<OsBytes>, AllocError>
    ensures { IfOk result (λ words. words ≡ compile_words (asks_in parsed.now)) }
{
    let mut words = all_words(alloc, parsed.arguments.as_slice())?;
    if !parsed.has_json {
        push_word(alloc, &mut words, "--color")?;
        push_word(alloc, &mut words, "always")?;
    }
    Ok(words)
}

/// The words that ask for the text on dependencies: all but those on what is written and where, and what is to be reported.
pub fn dep_info_words(
    alloc: Global,
    parsed: &ParsedArguments,
) -> Result<Listed<OsBytes>, AllocError>
    ensures { IfOk result (λ words. words ≡ dep_info_words (asks_in parsed.now)) }
{
    let mut words = Listed::new(alloc);
    for argument in parsed.arguments.as_slice() {
        if !is_on_outputs(argument) {
            push_words(alloc, &mut words, argument)?;
        }
    }
    push_word(alloc, &mut words, "--emit")?;
    push_word(alloc, &mut words, "dep-info")?;
    Ok(words)
}

/// The words that ask for the names of what is written: all, and what is to be reported.
pub fn file_names_words(
    alloc: Global,
    parsed: &ParsedArguments,
) -> Result<Listed<OsBytes>, AllocError>
    ensures { IfOk result (λ words. words ≡ file_names_words (asks_in parsed.now)) }
{
    let mut words = all_words(alloc, parsed.arguments.as_slice())?;
    push_word(alloc, &mut words, "--print")?;
    push_word(alloc, &mut words, "file-names")?;
    Ok(words)
}
