//! The commands that are run for a request: their words, and how the compiler's tables read these again.

ghost use Rattle.std.specs.Prelude.{◌≡◌, ◌↔◌, ◌∷◌, ◌++◌, [], None, IfOk, OnOk, IsErrOf};
ghost use Rattle.std.specs.Option.{option_copied};
ghost use Rattle.cmdlines_tables.specs.Languages.{language_option};
ghost use Rattle.cmdlines_tables.specs.OwnWords.{named_words, language_words, output_words};
ghost use Rattle.cmdlines.specs.Commands.{object_path, front_words, after_words, color_words, added_words, compile_words, preprocess_words, output_path};
ghost use Rattle.cmdlines_tables.specs.Small.{command_at};
ghost use Rattle.cmdlines.specs.ReadBack.{ReadsAsCompile, ReadsAsPreprocess};

use base_files::{Listed, OsBytes, with_extension};
use cmdlines_base::{
    SingleCompileCommand, items_read_again, items_read_together, words_have_one_reading,
};
use cmdlines_tables::language::{Language, language_to_gcc_arg};
use cmdlines_tables::{
    ArgData, CCompilerKind, Cacheable, ParsedArguments, Spelling, command_at, own_words_are_read,
};
use std::alloc::{AllocError, Global};
use thiserror::Error;

/// Why there is no command.
#[derive(Clone, Copy, Debug, Error, PartialEq, Eq)]
pub enum CommandError {
    /// There is no output `obj`.
    #[error("no object is among the outputs")]
    NoObjOutput,
    /// Out of memory.
    #[error("no memory was left")]
    Memory,
}

impl From<AllocError> for CommandError {
    ghost use Rattle.std.specs.Prelude.{◌≡◌};
    ghost use Rattle.cmdlines.specs.declared.command.CommandError.TheVariants.{Memory};

    ghost from_gives = { λ _ e. e ≡ Memory };

    fn from(_error: AllocError) -> CommandError {
        CommandError::Memory
    }
}

/// Adds a copy of a word.
fn push_word(alloc: Global, words: &mut Listed<OsBytes>, word: &[u8]) -> Result<(), AllocError>
    ensures { OnOk result (words.new ≡ words.old ++ word.now ∷ []) }
{
    words.push(OsBytes::from_slice(alloc, word)?)
}

/// Adds copies of words.
fn push_all(words: &mut Listed<OsBytes>, more: &Listed<OsBytes>) -> Result<(), AllocError>
    ensures { OnOk result (words.new ≡ words.old ++ more.now) }
{
    for word in more.as_slice() {
        words.push(word.clone()?)?;
    }
    Ok(())
}

/// Adds the words by which Gcc and those like it name the language, where they can.
fn push_language_name(
    alloc: Global,
    words: &mut Listed<OsBytes>,
    language: Language,
) -> Result<(), AllocError>
    ensures { OnOk result (words.new ≡ words.old ++ named_words (language_option language)) }
{
    if let Some(name) = language_to_gcc_arg(language) {
        push_word(alloc, words, b"-x")?;
        push_word(alloc, words, name.as_bytes())?;
    }
    Ok(())
}

/// Adds the words that name the language, where an option can.
fn push_language(
    alloc: Global,
    words: &mut Listed<OsBytes>,
    kind: CCompilerKind,
    language: Language,
) -> Result<(), AllocError>
    ensures { OnOk result (words.new ≡ words.old ++ language_words kind language) }
{
    match (kind.spelling(), language) {
        (Spelling::Gnu, _) => push_language_name(alloc, words, language),
        (Spelling::Msvc, Language::C) => push_word(alloc, words, b"-TC"),
        (Spelling::Msvc, Language::Cxx) => push_word(alloc, words, b"-TP"),
        (Spelling::Plain | Spelling::Msvc, _) => Ok(()),
    }
}

/// Adds the words that say where the object goes.
fn push_output(
    alloc: Global,
    words: &mut Listed<OsBytes>,
    kind: CCompilerKind,
    path: &[u8],
) -> Result<(), AllocError>
    ensures { OnOk result (words.new ≡ words.old ++ output_words kind path.now) }
{
    if kind.spelling() == Spelling::Msvc {
        let mut word = Vec::from_slice(alloc, b"-Fo")?;
        word.extend_from_slice(path)?;
        words.push(OsBytes::from_vec(word))
    } else {
        push_word(alloc, words, b"-o")?;
        push_word(alloc, words, path)
    }
}

/// Adds the input, where it is among the options.
fn push_front(words: &mut Listed<OsBytes>, parsed: &ParsedArguments) -> Result<(), AllocError>
    ensures { OnOk result
        (words.new ≡ words.old ++ front_words parsed.now.double_dash_input parsed.now.input) }
{
    if !parsed.double_dash_input {
        words.push(parsed.input.clone()?)?;
    }
    Ok(())
}

/// Adds the input after double dashes, where it was after them.
fn push_after(
    alloc: Global,
    words: &mut Listed<OsBytes>,
    parsed: &ParsedArguments,
) -> Result<(), AllocError>
    ensures { OnOk result
        (words.new ≡ words.old ++ after_words parsed.now.double_dash_input parsed.now.input) }
{
    if parsed.double_dash_input {
        push_word(alloc, words, b"--")?;
        words.push(parsed.input.clone()?)?;
    }
    Ok(())
}

/// Adds the word that makes messages coloured, where no option says whether they are.
fn push_color(
    alloc: Global,
    words: &mut Listed<OsBytes>,
    kind: CCompilerKind,
    parsed: &ParsedArguments,
) -> Result<(), AllocError>
    ensures { OnOk result (words.new ≡ words.old ++ color_words kind parsed.now.has_color_option) }
{
    match kind.color_word() {
        Some(word) if !parsed.has_color_option => push_word(alloc, words, word.as_bytes()),
        _ => Ok(()),
    }
}

/// Adds what options on dependency files lack: where the file goes, and its target.
fn push_added(
    alloc: Global,
    words: &mut Listed<OsBytes>,
    kind: CCompilerKind,
    parsed: &ParsedArguments,
) -> Result<(), AllocError>
    ensures { OnOk result
        (words.new ≡ words.old ++ added_words kind parsed.now.dependencies (object_path parsed.now)) }
{
    let Some(path) = object_path(parsed) else {
        return Ok(());
    };
    let options = parsed.dependencies;
    let asked = kind.writes_dependencies() && options.asked;
    if asked && !options.path {
        push_word(alloc, words, b"-MF")?;
        words.push(with_extension(alloc, path.as_bytes(), b"d")?)?;
    }
    if asked && !options.target {
        push_word(alloc, words, b"-MT")?;
        words.push(path.clone()?)?;
    }
    Ok(())
}

/// Where the object goes.
fn object_path(parsed: &ParsedArguments) -> Option<&OsBytes>
    ensures { option_copied result ≡ object_path parsed.now }
{
    Some(&parsed.object()?.path)
}

/// The words of the compile command of a request, whose object goes to that path.
fn compile_words(
    alloc: Global,
    kind: CCompilerKind,
    parsed: &ParsedArguments,
    path: &[u8],
) -> Result<Listed<OsBytes>, AllocError>
    ensures { IfOk result (λ words. words ≡ compile_words kind parsed.now path.now) }
{
    let mut words = Listed::new(alloc);
    push_language(alloc, &mut words, kind, parsed.language)?;
    push_word(alloc, &mut words, b"-c")?;
    push_front(&mut words, parsed)?;
    push_output(alloc, &mut words, kind, path)?;
    push_color(alloc, &mut words, kind, parsed)?;
    push_all(&mut words, &parsed.preprocessor_args)?;
    push_all(&mut words, &parsed.unhashed_args)?;
    push_all(&mut words, &parsed.common_args)?;
    push_all(&mut words, &parsed.arch_args)?;
    push_after(alloc, &mut words, parsed)?;
    Ok(words)
}

/// The words of the preprocess command of a request.
fn preprocess_words(
    alloc: Global,
    kind: CCompilerKind,
    parsed: &ParsedArguments,
) -> Result<Listed<OsBytes>, AllocError>
    ensures { IfOk result (λ words. words ≡ preprocess_words kind parsed.now) }
{
    let mut words = Listed::new(alloc);
    push_language(alloc, &mut words, kind, parsed.language)?;
    push_word(alloc, &mut words, b"-E")?;
    push_front(&mut words, parsed)?;
    push_all(&mut words, &parsed.preprocessor_args)?;
    push_all(&mut words, &parsed.dependency_args)?;
    push_added(alloc, &mut words, kind, parsed)?;
    push_all(&mut words, &parsed.common_args)?;
    push_all(&mut words, &parsed.arch_args)?;
    push_after(alloc, &mut words, parsed)?;
    Ok(words)
}

/// The compile command of a request: this executable with the request's words, in that directory, under these
/// variables.
pub(crate) fn compile_command(
    alloc: Global,
    kind: CCompilerKind,
    executable: &OsBytes,
    parsed: &ParsedArguments,
    dir: &OsBytes,
    env: &[(OsBytes, OsBytes)],
) -> Result<(SingleCompileCommand, Cacheable), CommandError>
    ensures command { IfOk result
        (λ made. made.0
        ≡ command_at executable.now (compile_words kind parsed.now (output_path parsed.now)) env.now
        dir.now) }
    ensures cacheable { IfOk result (λ made. made.1 ≡ Cacheable.Yes) }
    ensures missing { IsErrOf result CommandError.NoObjOutput ↔ (object_path parsed.now ≡ None) }
    ensures again { IfOk result (λ made. ReadsAsCompile kind parsed.now made.0.arguments) }
{
    // Laws, which cost nothing: what follows from them is said above.
    words_have_one_reading::<ArgData>();
    items_read_again::<ArgData>();
    items_read_together::<ArgData>();
    own_words_are_read();
    let Some(path) = object_path(parsed) else {
        return Err(CommandError::NoObjOutput);
    };
    let words = compile_words(alloc, kind, parsed, path.as_bytes())?;
    let command = command_at(alloc, executable, words, env, dir)?;
    Ok((command, Cacheable::Yes))
}

/// The words of the preprocess command of a request, as that compiler reads them again.
pub(crate) fn preprocess_words_again(
    alloc: Global,
    kind: CCompilerKind,
    parsed: &ParsedArguments,
) -> Result<Listed<OsBytes>, AllocError>
    ensures words { IfOk result (λ words. words ≡ preprocess_words kind parsed.now) }
    ensures again { IfOk result (λ words. ReadsAsPreprocess kind parsed.now words) }
{
    // Laws, which cost nothing: what follows from them is said above.
    words_have_one_reading::<ArgData>();
    items_read_again::<ArgData>();
    items_read_together::<ArgData>();
    own_words_are_read();
    preprocess_words(alloc, kind, parsed)
}
