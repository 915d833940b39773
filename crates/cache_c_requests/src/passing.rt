//! What is passed through before the session is asked, since neither the compiler's words nor its text would determine what was made.
//! docs/WRAPPER.md says what each variable and option does.

use base_files::OsBytes;
use cache_host::{CommandLine, HostError};
use cache_known_options::{
    PlacedWords, after_front, beside_of, for_preprocessor, is_among, odd_dependency_file,
    side_ending, unknown_word,
};
use cache_settings::Key;
use cache_statistics::TO_STANDARD_OUTPUT;
use cmdlines_tables::CCompilerKind;
use sccache_recorded_builds::options_in;
use std::alloc::Global;

/// Variables under which a compiler reads or writes something else.
const VARIABLES: [&str; 14] = [
    "AS_SECURE_LOG_FILE",
    "COMPILER_PATH",
    "GCC_EXEC_PREFIX",
    "GCC_COMPARE_DEBUG",
    "GCC_EXTRA_DIAGNOSTIC_OUTPUT",
    "DEPENDENCIES_OUTPUT",
    "SUNPRO_DEPENDENCIES",
    "CCC_OVERRIDE_OPTIONS",
    "CC_PRINT_OPTIONS",
    "CC_PRINT_HEADERS",
    "CC_LOG_DIAGNOSTICS",
    "CC_PRINT_PROC_STAT",
    "LD_PRELOAD",
    "LD_AUDIT",
];

/// Whether it is a variable that speaks against keeping.
fn is_variable(name: &[u8]) -> bool {
    is_among(&VARIABLES, name)
}

/// Whether a word is among them.
fn has_word(words: &[OsBytes], word: &[u8]) -> bool {
    words.iter().any(|it| it.as_bytes() == word)
}

/// Whether a word asks for a file beside the object to which gulmaat sees itself.
fn asks_beside(word: &[u8]) -> bool {
    for_preprocessor(word).is_some() || side_ending(word).is_some()
}

/// Whether gulmaat sees itself to an option that the session passes through.
fn is_seen_to(option: &[u8]) -> bool {
    asks_beside(option) || matches!(option, b"-specs")
}

/// Words by which a Clang has another program assemble.
const ASSEMBLED: [&str; 2] = ["-fno-integrated-as", "-no-integrated-as"];

/// What words begin with by which it runs an assembler that isn't in its digest then, or a program that takes debug information out.
const RUNNING: [&str; 6] = [
    "--target",
    "-target",
    "--gcc-toolchain",
    "-gcc-toolchain",
    "--gcc-install-dir",
    "-gsplit-dwarf",
];

/// The words that a GCC takes for granted: it records its options unless it is told not to.
const OF_GCC: [&str; 1] = ["-grecord-gcc-switches"];

/// The words that a compiler of that kind takes for granted.
fn granted_by(kind: CCompilerKind) -> &'static [&'static str] {
    match kind {
        CCompilerKind::Gcc => &OF_GCC,
        _ => &[],
    }
}

/// Whether the words name that path as the output.
fn is_output(words: &[OsBytes], path: &[u8]) -> bool {
    let mut is_value = false;
    for word in words {
        if is_value && word.as_bytes() == path {
            return true;
        }
        is_value = matches!(word.as_bytes(), b"-o");
    }
    false
}

/// Why nothing can be kept of where the words ask for an object: on standard output, or nowhere.
fn reason_by_output(words: &[OsBytes]) -> Option<&'static str> {
    if !has_word(words, b"-c") || has_word(words, b"-E") || has_word(words, b"-S") {
        return None;
    }
    if is_output(words, b"-") || has_word(words, b"-o-") {
        return Some(TO_STANDARD_OUTPUT);
    }
    match is_output(words, b"/dev/null") {
        true => Some("output is no plain file"),
        false => None,
    }
}

/// The variable that speaks against keeping in a call of a compiler of that kind, or the option, or the word that isn't known.
pub fn reason_against(
    alloc: Global,
    line: &CommandLine,
    kind: CCompilerKind,
) -> Result<Option<String>, HostError> {
    for (name, value) in line.env.as_slice() {
        if is_variable(name.as_bytes()) && !value.as_bytes().is_empty() {
            let name = name.clone()?;
            return Ok(Some(format!(in alloc; "{name}")?));
        }
    }
    if let Some(reason) = reason_by_output(line.words.as_slice()) {
        return Ok(Some(String::from_str(alloc, reason)?));
    }
    let options = options_in(alloc, line.words.as_slice(), &[])?;
    let option = options.iter().find(|option| !is_seen_to(option.as_bytes()));
    match option {
        Some(option) => Ok(Some(String::from_str(alloc, option)?)),
        None => unknown_in(alloc, line, kind),
    }
}

/// Whether an object may be asked for, by these words or those in a response file.
pub(crate) fn may_ask_for_object(words: &[OsBytes]) -> bool {
    has_word(words, b"-c")
        || has_word(words, b"-S")
        || words.iter().any(|it| it.as_bytes().starts_with(b"@"))
}

/// The first word that isn't known, where an object may be asked for; any other command is the session's to pass through.
fn unknown_in(
    alloc: Global,
    line: &CommandLine,
    kind: CCompilerKind,
) -> Result<Option<String>, HostError> {
    let words = line.words.as_slice();
    if !may_ask_for_object(words) {
        return Ok(None);
    }
    let allowed = line.settings.value_of(Key::AllowOptions);
    let word = match unknown_word(alloc, words, granted_by(kind), allowed)? {
        Some(word) => Some(word),
        None => unclear_word(alloc, line)?,
    };
    let word = word.or(odd_dependency_file(words));
    let word = word.or(word_running_others(kind, words));
    match word.or(late_language(words)) {
        Some(word) => Ok(Some(format!(in alloc; "{word}")?)),
        None => Ok(None),
    }
}

/// The word by which a Clang that has another program assemble runs one that isn't in its digest.
fn word_running_others(kind: CCompilerKind, words: &[OsBytes]) -> Option<&OsBytes> {
    let is_assembled = words
        .iter()
        .any(|word| is_among(&ASSEMBLED, word.as_bytes()));
    if kind != CCompilerKind::Clang || !is_assembled {
        return None;
    }
    words
        .iter()
        .find(|word| after_front(&RUNNING, word.as_bytes()).is_some())
}

/// Whether a word says of which language the inputs after it are.
fn is_language(word: &[u8]) -> bool {
    word.starts_with(b"-x") || word.starts_with(b"--language")
}

/// A word for a language that comes after an input: compilers apply it to the inputs after it, and the session to all.
fn late_language(words: &[OsBytes]) -> Option<&OsBytes> {
    let mut has_input = false;
    for placed in PlacedWords::of(words) {
        if has_input && placed.option.is_none() && is_language(placed.word.as_bytes()) {
            return Some(placed.word);
        }
        has_input = has_input || placed.is_input();
    }
    None
}

/// The word by which it isn't clear which file is written beside the object, or is that of a dependency file which a preprocessor is to write
/// in each call.
fn unclear_word(alloc: Global, line: &CommandLine) -> Result<Option<&OsBytes>, HostError> {
    let words = line.words.as_slice();
    let Some(word) = words.iter().find(|word| asks_beside(word.as_bytes())) else {
        return Ok(None);
    };
    let folders_count = line.settings.value_of(Key::BaseDir).is_empty();
    if folders_count && beside_of(alloc, words)?.is_some() {
        return Ok(None);
    }
    Ok(Some(word))
}
