//! The request of a call. Words that ask for a dependency file, or another file beside the object, aren't passed to the session: what is in
//! these files is bound to the key, and those that a compile wrote are kept beside its messages.

ghost use Rattle.std.specs.Prelude.{◌≡◌};

use crate::compilers::{KnownCompiler, add_folder, add_surroundings, compiler_at};
use crate::native::native_of;
use crate::passing::may_ask_for_object;
use crate::precompiled::refuse_precompiled;
use crate::specs::add_specs;
use base_files::{Listed, OsBytes};
use cache_host::{ADDITIONS_VARIABLE, Additions, CommandLine, Host, HostError};
use cache_known_options::{Beside, PlacedWords, after_front, beside_of, ends_with, is_read};
use cache_settings::Key;
use cmdlines_tables::CCompilerKind;
use std::alloc::Global;
use std::collections::BTreeMap;
use std::io::Read;
use std::rt::Files;
use wrap_base::Request;

/// Name endings of inputs that are compiled as they are, or whose place an assembler records.
const WITHOUT_FOLDER: [&str; 5] = [".i", ".ii", ".s", ".S", ".sx"];

/// What words begin with by which an assembler may record where an input is, unless they are known: so where a user allows others.
const FOR_ASSEMBLER: [&str; 2] = ["-Wa,", "-Xassembler"];

/// Languages of inputs that are compiled as they are, or whose place an assembler records.
const LANGUAGES: [&str; 4] = [
    "assembler",
    "assembler-with-cpp",
    "c++-cpp-output",
    "cpp-output",
];

/// Whether a variable is passed to the session as it is.
fn is_passed(name: &[u8]) -> bool {
    is_read(name) && name != ADDITIONS_VARIABLE.as_bytes()
}

/// The variables that are passed to the session: those that compilers read, in the order of their names, and the one that stands for all
/// additions.
fn env_of(
    alloc: Global,
    env: &[(OsBytes, OsBytes)],
    additions: &Additions,
) -> Result<Listed<(OsBytes, OsBytes)>, HostError> {
    let mut read = BTreeMap::new(alloc);
    for (name, value) in env {
        if is_passed(name.as_bytes()) {
            read.insert(name.clone()?, value.clone()?)?;
        }
    }
    let mut variables = Listed::new(alloc);
    for (name, value) in read {
        variables.push((name, value))?;
    }
    variables.push(additions.variable(alloc)?)?;
    Ok(variables)
}

/// Whether a word names an input, a language or an option by which an object has the input's place in it, though no text shows that.
fn tells_place(word: &[u8], allows: bool) -> bool {
    ends_with(&WITHOUT_FOLDER, word)
        || ends_with(&LANGUAGES, word)
        || (allows && after_front(&FOR_ASSEMBLER, word).is_some())
}

/// Whether an object may have the input's place in it, though no text shows that.
fn may_have_place(line: &CommandLine) -> bool {
    let allows = !line.settings.value_of(Key::AllowOptions).is_empty();
    for word in line.words.as_slice() {
        if tells_place(word.as_bytes(), allows) {
            return true;
        }
    }
    false
}

/// Adds where the input lies, where an object may have that in it though no text shows it.
fn add_place(
    alloc: Global,
    line: &CommandLine,
    additions: &mut Additions,
) -> Result<(), HostError> {
    if !may_have_place(line) {
        return Ok(());
    }
    add_folder(alloc, line, additions)?;
    for placed in PlacedWords::of(line.words.as_slice()) {
        if placed.is_input() {
            additions.add(alloc, "path", placed.word.as_bytes())?;
        }
    }
    Ok(())
}

/// Adds what words come to that map names of files, and what the files beside the object hang on. Coverage's and split debug information's names
/// are in the object too, with the folder. The session's words don't show where the words stood that ask for such files, and the last of two that
/// contradict each other counts: so all words are bound in their order.
fn add_beside(
    alloc: Global,
    line: &CommandLine,
    beside: &Beside,
    additions: &mut Additions,
) -> Result<(), HostError> {
    for word in beside.dependencies.said.as_slice() {
        additions.add(alloc, "dependency file", word.as_bytes())?;
    }
    for (name, value) in beside.maps.rows.as_slice() {
        additions.add(alloc, name, value.as_bytes())?;
    }
    let side_files = &beside.side_files;
    if side_files.words.is_empty() {
        return Ok(());
    }
    for word in beside.dependencies.others.as_slice() {
        additions.add(alloc, "argument", word.as_bytes())?;
    }
    additions.add(alloc, "object", side_files.object.as_bytes())?;
    add_folder(alloc, line, additions)
}

/// What is bound to the key of a call beside text, words and compiler.
fn additions_of(
    alloc: Global,
    line: &CommandLine,
    kind: CCompilerKind,
    beside: Option<&Beside>,
) -> Result<Additions, HostError> {
    let mut additions = Additions::new(alloc);
    additions.add_if_any(
        alloc,
        ADDITIONS_VARIABLE,
        line.value_of(ADDITIONS_VARIABLE.as_bytes()),
    )?;
    add_surroundings(alloc, line, kind, &mut additions)?;
    add_place(alloc, line, &mut additions)?;
    if let Some(beside) = beside {
        add_beside(alloc, line, beside, &mut additions)?;
    }
    Ok(additions)
}

/// Whether an object of such a call has a name that its words map only as they say: so with a GCC's, of which all words are known, and whose
/// input is preprocessed.
fn may_have_maps(line: &CommandLine, kind: CCompilerKind) -> bool {
    kind == CCompilerKind::Gcc
        && line.settings.value_of(Key::AllowOptions).is_empty()
        && !may_have_place(line)
}

/// What the words say of files beside the object, and of names of files in it; nothing where the preprocessor is to write a dependency file in
/// each call. So it is where folders don't count: lines of the file are as long as their names.
fn beside_in(
    alloc: Global,
    line: &CommandLine,
    kind: CCompilerKind,
) -> Result<Option<Beside>, HostError> {
    if !line.settings.value_of(Key::BaseDir).is_empty() {
        return Ok(None);
    }
    let Some(mut beside) = beside_of(alloc, line.words.as_slice())? else {
        return Ok(None);
    };
    if may_have_maps(line, kind) {
        beside.take_maps(alloc, line.dir.as_bytes())?;
    }
    Ok(Some(beside))
}

/// What the session is asked about a call, and what isn't passed to it.
#[derive(Drop)]
pub struct Call {
    pub request: Request,
    /// Whether the compiler takes the word by which its messages are in colour.
    pub takes_color: bool,
    /// What the words say of files beside the object, and of names of files in it; nothing where those words are passed to the session.
    pub beside: Option<Beside>,
}

/// Adds what only the driver says: which files of specs it reads, and what it makes of `native`.
fn add_from_driver<P: Print + Files + AllocGlobal, I: Read>(
    rt: &P,
    line: &CommandLine,
    host: &mut Host<I>,
    kind: CCompilerKind,
    additions: &mut Additions,
) -> Result<(), HostError>
    requires { host.old.compiled ≡ 0 }
    ensures { host.new.compiled ≡ 0 }
{
    add_specs(rt, line, host, kind, additions)?;
    match native_of(rt, line, host)? {
        Some(native) => additions.add(rt.alloc(), "native", native.as_bytes()),
        None => Ok(()),
    }
}

/// The variables that are passed to the session, with the one that stands for all additions.
fn env_with<P: Print + Files + AllocGlobal, I: Read>(
    rt: &P,
    line: &CommandLine,
    host: &mut Host<I>,
    kind: CCompilerKind,
    beside: Option<&Beside>,
) -> Result<Listed<(OsBytes, OsBytes)>, HostError>
    requires { host.old.compiled ≡ 0 }
    ensures { host.new.compiled ≡ 0 }
{
    let alloc = rt.alloc();
    let mut additions = additions_of(alloc, line, kind, beside)?;
    // The session passes any other command through, so the driver isn't asked about it.
    if may_ask_for_object(line.words.as_slice()) {
        add_from_driver(rt, line, host, kind, &mut additions)?;
    }
    env_of(alloc, line.env.as_slice(), &additions)
}

/// Copies of the words that are passed to the session, and of the folder.
fn words_and_dir(
    alloc: Global,
    line: &CommandLine,
    beside: Option<&Beside>,
) -> Result<(Listed<OsBytes>, OsBytes), HostError> {
    let words = match beside {
        Some(beside) => beside.session_words(alloc)?,
        None => line.words.clone()?,
    };
    Ok((words, line.dir.clone()?))
}

/// The request of a call of a compiler of that kind, and whether that takes the word by which its messages are in colour.
fn request_of<P: Print + Files + AllocGlobal, I: Read>(
    rt: &P,
    line: &CommandLine,
    host: &mut Host<I>,
    kind: CCompilerKind,
    beside: Option<&Beside>,
) -> Result<(Request, bool), HostError>
    requires { host.old.compiled ≡ 0 }
    ensures { host.new.compiled ≡ 0 }
{
    let env = env_with(rt, line, host, kind, beside)?;
    let (words, dir) = words_and_dir(rt.alloc(), line, beside)?;
    let KnownCompiler {
        compiler,
        takes_color,
    } = compiler_at(rt, line, host, kind)?;
    let request = Request {
        compiler,
        words,
        dir,
        env,
        moment: line.second(),
    };
    Ok((request, takes_color))
}

/// What the session is asked about the command line of a compiler of that kind.
pub fn call_of<P: Print + Files + AllocGlobal, I: Read>(
    rt: &P,
    line: &CommandLine,
    host: &mut Host<I>,
    kind: CCompilerKind,
) -> Result<Call, HostError>
    requires { host.old.compiled ≡ 0 }
    ensures { host.new.compiled ≡ 0 }
{
    refuse_precompiled(rt, line)?;
    let beside = beside_in(rt.alloc(), line, kind)?;
    let (request, takes_color) = request_of(rt, line, host, kind, beside.as_ref())?;
    Ok(Call {
        request,
        takes_color,
        beside,
    })
}
