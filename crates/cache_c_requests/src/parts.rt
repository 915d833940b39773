//! The files that a compiler's driver runs or loads. They may be replaced without it, so its digest is theirs too.

ghost use Rattle.std.specs.Prelude.{◌≡◌};

use crate::clang_files::{add_clang_files, names_configuration};
use base_files::{Listed, OsBytes};
use base_formats::{put_framed, put_number};
use cache_dir::{Kind, state_of};
use cache_disk::read_whole;
use cache_host::{CommandLine, Fields, Host, HostError, into_text, messages_of, words_of};
use cmdlines_tables::CCompilerKind;
use memchr::memchr;
use std::alloc::Global;
use std::fs;
use std::io::Read;
use std::rt::Files;
use std::vec::IntoIter;

/// What GCC runs for a compile, by the names that it knows it by: with -gsplit-dwarf a program that takes debug information out. Clang runs
/// an assembler alone.
const RUNS: [&str; 4] = ["as", "cc1", "cc1plus", "objcopy"];

/// Lists that Clang reads by itself with some sanitizers, in `share` of the folder that it calls its resources'.
const LISTS: [&str; 8] = [
    "asan_ignorelist.txt",
    "cfi_ignorelist.txt",
    "dfsan_abilist.txt",
    "hwasan_ignorelist.txt",
    "memtag_ignorelist.txt",
    "msan_ignorelist.txt",
    "tsan_ignorelist.txt",
    "ubsan_ignorelist.txt",
];

/// Where commands are searched if no variable says it.
const USUAL_PATH: &[u8] = b"/bin:/usr/bin";

/// The text without the end of its line.
fn without_line_end(text: &[u8]) -> &[u8] {
    match text {
        [front @ .., b'\n'] => front,
        _ => text,
    }
}

/// The first line of a text.
fn first_line(text: &[u8]) -> &[u8] {
    match memchr(b'\n', text) {
        Some(at) => text.get(..at).unwrap_or(text),
        None => text,
    }
}

/// What a driver prints, asked by that word.
fn ask<P: Print + Files + AllocGlobal, I: Read>(
    rt: &P,
    line: &CommandLine,
    host: &mut Host<I>,
    word: &str,
) -> Result<Vec<u8>, HostError>
    requires { host.old.compiled ≡ 0 }
    ensures { host.new.compiled ≡ 0 }
{
    let alloc = rt.alloc();
    let words = words_of(alloc, &[word])?;
    let ended = host.preprocess(rt, alloc, words.as_slice())?;
    if ended.status != 0 || !ended.silent {
        return Err(HostError::Parts);
    }
    Ok(read_whole(rt, line.text.as_str())?)
}

/// What a driver says of a program that it runs: a path, or a name that is searched as commands are.
fn ask_name<P: Print + Files + AllocGlobal, I: Read>(
    rt: &P,
    line: &CommandLine,
    host: &mut Host<I>,
    name: &str,
) -> Result<OsBytes, HostError>
    requires { host.old.compiled ≡ 0 }
    ensures { host.new.compiled ≡ 0 }
{
    let word = format!(in rt.alloc(); "-print-prog-name={name}")?;
    let said = ask(rt, line, host, word.as_str())?;
    Ok(OsBytes::from_slice(rt.alloc(), without_line_end(&said))?)
}

/// Adds the paths of the lists that Clang reads by itself, each of which may be there or not.
fn ask_lists<P: Print + Files + AllocGlobal, I: Read>(
    rt: &P,
    line: &CommandLine,
    host: &mut Host<I>,
    names: &mut Listed<OsBytes>,
) -> Result<(), HostError>
    requires { host.old.compiled ≡ 0 }
    ensures { host.new.compiled ≡ 0 }
{
    let said = ask(rt, line, host, "-print-resource-dir")?;
    for list in &LISTS {
        let mut path = Vec::new(rt.alloc());
        path.extend_from_slice(without_line_end(&said))?;
        path.extend_from_slice(b"/share/")?;
        path.extend_from_slice(list.as_bytes())?;
        names.push(OsBytes::from_vec(path))?;
    }
    Ok(())
}

/// Whether a driver takes that word with any other, and says nothing of it.
fn takes_word<P: Print + Files + AllocGlobal, I: Read>(
    rt: &P,
    host: &mut Host<I>,
    word: &str,
) -> Result<bool, HostError>
    requires { host.old.compiled ≡ 0 }
    ensures { host.new.compiled ≡ 0 }
{
    let alloc = rt.alloc();
    let words = words_of(alloc, &[word, "-E", "-x", "c", "/dev/null"])?;
    let ended = host.preprocess(rt, alloc, words.as_slice())?;
    Ok(ended.status == 0 && ended.silent)
}

/// Adds the paths at which GCC looks for a file of specs in each call, which may be there or not.
fn ask_specs<P: Print + Files + AllocGlobal, I: Read>(
    rt: &P,
    line: &CommandLine,
    host: &mut Host<I>,
    names: &mut Listed<OsBytes>,
) -> Result<(), HostError>
    requires { host.old.compiled ≡ 0 }
    ensures { host.new.compiled ≡ 0 }
{
    let said = ask(rt, line, host, "-print-search-dirs")?;
    let Some(folder) = first_line(&said).strip_prefix(b"install: ") else {
        return Err(HostError::Parts);
    };
    for place in specs_places(rt.alloc(), folder)? {
        names.push(OsBytes::from_slice(rt.alloc(), place.as_bytes())?)?;
    }
    Ok(())
}

/// The paths at which a GCC of that folder, `PREFIX/MACHINE/VERSION/`, looks for a file of specs.
fn specs_places(alloc: Global, folder: &[u8]) -> Result<Vec<String>, HostError> {
    let Ok(folder) = str::from_utf8(folder) else {
        return Err(HostError::Unreadable);
    };
    let path = folder.trim_end_matches('/');
    let (above, version) = path.rsplit_once('/').unwrap_or(("", path));
    let (_, machine) = above.rsplit_once('/').unwrap_or(("", above));
    let mut places = Vec::new(alloc);
    push_place(alloc, folder, "specs", &mut places)?;
    let library = format!(in alloc; "{folder}../../../../{machine}/lib/")?;
    let own = format!(in alloc; "{machine}/{version}/specs")?;
    push_place(alloc, library.as_str(), own.as_str(), &mut places)?;
    push_place(alloc, library.as_str(), "specs", &mut places)?;
    push_place(alloc, folder, "../specs", &mut places)?;
    Ok(places)
}

/// Pushes the path of that name after this front.
fn push_place(
    alloc: Global,
    front: &str,
    name: &str,
    places: &mut Vec<String>,
) -> Result<(), HostError> {
    Ok(places.push(format!(in alloc; "{front}{name}")?)?)
}

/// The word by which the driver's messages are in colour; an empty one where it doesn't take that.
fn ask_color<P: Print + Files + AllocGlobal, I: Read>(
    rt: &P,
    host: &mut Host<I>,
    kind: CCompilerKind,
) -> Result<OsBytes, HostError>
    requires { host.old.compiled ≡ 0 }
    ensures { host.new.compiled ≡ 0 }
{
    let word = kind.color_word().unwrap_or("");
    let takes = takes_word(rt, host, word)?;
    let word = if takes { word } else { "" };
    Ok(OsBytes::from_slice(rt.alloc(), word.as_bytes())?)
}

/// Refuses a driver that says of itself that it reads a configuration file.
fn refuse_configuration<P: Print + Files + AllocGlobal, I: Read>(
    rt: &P,
    line: &CommandLine,
    host: &mut Host<I>,
) -> Result<(), HostError>
    requires { host.old.compiled ≡ 0 }
    ensures { host.new.compiled ≡ 0 }
{
    let words = words_of(rt.alloc(), &["-v"])?;
    let said = messages_of(rt, line, host, words.as_slice())?;
    match names_configuration(said.messages.as_slice()) {
        true => Err(HostError::Configuration),
        false => Ok(()),
    }
}

/// The word that makes the messages of a driver of that kind coloured, followed by the names of what it runs and reads.
fn ask_names<P: Print + Files + AllocGlobal, I: Read>(
    rt: &P,
    line: &CommandLine,
    host: &mut Host<I>,
    kind: CCompilerKind,
) -> Result<Listed<OsBytes>, HostError>
    requires { host.old.compiled ≡ 0 }
    ensures { host.new.compiled ≡ 0 }
{
    let mut names = Listed::new(rt.alloc());
    names.push(ask_color(rt, host, kind)?)?;
    if kind == CCompilerKind::Clang {
        refuse_configuration(rt, line, host)?;
        names.push(ask_name(rt, line, host, "as")?)?;
        ask_lists(rt, line, host, &mut names)?;
        return Ok(names);
    }
    for name in &RUNS {
        names.push(ask_name(rt, line, host, name)?)?;
    }
    ask_specs(rt, line, host, &mut names)?;
    Ok(names)
}

/// How many words are noted of a driver of that kind.
fn word_count(kind: CCompilerKind) -> usize {
    match kind {
        // The word for colours, the assembler and the lists.
        CCompilerKind::Clang => 10,
        // The word for colours, what is run, and the places of specs.
        _ => 9,
    }
}

/// What a driver said before in this state. What isn't as it was noted, as where a disk lost its bytes, or an earlier version noted less, is an
/// error.
fn said_before<R: Files + AllocGlobal>(
    rt: &R,
    line: &CommandLine,
    state: &str,
    kind: CCompilerKind,
) -> Result<Listed<OsBytes>, HostError> {
    let bytes = line.folder.read(rt, Kind::Parts, state)?;
    let mut fields = Fields::of(bytes.as_slice());
    let names = fields.words(rt.alloc())?;
    if names.as_slice().len() != word_count(kind) || !fields.is_empty() {
        return Err(HostError::Unreadable);
    }
    Ok(names)
}

/// Notes what a driver said.
fn note_said<R: Files + AllocGlobal>(
    rt: &R,
    line: &CommandLine,
    state: &str,
    names: &[OsBytes],
) -> Result<(), HostError> {
    let mut bytes = Vec::new(rt.alloc());
    put_number(&mut bytes, names.len() as u64)?;
    for name in names {
        put_framed(&mut bytes, name.as_bytes())?;
    }
    Ok(line.folder.put(rt, Kind::Parts, state, bytes.as_slice())?)
}

/// Whether a driver is a script: then no file shows what it runs.
fn is_script<R: Files + AllocGlobal>(rt: &R, path: &str) -> bool {
    let mut front = [0; 2];
    match fs::open(rt, path) {
        Ok(mut file) => file.read_exact(&mut front).is_ok() && front == *b"#!",
        Err(_) => false,
    }
}

/// What the driver says that it takes, runs and reads. It is asked once in each of its states.
fn driver_names<P: Print + Files + AllocGlobal, I: Read>(
    rt: &P,
    line: &CommandLine,
    host: &mut Host<I>,
    kind: CCompilerKind,
) -> Result<Listed<OsBytes>, HostError>
    requires { host.old.compiled ≡ 0 }
    ensures { host.new.compiled ≡ 0 }
{
    let driver = [line.executable.clone()?];
    let state = state_of(rt, &driver)?;
    if let Ok(names) = said_before(rt, line, state.as_str(), kind) {
        return Ok(names);
    }
    if is_script(rt, line.executable.as_str()) {
        return Err(HostError::Script);
    }
    let names = ask_names(rt, line, host, kind)?;
    note_said(rt, line, state.as_str(), names.as_slice())?;
    Ok(names)
}

/// Whether it is a regular file, with all links followed.
fn is_file<R: Files>(rt: &R, path: &str) -> bool {
    match fs::metadata(rt, path) {
        Ok(metadata) => metadata.is_file(),
        Err(_) => false,
    }
}

/// The file of a command of that name in these folders, where there is one.
fn searched<R: Files + AllocGlobal>(
    rt: &R,
    folders: &[u8],
    name: &str,
) -> Result<Option<String>, HostError> {
    for folder in folders.split(|byte| *byte == b':') {
        let Ok(folder) = str::from_utf8(folder) else {
            continue;
        };
        let file = format!(in rt.alloc(); "{folder}/{name}")?;
        if is_file(rt, file.as_str()) {
            return Ok(Some(file));
        }
    }
    Ok(None)
}

/// The file of that name, where there is one.
fn file_of<R: Files + AllocGlobal>(
    rt: &R,
    line: &CommandLine,
    name: OsBytes,
) -> Result<Option<String>, HostError> {
    let name = into_text(name)?;
    if !name.as_bytes().contains(&b'/') {
        let path = line.value_of(b"PATH");
        let folders = if path.is_empty() { USUAL_PATH } else { path };
        return searched(rt, folders, name.as_str());
    }
    Ok(if is_file(rt, name.as_str()) {
        Some(name)
    } else {
        None
    })
}

/// What is known of a driver of which the digest of its compiler is taken.
#[derive(Drop)]
pub struct Driver {
    /// The files of the compiler, its driver first, and of a Clang its libraries last.
    pub files: Vec<String>,
    /// Whether it takes the word by which its messages are in colour.
    pub takes_color: bool,
}

/// Adds the files of these names, where there are some.
fn add_files<R: Files + AllocGlobal>(
    rt: &R,
    line: &CommandLine,
    names: IntoIter<OsBytes>,
    files: &mut Vec<String>,
) -> Result<(), HostError> {
    for name in names {
        if let Some(file) = file_of(rt, line, name)? {
            files.push(file)?;
        }
    }
    Ok(())
}

/// What is known of the driver of that kind.
pub fn driver_of<P: Print + Files + AllocGlobal, I: Read>(
    rt: &P,
    line: &CommandLine,
    host: &mut Host<I>,
    kind: CCompilerKind,
) -> Result<Driver, HostError>
    requires { host.old.compiled ≡ 0 }
    ensures { host.new.compiled ≡ 0 }
{
    let mut names = driver_names(rt, line, host, kind)?.into_vec().into_iter();
    let takes_color = match names.next() {
        Some(word) => !word.as_bytes().is_empty(),
        None => false,
    };
    let mut files = Vec::new(rt.alloc());
    files.push(line.executable.clone()?)?;
    add_files(rt, line, names, &mut files)?;
    if kind == CCompilerKind::Clang {
        add_clang_files(rt, line, &mut files)?;
    }
    Ok(Driver { files, takes_color })
}
