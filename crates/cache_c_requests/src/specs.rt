//! Files of specs that words name, as `--specs=nano.specs`: a GCC's driver reads in them what it hands to the programs that it runs. No text shows
//! that, so they are bound to the key.

ghost use Rattle.std.specs.Prelude.{◌≡◌};

use base_files::OsBytes;
use cache_dir::digest_of;
use cache_disk::read_whole;
use cache_host::{Additions, CommandLine, Host, HostError, messages_of, push_words};
use cache_known_options::{after_front, names_specs};
use cmdlines_tables::CCompilerKind;
use memchr::memmem;
use std::io::Read;
use std::rt::Files;

/// What a driver says of each file of specs that it reads, before its path.
const READING: &[u8] = b"Reading specs from ";

/// What a text of specs has by which a program reads files that no text names, looks for them in a way of its own, or writes some beside the object.
const REFUSED: [&str; 19] = [
    "-include",
    "-imacros",
    "plugin",
    "-remap",
    "-traditional",
    "-fmodule",
    "-fauto-profile",
    "-fprofile",
    "-fbranch-probabilities",
    "-ftest-coverage",
    "-coverage",
    "-gsplit-dwarf",
    "-save-temps",
    "-fdump",
    "-dump",
    "-fstack-usage",
    "-fcallgraph-info",
    "-aux-info",
    "-M",
];

/// How a call of a function of specs begins: most of these look at files or variables.
const CALL: &[u8] = b"%:";

/// How those begin that hang on the words and the driver alone.
const CLEAR: [&str; 2] = ["%:replace-outfile(", "%:getenv(GCC_EXEC_PREFIX "];

/// How many words name a file of specs.
fn count_in(words: &[OsBytes]) -> usize {
    let mut count: usize = 0;
    for word in words {
        if names_specs(word.as_bytes()) {
            count = count.saturating_add(1);
        }
    }
    count
}

/// Whether a text of specs has something by which a program reads or writes other files.
fn takes_files(text: &[u8]) -> bool {
    for it in &REFUSED {
        if memmem::find(text, it.as_bytes()).is_some() {
            return true;
        }
    }
    false
}

/// Whether each function that a text of specs calls hangs on the words and the driver alone.
fn calls_clear_ones(text: &[u8]) -> bool {
    for at in memmem::find_iter(text, CALL) {
        let Some(call) = text.get(at..) else {
            return false;
        };
        if after_front(&CLEAR, call).is_none() {
            return false;
        }
    }
    true
}

/// The digest of the specs at that path. Those by which other files are read or written, or variables are read, are refused.
fn digest_at<R: Files + AllocGlobal>(rt: &R, path: &[u8]) -> Result<String, HostError> {
    let Ok(path) = str::from_utf8(path) else {
        return Err(HostError::Unreadable);
    };
    let text = read_whole(rt, path)?;
    if takes_files(text.as_slice()) || !calls_clear_ones(text.as_slice()) {
        return Err(HostError::Configuration);
    }
    Ok(digest_of(rt.alloc(), text.as_slice())?)
}

/// Adds the files of specs that a driver said it reads, in their order, and counts them.
fn add_read<R: Files + AllocGlobal>(
    rt: &R,
    said: &[u8],
    additions: &mut Additions,
) -> Result<usize, HostError> {
    let mut count: usize = 0;
    for line in said.split(|byte| *byte == b'\n') {
        if let Some(path) = line.strip_prefix(READING) {
            let digest = digest_at(rt, path)?;
            additions.add(rt.alloc(), "specs", digest.as_bytes())?;
            count = count.saturating_add(1);
        }
    }
    Ok(count)
}

/// What the driver says of the call: which specs it reads, also in other ones, and what it would run.
fn ask<P: Print + Files + AllocGlobal, I: Read>(
    rt: &P,
    line: &CommandLine,
    host: &mut Host<I>,
) -> Result<Vec<u8>, HostError>
    requires { host.old.compiled ≡ 0 }
    ensures { host.new.compiled ≡ 0 }
{
    let alloc = rt.alloc();
    let mut words = line.words.clone()?;
    push_words(alloc, &mut words, &["-###"])?;
    let said = messages_of(rt, line, host, words.as_slice())?;
    match said.status {
        0 => Ok(said.messages),
        _ => Err(HostError::Parts),
    }
}

/// Binds the files of specs that words name, each in its place. The driver is asked in each call, since a file may come to lie where it looks
/// first. Where it doesn't say of each which one it reads, as in another language than English, the call is refused.
pub(crate) fn add_specs<P: Print + Files + AllocGlobal, I: Read>(
    rt: &P,
    line: &CommandLine,
    host: &mut Host<I>,
    kind: CCompilerKind,
    additions: &mut Additions,
) -> Result<(), HostError>
    requires { host.old.compiled ≡ 0 }
    ensures { host.new.compiled ≡ 0 }
{
    let named = count_in(line.words.as_slice());
    if named == 0 {
        return Ok(());
    }
    if kind != CCompilerKind::Gcc {
        return Err(HostError::Configuration);
    }
    let said = ask(rt, line, host)?;
    match add_read(rt, said.as_slice(), additions)? >= named {
        true => Ok(()),
        false => Err(HostError::Configuration),
    }
}
