//! What rustc is asked for a session: what a crate is made of, the names of its outputs, digests of static libraries, and the compile. Each
//! answer is recorded for the words and the folder of the session's own command.

ghost use Rattle.std.specs.Prelude.{◌≡◌, ◌≤◌};

use crate::known::KnownCrate;
use base_files::{Listed, OsBytes, join};
use base_formats::put_framed;
use cache_dir::{Kind, digest_of};
use cache_disk::read_whole;
use cache_host::{CommandLine, Host, HostError, into_text, text_in};
use cache_rustc_requests::{printed_for, toolchain_word};
use cache_source_files::{Locks, lock_paths, made_since, states_of};
use ckeys_records::Printed;
use memchr::memmem;
use rustc_options::parsed::ParsedArguments;
use rustc_texts::dep_info_words;
use std::alloc::Global;
use std::fs::File;
use std::io::Read;
use std::rt::Files;
use wrap_base::store_key::StoreKey;
use wrap_base::{Compiled, Compiler, Request};
use wrap_replay_base::{RecordedAnswer, RecordedCrate, Wanted};

/// The variable that passes to the session what a crate is made of.
const SOURCES: &str = "CARGO_GULMAAT_SOURCES";

/// The words of a question as they are run: after the one that names a toolchain, and followed by those that the session doesn't know of.
fn own_words(
    alloc: Global,
    line: &CommandLine,
    words: &[OsBytes],
    more: &[&str],
) -> Result<Listed<OsBytes>, HostError> {
    let mut own = Listed::new(alloc);
    if let Some(word) = toolchain_word(line.words.as_slice()) {
        own.push(word.clone()?)?;
    }
    for word in words {
        own.push(word.clone()?)?;
    }
    for word in more.iter() {
        own.push(OsBytes::from_slice(alloc, word.as_bytes())?)?;
    }
    Ok(own)
}

/// The name under which the answer to a question is noted: it hangs on the toolchain, the folder, these variables and the words.
fn name_of_answer(
    alloc: Global,
    request: &Request,
    env: &[(OsBytes, OsBytes)],
    words: &[OsBytes],
) -> Result<String, HostError> {
    let mut row = Vec::new(alloc);
    if let Compiler::Rust(rust) = &request.compiler {
        for digest in rust.toolchain_digests() {
            put_framed(&mut row, digest.as_bytes())?;
        }
    }
    put_framed(&mut row, request.dir.as_bytes())?;
    for (name, value) in env {
        put_framed(&mut row, name.as_bytes())?;
        put_framed(&mut row, value.as_bytes())?;
    }
    for word in words {
        put_framed(&mut row, word.as_bytes())?;
    }
    Ok(digest_of(alloc, row.as_slice())?)
}

/// The names of outputs that a rustc gives. It is asked once: they depend on the words and the folder alone.
fn names_for<P: Print + Files + AllocGlobal, I: Read>(
    rt: &P,
    line: &CommandLine,
    host: &mut Host<I>,
    request: &Request,
    naming: &[OsBytes],
    words: &[OsBytes],
) -> Result<Printed, HostError>
    ensures { host.new.compiled ≡ host.old.compiled }
{
    let alloc = rt.alloc();
    let name = name_of_answer(alloc, request, &[], naming)?;
    if let Ok(text) = line.folder.read(rt, Kind::Searches, name.as_str()) {
        let text = OsBytes::from_vec(text);
        return Ok(Printed { status: 0, text });
    }
    let own = own_words(alloc, line, words, &[])?;
    let printed = printed_for(rt, line, host, own.as_slice())?;
    if printed.status == 0 {
        let _ = line
            .folder
            .put(rt, Kind::Searches, name.as_str(), printed.text.as_bytes());
    }
    Ok(printed)
}

/// What a text on dependencies says of them, after the target of its first rule.
fn after_target(text: &[u8]) -> &[u8] {
    match memmem::find(text, b": ") {
        Some(at) => text.get(at..).unwrap_or(text),
        None => text,
    }
}

/// The variable that passes to the session what a crate is made of.
fn sources_variable(alloc: Global, text: &[u8]) -> Result<(OsBytes, OsBytes), HostError> {
    let name = OsBytes::from_slice(alloc, SOURCES.as_bytes())?;
    let digest = digest_of(alloc, text)?;
    Ok((name, OsBytes::from_vec(digest.into_bytes())))
}

/// Binds to the key of a request what a text says of its crate.
fn bind_sources(alloc: Global, text: &[u8], request: &mut Request) -> Result<(), HostError> {
    let sources = sources_variable(alloc, after_target(text))?;
    Ok(request.env.push(sources)?)
}

/// Paths as they are from the folder of the call.
fn join_paths(
    alloc: Global,
    line: &CommandLine,
    paths: &[OsBytes],
) -> Result<Listed<OsBytes>, HostError> {
    let mut whole = Listed::new(alloc);
    for path in paths {
        whole.push(join(alloc, line.dir.as_bytes(), path.as_bytes())?)?;
    }
    Ok(whole)
}

/// Whether a compile printed anything there. What can't be read may be something.
fn has_output<P: Files + AllocGlobal>(rt: &P, place: &str) -> Result<bool, HostError> {
    match read_whole(rt, place) {
        Ok(bytes) => Ok(!bytes.is_empty()),
        Err(_) => Ok(true),
    }
}

impl KnownCrate {
    /// What rustc says that the crate is made of, which is loaded: it is asked where no manifest says it.
    fn ask_dependencies<P: Print + Files + AllocGlobal, I: Read>(
        &mut self,
        rt: &P,
        line: &CommandLine,
        host: &mut Host<I>,
        request: &Request,
        words: &[OsBytes],
    ) -> Result<Printed, HostError>
        ensures { host.new.compiled ≡ host.old.compiled }
    {
        let naming = self.naming.as_slice();
        let name = name_of_answer(rt.alloc(), request, request.env.as_slice(), naming)?;
        if let Some(text) = self.noted_text(rt, line, name.as_str())? {
            return Ok(Printed { status: 0, text });
        }
        let own = own_words(rt.alloc(), line, words, &["-o", line.list.as_str()])?;
        let status = printed_for(rt, line, host, own.as_slice())?.status;
        let text = OsBytes::from_vec(read_whole(rt, line.list.as_str())?);
        if status == 0 {
            self.take_text(rt, line, name.as_str(), &text)?;
        }
        Ok(Printed { status, text })
    }

    /// Learns of what the crate is made, as the session will ask it, and binds that to the key with the names of its files: the session hashes
    /// their contents alone.
    pub fn learn_sources<P: Print + Files + AllocGlobal, I: Read>(
        &mut self,
        rt: &P,
        line: &CommandLine,
        host: &mut Host<I>,
        request: &mut Request,
        parsed: &ParsedArguments,
    ) -> Result<(), HostError>
        ensures no_compile { host.new.compiled ≡ host.old.compiled }
    {
        let dir = line.dir.clone()?;
        let words = dep_info_words(rt.alloc(), parsed)?;
        let printed = self.ask_dependencies(rt, line, host, request, words.as_slice())?;
        bind_sources(rt.alloc(), printed.text.as_bytes(), request)?;
        if let Some(rustc) = self.tool.rustc.as_mut() {
            rustc.dep_info = Some(RecordedAnswer {
                words,
                dir,
                printed,
            });
        }
        Ok(())
    }

    /// Has rustc give the names of outputs that the session asked for. False where it asked for none.
    pub fn learn_names<P: Print + Files + AllocGlobal, I: Read>(
        &mut self,
        rt: &P,
        line: &CommandLine,
        host: &mut Host<I>,
        request: &Request,
    ) -> Result<bool, HostError>
        ensures no_compile { host.new.compiled ≡ host.old.compiled }
    {
        let (Some(Wanted { words, .. }), Some(rustc)) = (
            self.tool.wanted.take(),
            self.tool.rustc.as_mut(),
        ) else {
            return Ok(false);
        };
        let naming = self.naming.as_slice();
        let printed = names_for(rt, line, host, request, naming, words.as_slice())?;
        let dir = line.dir.clone()?;
        rustc.file_names = Some(RecordedAnswer {
            words,
            dir,
            printed,
        });
        Ok(true)
    }

    /// Takes the digest of a static library that the session asked for. False where none is known.
    pub fn take_library<R: Files + AllocGlobal>(
        &mut self,
        rt: &R,
        line: &CommandLine,
    ) -> Result<bool, HostError> {
        let Some(Wanted { words, .. }) = self.tool.wanted.take() else {
            return Ok(false);
        };
        let (Some(path), Some(rustc)) = (words.as_slice().first(), self.tool.rustc.as_mut()) else {
            return Ok(false);
        };
        let files = [into_text(path.clone()?)?];
        let digest = line.folder.digest_of_files(rt, &files)?;
        let digest = OsBytes::from_vec(digest.into_bytes());
        rustc.digests.insert(path.clone()?, digest)?;
        Ok(true)
    }

    /// Waits until no other call writes these outputs.
    fn lock<R: Files<File = File> + AllocGlobal>(
        &self,
        rt: &R,
        line: &CommandLine,
        paths: &[OsBytes],
    ) -> Result<Locks, HostError> {
        lock_paths(rt, line, paths, self.dep_info.as_ref())
    }

    /// What the host makes at these paths, from the folder of the call, by the caller's own words.
    fn made_by<P: Print + Files<File = File> + AllocGlobal, I: Read>(
        &mut self,
        rt: &P,
        line: &CommandLine,
        host: &mut Host<I>,
        paths: &[OsBytes],
    ) -> Result<Compiled, HostError>
        requires { host.old.compiled ≡ 0 }
        ensures { host.new.compiled ≤ 1 }
    {
        let paths = join_paths(rt.alloc(), line, paths)?;
        let _locks = self.lock(rt, line, paths.as_slice())?;
        let before = states_of(rt, paths.as_slice())?;
        let ended = host.compile(rt, rt.alloc(), line.words.as_slice())?;
        let contents = made_since(rt, paths.as_slice(), before.as_slice())?;
        self.take_printed(rt, line)?;
        let status = ended.status;
        Ok(Compiled { status, contents })
    }

    /// Takes what the compile printed.
    fn take_printed<R: Files + AllocGlobal>(
        &mut self,
        rt: &R,
        line: &CommandLine,
    ) -> Result<(), HostError> {
        self.errors = OsBytes::from_vec(read_whole(rt, line.errors.as_str())?);
        self.is_talking = has_output(rt, line.printed.as_str())?;
        Ok(())
    }

    /// Has the host compile by the caller's own words, and records what was made as what the session's words make.
    fn record_crate<P: Print + Files<File = File> + AllocGlobal, I: Read>(
        &mut self,
        rt: &P,
        line: &CommandLine,
        host: &mut Host<I>,
        key: &StoreKey,
        wanted: Wanted,
    ) -> Result<(), HostError>
        requires { host.old.compiled ≡ 0 }
        ensures { host.new.compiled ≤ 1 }
    {
        let names = key.names.clone()?;
        let dir = line.dir.clone()?;
        let made = self.made_by(rt, line, host, wanted.paths.as_slice())?;
        if let Some(rustc) = self.tool.rustc.as_mut() {
            rustc.outputs = Some(RecordedCrate {
                words: wanted.words,
                dir,
                names,
                made,
            });
        }
        Ok(())
    }

    /// Has the host compile where it didn't yet. False where it did, or nothing was asked for.
    pub fn compile<P: Print + Files<File = File> + AllocGlobal, I: Read>(
        &mut self,
        rt: &P,
        line: &CommandLine,
        host: &mut Host<I>,
        key: Option<&StoreKey>,
    ) -> Result<bool, HostError>
        requires { host.old.compiled ≤ 1 }
        ensures once { host.new.compiled ≤ 1 }
    {
        if host.compiled() != 0 {
            return Ok(false);
        }
        let (Some(key), Some(wanted)) = (key, self.tool.wanted.take()) else {
            return Ok(false);
        };
        self.record_crate(rt, line, host, key, wanted)?;
        Ok(true)
    }

    /// The contents of the text on dependencies that the compile wrote; nothing where none is asked for, or there.
    pub fn written_dep_info<R: Files + AllocGlobal>(
        &self,
        rt: &R,
    ) -> Result<Option<Vec<u8>>, HostError> {
        match &self.dep_info {
            Some(path) => Ok(read_whole(rt, text_in(path)?).ok()),
            None => Ok(None),
        }
    }
}
