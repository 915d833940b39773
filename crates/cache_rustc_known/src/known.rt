//! What is known of a call of rustc, more from attempt to attempt.

use crate::audits::AuditedCrate;
use base_files::{FileTime, Files as CallFiles, Listed, Metadata, OsBytes, join};
use base_snapshots::{LoadedFile, SnapshotFiles};
use cache_disk::State;
use cache_host::{CommandLine, HostError, text_in};
use cache_rustc_requests::{FoundCrate, PartRows, Wishes, name_of_parts, note_parts};
use cache_source_files::{Tokens, regular, token_of};
use rustc_options::parsed::ParsedArguments;
use rustc_texts::{dep_info_words, kept_words};
use std::alloc::Global;
use std::fs;
use std::rt::Files;
use wrap_replay_base::{RecordedRustc, ReplayTool};

/// Files and answers that are known so far.
#[derive(Drop)]
pub struct KnownCrate {
    /// Files, each by the digest of its contents.
    pub files: SnapshotFiles,
    pub tool: ReplayTool,
    /// What stands for the contents of sources.
    pub(crate) tokens: Tokens,
    /// What a disk keeps that may fit.
    pub found: Option<FoundCrate>,
    /// The digest by which the disk was asked already.
    pub looked_up: Option<OsBytes>,
    /// What was printed beside the kept outputs that the session had.
    pub found_errors: Option<OsBytes>,
    /// The hit in whose place rustc runs.
    pub audited: Option<AuditedCrate>,
    /// What the compile printed on its standard error.
    pub errors: OsBytes,
    /// Whether the compile printed something that isn't kept.
    pub is_talking: bool,
    /// The file that was loaded last.
    loaded: Option<OsBytes>,
    /// The files that were loaded, each in the state in which it was.
    states: Vec<(OsBytes, Option<State>)>,
    /// The folder of the outputs, as it is written.
    folder: OsBytes,
    /// How wide the terminal is, as a word gives it.
    width: OsBytes,
    /// Of what the key is made, and the name under which that lies of the call before this one.
    pub parts: PartRows,
    parts_name: String,
    /// The words by which rustc's answers are noted: those that say where crates lie and outputs go don't count.
    pub(crate) naming: Listed<OsBytes>,
    /// Where the text on dependencies goes, where one is asked for.
    pub dep_info: Option<OsBytes>,
}

/// The option that says how wide a terminal is.
const WIDTH: &str = "--diagnostic-width=";

/// How wide the terminal is, as a word gives it, or `none` where no word does.
fn width_in(words: &[OsBytes]) -> &[u8] {
    for word in words {
        if let Some(width) = word.as_bytes().strip_prefix(WIDTH.as_bytes()) {
            return width;
        }
    }
    b"none"
}

/// What a session is given about a file of that size: nothing of its times.
fn metadata_of(size: u64) -> Metadata {
    let time = FileTime::from_seconds(0);
    Metadata {
        size,
        mtime: time,
        ctime: time,
    }
}

/// The token of these contents; a file that looks like one is refused.
fn token_for(alloc: Global, contents: &OsBytes) -> Result<OsBytes, HostError> {
    match token_of(alloc, contents.as_bytes())? {
        Some(token) => Ok(token),
        None => Err(HostError::Unreadable),
    }
}

impl KnownCrate {
    /// Nothing is known yet.
    pub fn new(alloc: Global) -> KnownCrate {
        let mut tool = ReplayTool::new();
        tool.rustc = Some(RecordedRustc::new(alloc));
        KnownCrate {
            files: SnapshotFiles::new(alloc),
            tool,
            tokens: Tokens::new(alloc),
            found: None,
            looked_up: None,
            found_errors: None,
            audited: None,
            errors: OsBytes::empty(alloc),
            is_talking: false,
            loaded: None,
            states: Vec::new(alloc),
            folder: OsBytes::empty(alloc),
            width: OsBytes::empty(alloc),
            parts: PartRows::new(alloc),
            parts_name: String::new(alloc),
            naming: Listed::new(alloc),
            dep_info: None,
        }
    }

    /// Takes what the words of the call say of its outputs.
    pub fn take_words(
        &mut self,
        alloc: Global,
        line: &CommandLine,
        words: &[OsBytes],
        parsed: &ParsedArguments,
    ) -> Result<(), HostError> {
        self.folder = parsed.output_dir.clone()?;
        self.width = OsBytes::from_slice(alloc, width_in(words))?;
        self.parts_name = name_of_parts(alloc, line.dir.as_bytes(), parsed)?;
        self.naming = match parsed.target_json {
            // A file says which target that is.
            Some(_) => dep_info_words(alloc, parsed)?,
            None => kept_words(alloc, parsed)?,
        };
        if let Some(name) = &parsed.dep_info {
            let folder = join(alloc, line.dir.as_bytes(), self.folder.as_bytes())?;
            self.dep_info = Some(join(alloc, folder.as_bytes(), name.as_bytes())?);
        }
        Ok(())
    }

    /// The name under which the parts of its key lie, the same for all calls with these outputs.
    pub(crate) fn parts_name(&self) -> &str {
        self.parts_name.as_str()
    }

    /// What the call wants of what is kept.
    pub fn wishes(&self) -> Wishes<'_> {
        Wishes {
            folder: self.folder.as_bytes(),
            width: self.width.as_bytes(),
        }
    }

    /// Loads a file by what stands for its contents, or as one that isn't there.
    fn put_file(&mut self, path: OsBytes, token: Option<OsBytes>) -> Result<(), HostError> {
        let Some(token) = token else {
            return Ok(self.files.load_absent(path)?);
        };
        let metadata = metadata_of(token.as_bytes().len() as u64);
        let contents = Some(token);
        let canonical = path.clone()?;
        Ok(
            self.files.load(
                path,
                LoadedFile {
                    contents,
                    canonical,
                    metadata,
                },
            )?,
        )
    }

    /// Notes in which state a file is before it is read.
    fn note_state<R: Files>(&mut self, rt: &R, path: &OsBytes) -> Result<(), HostError> {
        let state = State::at(rt, text_in(path)?).ok();
        self.states.push((path.clone()?, state))?;
        Ok(())
    }

    /// Loads the file of that path, by the token of its contents, as it is there or not.
    pub fn load_file<R: Files + AllocGlobal>(
        &mut self,
        rt: &R,
        path: OsBytes,
    ) -> Result<(), HostError> {
        self.note_state(rt, &path)?;
        let token = match regular(rt, text_in(&path)?) {
            Some(contents) => Some(token_for(rt.alloc(), &contents)?),
            None => None,
        };
        self.put_file(path, token)
    }

    /// Loads a source by its token, and notes that for the file's state. False where it can't be known again.
    pub(crate) fn load_and_note<R: Files + AllocGlobal>(
        &mut self,
        rt: &R,
        path: OsBytes,
        began: FileTime,
    ) -> Result<bool, HostError> {
        self.note_state(rt, &path)?;
        let place = text_in(&path)?;
        let (Ok(found), Some(contents)) = (fs::metadata(rt, place), regular(rt, place)) else {
            self.put_file(path, None)?;
            return Ok(false);
        };
        let token = token_for(rt.alloc(), &contents)?;
        self.tokens.note(rt, &path, &found, &token, began)?;
        let is_noted = self.tokens.get(&path, &found).is_some();
        self.put_file(path, Some(token))?;
        Ok(is_noted)
    }

    /// Loads a source by the token that is noted for its state. False where it is in another one.
    pub(crate) fn load_by_state<R: Files + AllocGlobal>(
        &mut self,
        rt: &R,
        path: OsBytes,
    ) -> Result<bool, HostError> {
        self.note_state(rt, &path)?;
        let Ok(found) = fs::metadata(rt, text_in(&path)?) else {
            return Ok(false);
        };
        let Some(token) = self.tokens.get(&path, &found) else {
            return Ok(false);
        };
        let token = token.clone()?;
        self.put_file(path, Some(token))?;
        Ok(true)
    }

    /// Loads a file that a session asked for. False where it is the last one already.
    pub fn load_once<R: Files + AllocGlobal>(
        &mut self,
        rt: &R,
        path: OsBytes,
    ) -> Result<bool, HostError> {
        if matches!(&self.loaded, Some(last) if *last == path) {
            return Ok(false);
        }
        self.loaded = Some(path.clone()?);
        self.load_file(rt, path)?;
        Ok(true)
    }

    /// Loads a crate that the words name: its digest is noted for its state, since others name it too.
    fn load_crate<R: Files + AllocGlobal>(
        &mut self,
        rt: &R,
        line: &CommandLine,
        path: OsBytes,
    ) -> Result<(), HostError> {
        self.note_state(rt, &path)?;
        let place = text_in(&path)?;
        let is_there = fs::metadata(rt, place).is_ok_and(|found| found.is_file());
        let digest = match is_there {
            true => {
                let files = [String::from_str(rt.alloc(), place)?];
                let digest = line.folder.digest_of_files(rt, &files)?;
                Some(OsBytes::from_vec(digest.into_bytes()))
            }
            false => None,
        };
        self.put_file(path, digest)
    }

    /// Loads the crates that the words name.
    pub fn load_crates<R: Files + AllocGlobal>(
        &mut self,
        rt: &R,
        line: &CommandLine,
        parsed: &ParsedArguments,
    ) -> Result<(), HostError> {
        for place in parsed.externs.as_slice() {
            let path = join(rt.alloc(), line.dir.as_bytes(), place.as_bytes())?;
            self.load_crate(rt, line, path)?;
        }
        Ok(())
    }

    /// Notes of what the key was made, for whoever asks why the call was compiled, and reports it.
    pub fn note_parts<R: Files + AllocGlobal>(
        &mut self,
        rt: &R,
        line: &CommandLine,
    ) -> Result<String, HostError> {
        let alloc = rt.alloc();
        for (path, _) in self.states.iter() {
            if let Ok(Some(token)) = self.files.read(alloc, path) {
                let name = format!(in alloc; "file {path}")?;
                self.parts.add(alloc, name.as_str(), token.as_bytes())?;
            }
        }
        note_parts(rt, &line.folder, self.parts_name.as_str(), &self.parts)
    }

    /// Whether all files that were loaded are as they were.
    pub fn are_unchanged<R: Files>(&self, rt: &R) -> Result<bool, HostError> {
        for (path, state) in self.states.iter() {
            if State::at(rt, text_in(path)?).ok() != *state {
                return Ok(false);
            }
        }
        Ok(true)
    }
}
