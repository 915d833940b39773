//! What is known of a request, more from attempt to attempt.

ghost use Rattle.std.specs.Prelude.{◌≡◌, ◌≤◌};

use crate::audits::Audited;
use crate::kept::Hint;
use crate::manifests::KnownManifest;
use base_files::{Files as CallFiles, Listed, OsBytes};
use base_snapshots::SnapshotFiles;
use cache_disk::read_whole;
use cache_files::results::Kept;
use cache_format::KeptMessages;
use cache_host::{CommandLine, Ended, Host, HostError, text_in};
use cache_known_options::text_words::text_words;
use cache_known_options::{Beside, Dependencies};
use cache_source_files::{Tokens, contents_at, load, load_named, names_files_of, regular};
use cache_unkept_texts::takes_files;
use cache_watch_lists::Unwatched;
use cache_written_lines::{NamedFiles, Sources, digest_of_contents};
use ckeys::needs_c_preprocessing;
use ckeys_records::{Printed, Step};
use ckeys_time_macros::Zone;
use ckeys_time_macros::holds::holds;
use cmdlines_tables::CCompilerKind;
use std::alloc::Global;
use std::fs::File;
use std::io::Read;
use std::rt::Files;
use wrap_base::store_key::{Shape, StoreKey};
use wrap_base::{How, Output};
use wrap_replay_base::{RecordedOutputs, RecordedText, ReplayTool, Wanted};

/// What a call was answered with: outputs, where they come from, and what was printed beside kept ones.
#[derive(Clone, Copy)]
pub struct Given<'a> {
    pub how: How,
    pub outputs: &'a [Output],
    pub messages: Option<&'a KeptMessages>,
}

/// Files and answers that are known so far.
#[derive(Drop)]
pub struct Known {
    pub kind: CCompilerKind,
    /// Whether the compiler takes the word by which its messages are in colour.
    takes_color: bool,
    /// What the words say of files beside the object; nothing where those words are passed to the session.
    pub beside: Option<Beside>,
    /// The time zone of dates, where direct mode is on.
    pub zone: Option<Zone>,
    /// Why no manifest says of what the text is made, where direct mode was on.
    pub unwatched: Option<Unwatched>,
    /// The folders that don't count.
    pub basedirs: Listed<OsBytes>,
    pub files: SnapshotFiles,
    /// What stands for the contents of headers.
    pub(crate) tokens: Tokens,
    pub tool: ReplayTool,
    /// What a disk keeps that may fit.
    pub entry: Option<Kept>,
    /// The digest by which the disk was asked already.
    pub looked_up: Option<OsBytes>,
    /// The manifest that a disk keeps, which may fit.
    pub(crate) record: KnownManifest,
    /// What this command line had last, once the disk was asked.
    pub hint: Option<Hint>,
    /// The hit that is compiled too.
    pub audited: Option<Audited>,
    /// The file that was loaded last.
    loaded: Option<OsBytes>,
    /// The files that the text names, once it was printed, or an input that is compiled as it is.
    pub(crate) named: NamedFiles,
    /// Whether these were found unchanged, after the compile where one ran.
    pub(crate) are_unchanged: bool,
    /// The files of the text, as the compiler lists them for a dependency file; nothing where none is asked for.
    pub(crate) list: OsBytes,
    /// The dependency file that the compile wrote.
    pub(crate) written: Option<OsBytes>,
    /// The other files that it wrote beside the object, each by its ending and its contents.
    pub(crate) side_made: Listed<(OsBytes, OsBytes)>,
    /// What the preprocessor printed on its standard error; nothing where it didn't run.
    pub(crate) preprocessor: OsBytes,
    /// What the compile printed on its standard output and its standard error; nothing where it didn't run.
    pub printed: OsBytes,
    pub errors: OsBytes,
    /// How many microseconds the compile took; nothing where it didn't run.
    pub(crate) compile_time: Option<u64>,
}

impl Known {
    /// Nothing is known yet.
    pub fn new(
        alloc: Global,
        kind: CCompilerKind,
        takes_color: bool,
        beside: Option<Beside>,
        zone: Option<Zone>,
        basedirs: Listed<OsBytes>,
    ) -> Known {
        Known {
            kind,
            takes_color,
            beside,
            zone,
            unwatched: None,
            basedirs,
            files: SnapshotFiles::new(alloc),
            tokens: Tokens::new(alloc),
            tool: ReplayTool::new(),
            entry: None,
            looked_up: None,
            record: KnownManifest::new(alloc),
            hint: None,
            audited: None,
            loaded: None,
            named: NamedFiles::new(alloc),
            are_unchanged: false,
            list: OsBytes::empty(alloc),
            written: None,
            side_made: Listed::new(alloc),
            preprocessor: OsBytes::empty(alloc),
            printed: OsBytes::empty(alloc),
            errors: OsBytes::empty(alloc),
            compile_time: None,
        }
    }

    /// How many microseconds the last compile of this command line took; 0 where that isn't known.
    pub fn compile_time(&self) -> u64 {
        match (self.compile_time, &self.hint) {
            (Some(time), _) => time,
            (None, Some(had)) => had.compile_time,
            (None, None) => 0,
        }
    }

    /// Whether this command line is known to have had this digest and manifest last.
    pub fn has_hint(&self, digest: &OsBytes, manifest_name: &str) -> bool {
        match &self.hint {
            Some(had) => had.digest == *digest && had.manifest_name.as_str() == manifest_name,
            None => false,
        }
    }

    /// Turns direct mode off.
    fn turn_off(&mut self, why: Unwatched) {
        if self.zone.take().is_some() {
            self.unwatched = Some(why);
        }
    }

    /// Whether a file that the text names has the macro of the time of day: of such a text the session puts no manifest.
    fn has_time(&mut self, alloc: Global) -> bool {
        for file in self.named.files.iter() {
            if let Ok(Some(contents)) = self.files.read(alloc, &file.path) {
                if holds(contents.as_bytes(), b"__TIME__") {
                    return true;
                }
            }
        }
        false
    }

    /// Notes why the session put no manifest for outputs that come from there, where that is known.
    pub fn note_unrecorded(&mut self, alloc: Global, how: How) {
        if self.zone.is_some() && how != How::Direct && self.has_time(alloc) {
            self.unwatched = Some(Unwatched::Time);
        }
    }

    /// Loads the file of that path, as it is there or not. Where that can't be determined direct mode goes off. False where it was the last
    /// one already.
    pub fn load<R: Files + AllocGlobal>(
        &mut self,
        rt: &R,
        path: OsBytes,
    ) -> Result<bool, HostError> {
        if matches!(&self.loaded, Some(last) if *last == path) {
            return Ok(false);
        }
        self.loaded = Some(path.clone()?);
        self.tokens.take_whole(path.clone()?)?;
        if !load(rt, path, &mut self.files)? {
            self.turn_off(Unwatched::Device);
        }
        Ok(true)
    }

    /// Loads what the text printed last names. Direct mode is turned off where it isn't certain what was read for it.
    pub fn follow_text<R: Files + AllocGlobal>(
        &mut self,
        rt: &R,
        line: &CommandLine,
    ) -> Result<(), HostError> {
        self.named.read(rt);
        if !load_named(rt, line, &self.named, &mut self.files, &mut self.tokens)? {
            self.turn_off(Unwatched::Changed);
        }
        Ok(())
    }

    /// Takes an input that is compiled as it is, as it was loaded. One that includes files is refused.
    fn take_input<R: Files + AllocGlobal>(
        &mut self,
        rt: &R,
        key: &StoreKey,
    ) -> Result<(), HostError> {
        let (false, Some(path)) = (is_preprocessed(key), &self.loaded) else {
            return Ok(());
        };
        let Ok(Some(contents)) = self.files.read(rt.alloc(), path) else {
            return Err(HostError::Changed);
        };
        if takes_files(contents.as_bytes()) {
            return Err(HostError::TakesFiles);
        }
        self.named = NamedFiles::of_input(rt, path.clone()?, contents)?;
        Ok(())
    }

    /// Whether an input that is compiled as it is has the contents that were loaded of it.
    fn has_loaded_input<R: Files + AllocGlobal>(&self, rt: &R) -> bool {
        let (None, Some(input)) = (&self.tool.text, self.named.files.first()) else {
            return true;
        };
        match str::from_utf8(input.path.as_bytes()) {
            Ok(place) => contents_at(rt, place).as_ref() == input.contents(),
            Err(_) => false,
        }
    }

    /// The path of the dependency file, where one is asked for.
    pub fn dependency_file(&self) -> Option<&OsBytes> {
        match &self.beside {
            Some(beside) => beside.dependencies.file.as_ref(),
            None => None,
        }
    }

    /// Whether a dependency file is to be there after a compile under this key. Of an input that isn't preprocessed none is written.
    fn wants_dependencies(&self, key: Option<&StoreKey>) -> bool {
        if key.is_some_and(|key| !is_preprocessed(key)) {
            return false;
        }
        match self.dependency_file() {
            Some(path) => !matches!(path.as_bytes(), b"/dev/null"),
            None => false,
        }
    }

    /// Whether messages may be printed again: a line that they quote is as it was. By a manifest all files are as they were.
    fn may_print_again<R: Files + AllocGlobal>(
        &mut self,
        rt: &R,
        messages: &KeptMessages,
    ) -> Result<bool, HostError> {
        if messages.sources.is_none() || self.tool.text.is_none() {
            return Ok(true);
        }
        Ok(self.digest_of_sources(rt)? == messages.sources)
    }

    /// Whether outputs may be given that were kept beside these. Where they may not, they are a miss from now on.
    pub fn may_give<R: Files + AllocGlobal>(
        &mut self,
        rt: &R,
        key: Option<&StoreKey>,
        messages: Option<&KeptMessages>,
    ) -> Result<bool, HostError> {
        let Some(messages) = messages else {
            return Ok(true);
        };
        let is_whole = messages.dependencies.is_some() || !self.wants_dependencies(key);
        if is_whole && self.may_print_again(rt, messages)? {
            return Ok(true);
        }
        if let Some(key) = key {
            self.looked_up = Some(key.digest.clone()?);
        }
        Ok(false)
    }

    /// The words by which the compiler prints the text, and lists the files that it read where a dependency file is asked for.
    pub(crate) fn words_for_text(
        &self,
        alloc: Global,
        line: &CommandLine,
    ) -> Result<Listed<OsBytes>, HostError> {
        let Some(beside) = &self.beside else {
            return Ok(text_words(alloc, line.words.as_slice(), None)?);
        };
        let Dependencies { others, file, .. } = &beside.dependencies;
        let list = file.as_ref().map(|_| line.list.as_str());
        Ok(text_words(alloc, others.as_slice(), list)?)
    }

    /// The digest of what lies under all names that the text has: a message quotes a line of the file that a marker or a `#line` names, where
    /// it lies there. Nothing where that can't be determined.
    fn digest_of_sources<R: Files + AllocGlobal>(
        &mut self,
        rt: &R,
    ) -> Result<Option<OsBytes>, HostError> {
        self.named.read(rt);
        let sources = Sources::of(rt.alloc(), &mut self.named)?;
        if !sources.are_known() {
            return Ok(None);
        }
        Ok(Some(digest_of_contents(rt.alloc(), &sources)?))
    }

    /// Has the host preprocess by the caller's own words, and records the text as that of the session's.
    fn record_text<P: Print + Files + AllocGlobal, I: Read>(
        &mut self,
        rt: &P,
        line: &CommandLine,
        host: &mut Host<I>,
        words: Listed<OsBytes>,
    ) -> Result<(), HostError>
        ensures { host.new.compiled ≡ host.old.compiled }
    {
        let own = self.words_for_text(rt.alloc(), line)?;
        let ended = host.preprocess(rt, rt.alloc(), own.as_slice())?;
        self.preprocessor = printed_at(rt, &ended, line.errors.as_str())?;
        let text = OsBytes::from_vec(self.text_at(rt, line)?);
        let status = ended.status;
        self.tool.text = Some(RecordedText {
            kind: self.kind,
            words,
            printed: Printed { status, text },
        });
        Ok(())
    }

    /// What the preprocessor printed on its standard error, where it ran.
    pub fn messages_beside_text(&self) -> Option<&[u8]> {
        self.tool
            .text
            .as_ref()
            .map(|_| self.preprocessor.as_bytes())
    }

    /// Whether the preprocessor printed a text: an input that it only hands on to a linker has none.
    fn has_text(&self) -> bool {
        match &self.tool.text {
            Some(recorded) => !recorded.printed.text.as_bytes().is_empty(),
            None => false,
        }
    }

    /// The words by which the host compiles: the caller's own, followed by the one for colours, where the session's have it, the compiler
    /// takes it, and there is a text to which that compiler has something to say.
    pub(crate) fn own_words(
        &self,
        alloc: Global,
        line: &CommandLine,
        words: &[OsBytes],
    ) -> Result<Listed<OsBytes>, HostError> {
        let mut own = Listed::new(alloc);
        for word in line.words.as_slice() {
            own.push(word.clone()?)?;
        }
        let color = self.kind.color_word().unwrap_or("");
        if self.takes_color && self.has_text() && has_word(words, color) {
            own.push(OsBytes::from_slice(alloc, color.as_bytes())?)?;
        }
        Ok(own)
    }

    /// Takes the dependency file that the compile wrote. What is missing, or names files that the text doesn't have, isn't kept.
    pub(crate) fn take_written<R: Files + AllocGlobal>(
        &mut self,
        rt: &R,
        key: &StoreKey,
    ) -> Result<(), HostError> {
        if !self.wants_dependencies(Some(key)) {
            return Ok(());
        }
        let Some(path) = self.dependency_file() else {
            return Ok(());
        };
        let Some(written) = regular(rt, text_in(path)?) else {
            return Err(HostError::Changed);
        };
        if !names_files_of(rt.alloc(), written.as_bytes(), self.list.as_bytes())? {
            return Err(HostError::Changed);
        }
        self.written = Some(written);
        Ok(())
    }

    /// Has the host compile by the caller's own words, and records what was made of these names at these paths as what the session's words
    /// make.
    fn record_outputs<P: Print + Files<File = File> + AllocGlobal, I: Read>(
        &mut self,
        rt: &P,
        line: &CommandLine,
        host: &mut Host<I>,
        key: &StoreKey,
        wanted: Wanted,
    ) -> Result<(), HostError>
        requires { host.old.compiled ≡ 0 }
        ensures { host.new.compiled ≤ 1 }
    {
        let names = key.names.clone()?;
        let made = self.made_by(rt, line, host, key, &wanted)?;
        self.tool.outputs = Some(RecordedOutputs {
            kind: self.kind,
            words: wanted.words,
            names,
            made,
        });
        Ok(())
    }

    /// Has the host compile where it didn't yet, and records what was made. False where it did.
    fn record_once<P: Print + Files<File = File> + AllocGlobal, I: Read>(
        &mut self,
        rt: &P,
        line: &CommandLine,
        host: &mut Host<I>,
        key: &StoreKey,
        wanted: Wanted,
    ) -> Result<bool, HostError>
        requires { host.old.compiled ≤ 1 }
        ensures { host.new.compiled ≤ 1 }
    {
        if host.compiled() != 0 {
            return Ok(false);
        }
        self.take_input(rt, key)?;
        self.record_outputs(rt, line, host, key, wanted)?;
        Ok(true)
    }

    /// Refuses what was made where a file that the text names, or an input that is compiled as it is, was changed meanwhile.
    pub(crate) fn check_sources<R: Files + AllocGlobal>(&self, rt: &R) -> Result<(), HostError> {
        let are_unchanged = self.are_unchanged || self.named.are_unchanged(rt);
        match are_unchanged && self.has_loaded_input(rt) {
            true => Ok(()),
            false => Err(HostError::Changed),
        }
    }

    /// Whether the compile printed nothing.
    fn was_silent(&self) -> bool {
        self.printed.as_bytes().is_empty() && self.errors.as_bytes().is_empty()
    }

    /// Copies of what was printed and written beside the outputs that the compiler made. Messages that might be different
    /// in another call are an error.
    pub fn messages<R: Files + AllocGlobal>(&mut self, rt: &R) -> Result<KeptMessages, HostError> {
        self.check_sources(rt)?;
        if self.shows_names() {
            return Err(HostError::Quotes);
        }
        let mut sources = None;
        if !self.was_silent() {
            if self.tool.text.is_some() {
                sources = self.digest_of_sources(rt)?;
            }
            if sources.is_none() {
                return Err(HostError::Quotes);
            }
        }
        Ok(KeptMessages {
            preprocessor: self.preprocessor.clone()?,
            printed: self.printed.clone()?,
            errors: self.errors.clone()?,
            dependencies: match &self.written {
                Some(written) => Some(written.clone()?),
                None => None,
            },
            sources,
            side_files: self.side_made.clone()?,
        })
    }

    /// Has the host run what the tool lacks. False where it lacks nothing, or would compile once more.
    pub fn record<P: Print + Files<File = File> + AllocGlobal, I: Read>(
        &mut self,
        rt: &P,
        line: &CommandLine,
        host: &mut Host<I>,
        key: Option<&StoreKey>,
    ) -> Result<bool, HostError>
        requires { host.old.compiled ≤ 1 }
        ensures { host.new.compiled ≤ 1 }
    {
        let Some(wanted) = self.tool.wanted.take() else {
            return Ok(false);
        };
        match (wanted.step, key) {
            (Step::Preprocess, _) => {
                self.record_text(rt, line, host, wanted.words)?;
                Ok(true)
            }
            (Step::Compile, Some(key)) => self.record_once(rt, line, host, key, wanted),
            (_, _) => Ok(false),
        }
    }
}

/// Whether a word is among these.
fn has_word(words: &[OsBytes], word: &str) -> bool {
    words.iter().any(|it| it.as_bytes() == word.as_bytes())
}

/// Whether what is compiled under this key was preprocessed.
fn is_preprocessed(key: &StoreKey) -> bool {
    match &key.shape {
        Shape::C(shape) => needs_c_preprocessing(shape.language),
        Shape::Rustc(_) => false,
    }
}

/// What a command printed there.
pub(crate) fn printed_at<R: Files + AllocGlobal>(
    rt: &R,
    ended: &Ended,
    place: &str,
) -> Result<OsBytes, HostError> {
    if ended.silent {
        return Ok(OsBytes::empty(rt.alloc()));
    }
    Ok(OsBytes::from_vec(read_whole(rt, place)?))
}
