//! Manifests by what is watched of their results: a result is used only where its compiler would find the same files now.

ghost use Rattle.std.specs.Prelude.{◌≡◌};

use crate::known::Known;
use base_files::OsBytes;
use base_formats::put_framed;
use cache_dir::{CacheDirError, digest_of};
use cache_files::manifests::FoundManifest;
use cache_files::{manifest_under, put_manifest};
use cache_format::KeptMessages;
use cache_host::{CommandLine, Host, HostError, messages_of, words_of};
use cache_searched_folders::{AskingSources, EnteredNames, Source, TextFiles, said_of};
use cache_source_files::{keep_shared, load_all};
use cache_watch_lists::{
    Unwatched, WatchedResult, lists_renewed, looks_for_result, noted_and_rows, with_list,
    with_results_of, without,
};
use cache_written_lines::NamedFile;
use ckeys_include_records::PreprocessorCacheEntry;
use ckeys_include_records::entry_key::EntryKey;
use cmdlines_tables::CCompilerKind;
use cmdlines_tables::language::{language_to_clang_arg, language_to_gcc_arg};
use std::alloc::Global;
use std::io::Read;
use std::rt::Files;
use wrap_base::store_key::{Shape, StoreKey};

/// From how many looks on the states of folders are noted anew: after a checkout all are others, while those into which objects are written
/// change with each call.
const MANY_LOOKS: u64 = 8;

/// The word by which a compiler of that kind takes a source of the language of what is compiled under this key.
fn language_of(kind: CCompilerKind, key: &StoreKey) -> Option<&'static str> {
    let Shape::C(shape) = &key.shape else {
        return None;
    };
    match kind {
        CCompilerKind::Clang => language_to_clang_arg(shape.language),
        _ => language_to_gcc_arg(shape.language),
    }
}

/// Adds a file that a text names. One that couldn't be read is an error.
fn add_file<'a>(file: &'a NamedFile, files: &mut TextFiles<'a>) -> Result<(), Unwatched> {
    let Ok(path) = str::from_utf8(file.path.as_bytes()) else {
        return Err(Unwatched::Path);
    };
    if file.is_missing() {
        return Ok(files.missing.push(path)?);
    }
    let Some(contents) = file.contents() else {
        return Err(Unwatched::Path);
    };
    let (name, contents) = (file.name.as_bytes(), contents.as_bytes());
    Ok(
        files.sources.push(Source {
            name,
            path,
            contents,
        })?,
    )
}

/// The digest of what a preprocessor printed on its standard error, and a compiler on its standard output and its standard error.
fn digest_printed(
    alloc: Global,
    preprocessor: &[u8],
    printed: &[u8],
    errors: &[u8],
) -> Result<String, HostError> {
    let mut row = Vec::new(alloc);
    put_framed(&mut row, preprocessor)?;
    put_framed(&mut row, printed)?;
    put_framed(&mut row, errors)?;
    Ok(digest_of(alloc, row.as_slice())?)
}

/// What a direct hit hangs on beside the files that a text names.
#[derive(Clone, Copy)]
pub struct Watched<'a> {
    /// What to watch of the text.
    pub list: &'a [u8],
    /// What was printed beside its result, where that was a hit.
    pub messages: Option<&'a KeptMessages>,
}

/// The manifest that a disk keeps, which may fit.
#[derive(Drop)]
pub(crate) struct KnownManifest {
    /// Its name, by which the disk was asked already; an empty one where it wasn't.
    name: String,
    /// It without the results that were left out.
    kept: Option<(EntryKey, PreprocessorCacheEntry)>,
    /// It with them, where some were.
    whole: Option<PreprocessorCacheEntry>,
    /// The one that the session put, once it knew the text.
    put: Option<(EntryKey, PreprocessorCacheEntry)>,
    /// What is noted of headers, and what to watch of its results.
    watched: OsBytes,
    /// The digest of the result that was used, where much had to be looked at for it.
    looked_at: Option<OsBytes>,
}

impl KnownManifest {
    /// The disk wasn't asked yet.
    pub(crate) fn new(alloc: Global) -> KnownManifest {
        KnownManifest {
            name: String::new(alloc),
            kept: None,
            whole: None,
            put: None,
            watched: OsBytes::empty(alloc),
            looked_at: None,
        }
    }
}

impl KnownManifest {
    /// Has these results alone in the place of those that it has, which stay in it as a whole where no others were left out before.
    fn leave_out(&mut self, rest: PreprocessorCacheEntry) {
        if let Some((key, entry)) = self.kept.take() {
            self.kept = Some((key, rest));
            if self.whole.is_none() {
                self.whole = Some(entry);
            }
        }
    }
}

impl Known {
    /// A copy of the manifest that the session is to have, where direct mode is on: the one that is kept, or, once the compiler ran, the one
    /// that it put before. By that the key is known without another walk over the text.
    pub fn manifest_again(&self) -> Result<Option<(EntryKey, PreprocessorCacheEntry)>, HostError> {
        let held = match self.tool.outputs.is_some() && self.record.put.is_some() {
            true => &self.record.put,
            false => &self.record.kept,
        };
        match (&self.zone, held) {
            (Some(_), Some((key, entry))) => Ok(Some((key.clone()?, entry.clone()?))),
            (_, _) => Ok(None),
        }
    }

    /// Takes a copy of the manifest that the session put, where it did.
    pub fn take_put(
        &mut self,
        newest: Option<&(EntryKey, PreprocessorCacheEntry)>,
    ) -> Result<(), HostError> {
        if let Some((key, entry)) = newest {
            self.record.put = Some((key.clone()?, entry.clone()?));
        }
        Ok(())
    }

    /// The manifest that the session put in an earlier attempt, where it did.
    pub fn put_before(&self) -> Option<&(EntryKey, PreprocessorCacheEntry)> {
        self.record.put.as_ref()
    }

    /// Whether no manifest is known of those calls.
    pub fn lacks_manifest(&self) -> bool {
        self.record.kept.is_none() && self.record.whole.is_none()
    }

    /// Has the files loaded that a manifest names. False where one of them can't be determined.
    fn load_files_of<R: Files + AllocGlobal>(
        &mut self,
        rt: &R,
        line: &CommandLine,
        found: &FoundManifest,
    ) -> Result<bool, HostError> {
        let noted = noted_and_rows(found.watched.as_bytes()).0;
        self.tokens.take_rows(rt.alloc(), noted)?;
        let names = found.names.as_slice();
        load_all(rt, line, names, &mut self.files, &mut self.tokens)
    }

    /// Has the files that a manifest names loaded, then takes the manifest. False where one of the files can't be determined.
    pub fn take_manifest<R: Files + AllocGlobal>(
        &mut self,
        rt: &R,
        line: &CommandLine,
        found: FoundManifest,
    ) -> Result<bool, HostError> {
        let are_loaded = self.load_files_of(rt, line, &found);
        if !matches!(are_loaded, Ok(true)) {
            drop(found);
            return are_loaded;
        }
        self.record.kept = Some((found.key, found.entry));
        self.record.watched = found.watched;
        Ok(true)
    }

    /// Asks the disk for the manifest of that name, once, and for the files that it names. False where it has none.
    pub fn look_up_manifest<R: Files + AllocGlobal>(
        &mut self,
        rt: &R,
        line: &CommandLine,
        name: String,
    ) -> Result<bool, HostError> {
        if self.record.name == name {
            return Ok(false);
        }
        let found = manifest_under(rt, &line.folder, line.zone.as_str(), name.as_str());
        self.record = KnownManifest::new(rt.alloc());
        self.record.name = name;
        match found {
            Ok(Some(found)) => self.take_manifest(rt, line, found),
            Ok(None) => Ok(false),
            Err(CacheDirError::Memory) => Err(HostError::Memory),
            Err(_) => Ok(false),
        }
    }

    /// The name of this request's manifest; an empty one where it has none.
    pub fn name_to_note(&self) -> &str {
        match &self.zone {
            Some(_) => self.record.name.as_str(),
            None => "",
        }
    }

    /// Lets go of the manifest by which a key is known that nothing is kept under, since the text is needed then. False where no key came
    /// from a manifest.
    pub fn drop_manifest(&mut self) -> bool {
        if self.tool.text.is_some() {
            return false;
        }
        let Some((_, entry)) = self.record.kept.take() else {
            return false;
        };
        // Its other results stay in the manifest that is put then.
        if self.record.whole.is_none() {
            self.record.whole = Some(entry);
        }
        true
    }

    /// The digest of messages: those of a kept result, or else those of this call.
    fn digest_of_messages(
        &self,
        alloc: Global,
        kept: Option<&KeptMessages>,
    ) -> Result<String, HostError> {
        match kept {
            Some(kept) => digest_printed(
                alloc,
                kept.preprocessor.as_bytes(),
                kept.printed.as_bytes(),
                kept.errors.as_bytes(),
            ),
            None => digest_printed(
                alloc,
                self.preprocessor.as_bytes(),
                self.printed.as_bytes(),
                self.errors.as_bytes(),
            ),
        }
    }

    /// Whether the key is known by a manifest alone.
    fn goes_by_manifest(&self) -> bool {
        self.tool.text.is_none() && self.record.kept.is_some()
    }

    /// Whether what lies under this key may be given with these messages, where it is known by a manifest alone: the compiler would find the same
    /// files now, and print the same. Where it wouldn't, that result is left out from now on.
    pub fn may_go_by_manifest<R: Files + AllocGlobal>(
        &mut self,
        rt: &R,
        line: &CommandLine,
        key: Option<&StoreKey>,
        messages: Option<&KeptMessages>,
    ) -> Result<bool, HostError> {
        let (Some(key), true) = (key, self.goes_by_manifest()) else {
            return Ok(true);
        };
        let messages = self.digest_of_messages(rt.alloc(), messages)?;
        let Some((_, entry)) = &self.record.kept else {
            return Ok(true);
        };
        let (dir, digest) = (line.dir.as_bytes(), key.digest.as_bytes());
        let rows = noted_and_rows(self.record.watched.as_bytes()).1;
        let (messages, before) = (messages.as_bytes(), line.settled_before());
        if let Some(looks) = looks_for_result(rt, dir, rows, digest, messages, before)? {
            if looks >= MANY_LOOKS {
                self.record.looked_at = Some(key.digest.clone()?);
            }
            return Ok(true);
        }
        let rest = without(rt.alloc(), entry, digest)?;
        self.record.leave_out(rest);
        self.looked_up = None;
        Ok(false)
    }

    /// The files that the text names.
    fn text_files(&self, alloc: Global) -> Result<TextFiles<'_>, Unwatched> {
        if !self.named.are_all {
            return Err(Unwatched::Computed);
        }
        let mut files = TextFiles::new(alloc);
        for file in self.named.files.iter() {
            add_file(file, &mut files)?;
        }
        Ok(files)
    }

    /// Those of them that aren't there, or that the text takes in, or may take in: a file that only a `#line` directive names isn't read.
    fn entered_files(&self, alloc: Global, text: &[u8]) -> Result<TextFiles<'_>, Unwatched> {
        let names = EnteredNames::of(alloc, text)?;
        let mut files = TextFiles::new(alloc);
        let mut is_input = true;
        for file in self.named.files.iter() {
            if is_input || file.is_missing() || names.may_have(file.name.as_bytes()) {
                add_file(file, &mut files)?;
            }
            is_input = false;
        }
        Ok(files)
    }

    /// The sources of the text, and what they ask for. Where that can't be determined, files that the text doesn't take in don't count.
    fn asking_sources<'a>(
        &'a self,
        alloc: Global,
        line: &'a CommandLine,
    ) -> Result<AskingSources<'a>, Unwatched> {
        let words = line.words.as_slice();
        let files = self.text_files(alloc)?;
        let count = files.sources.len();
        let asking = AskingSources::of(alloc, words, files);
        let is_unknown = matches!(&asking, Err(Unwatched::Computed | Unwatched::Pasted));
        let text = match &self.tool.text {
            Some(recorded) if is_unknown => recorded.printed.text.as_bytes(),
            _ => return asking,
        };
        let entered = self.entered_files(alloc, text)?;
        match entered.sources.len() == count {
            true => asking,
            false => AskingSources::of(alloc, words, entered),
        }
    }

    /// The text once more, with a line for each include. None where the preprocessor fails.
    fn text_with_includes<P: Print + Files + AllocGlobal, I: Read>(
        &self,
        rt: &P,
        line: &CommandLine,
        host: &mut Host<I>,
    ) -> Result<Option<Vec<u8>>, HostError>
        ensures { host.new.compiled ≡ host.old.compiled }
    {
        let mut words = words_of(rt.alloc(), &["-dI"])?;
        for word in self.words_for_text(rt.alloc(), line)?.as_slice() {
            words.push(word.clone()?)?;
        }
        match messages_of(rt, line, host, words.as_slice())?.status {
            0 => Ok(Some(self.printed_text(rt, line)?)),
            _ => Ok(None),
        }
    }

    /// What to watch of the text that was printed. The compiler runs where it didn't say yet where it looks, and prints the text once more
    /// where it isn't clear what its sources include.
    pub fn list_to_watch<P: Print + Files + AllocGlobal, I: Read>(
        &mut self,
        rt: &P,
        line: &CommandLine,
        host: &mut Host<I>,
        key: &StoreKey,
    ) -> Result<Vec<u8>, Unwatched>
        ensures { host.new.compiled ≡ host.old.compiled }
    {
        if line.folder.is_read_only {
            return Err(Unwatched::List);
        }
        let Some(language) = language_of(self.kind, key) else {
            return Err(Unwatched::List);
        };
        let before = line.settled_before();
        self.named.read(rt);
        self.are_unchanged = self.named.are_unchanged(rt);
        if !self.are_unchanged {
            return Err(Unwatched::Changed);
        }
        let said = said_of(rt, line, host, language, before)?;
        let asking = self.asking_sources(rt.alloc(), line)?;
        let text = match asking.are_clear {
            true => Ok(Some(Vec::new(rt.alloc()))),
            false => self.text_with_includes(rt, line, host),
        };
        match text {
            Ok(Some(text)) => asking.list(rt, line, said.as_slice(), text.as_slice(), before),
            Err(HostError::Memory) => Err(Unwatched::Memory),
            Ok(None) | Err(_) => Err(Unwatched::Computed),
        }
    }

    /// Keeps a manifest that the session put, in which that is what to watch of the text of this key, with the results that were left out.
    pub fn keep_manifest<R: Files + AllocGlobal>(
        &self,
        rt: &R,
        line: &CommandLine,
        newest: &(EntryKey, PreprocessorCacheEntry),
        key: &StoreKey,
        watched: Watched<'_>,
    ) -> Result<(), HostError> {
        let alloc = rt.alloc();
        let whole = match &self.record.whole {
            Some(whole) => with_results_of(alloc, &newest.1, whole)?,
            None => newest.1.clone()?,
        };
        let messages = self.digest_of_messages(alloc, watched.messages)?;
        let result = WatchedResult {
            key: key.digest.as_bytes(),
            messages: messages.as_bytes(),
            list: watched.list,
        };
        let lists = with_list(
            alloc,
            noted_and_rows(self.record.watched.as_bytes()).1,
            &whole,
            line.dir.as_bytes(),
            result,
        )?;
        self.put_whole(rt, line, &newest.0, &whole, lists.as_slice())
    }

    /// Puts a manifest with these lists, which come after what is noted of its headers, and keeps what is noted for other calls in the folder.
    fn put_whole<R: Files + AllocGlobal>(
        &self,
        rt: &R,
        line: &CommandLine,
        key: &EntryKey,
        entry: &PreprocessorCacheEntry,
        lists: &[u8],
    ) -> Result<(), HostError> {
        let alloc = rt.alloc();
        let mut watched = Vec::new(alloc);
        put_framed(&mut watched, b"")?;
        put_framed(&mut watched, self.tokens.rows(alloc)?.as_slice())?;
        watched.extend_from_slice(lists)?;
        let (folder, zone) = (&line.folder, line.zone.as_str());
        let watched = OsBytes::from_vec(watched);
        put_manifest(rt, folder, zone, self.name_to_note(), key, entry, watched)?;
        // What isn't kept is digested again.
        let _ = keep_shared(rt, line, &self.tokens);
        Ok(())
    }

    /// The lists of the manifest that was used, with the present states for its result where much had to be looked at.
    fn lists_now<R: Files + AllocGlobal>(
        &self,
        rt: &R,
        line: &CommandLine,
    ) -> Result<Vec<u8>, HostError> {
        let rows = noted_and_rows(self.record.watched.as_bytes()).1;
        let Some(digest) = &self.record.looked_at else {
            return Ok(Vec::from_slice(rt.alloc(), rows)?);
        };
        let (dir, digest) = (line.dir.as_bytes(), digest.as_bytes());
        Ok(lists_renewed(rt, dir, rows, digest, line.settled_before())?)
    }

    /// Keeps what was noted anew of the headers and the folders of a manifest that was used. False where nothing was.
    pub fn keep_noted<R: Files + AllocGlobal>(
        &self,
        rt: &R,
        line: &CommandLine,
    ) -> Result<bool, HostError> {
        let Some((key, entry)) = &self.record.kept else {
            return Ok(false);
        };
        if !self.tokens.are_new && self.record.looked_at.is_none() {
            return Ok(false);
        }
        let entry = match &self.record.whole {
            Some(whole) => whole,
            None => entry,
        };
        let lists = self.lists_now(rt, line)?;
        self.put_whole(rt, line, key, entry, lists.as_slice())?;
        Ok(true)
    }
}
