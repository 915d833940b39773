//! The text by which a call is looked up: what the preprocessor printed, without names of files that the object has in another way
//! (`-ffile-prefix-map`), followed by what it doesn't say of its sources.

use crate::known::Known;
use base_files::OsBytes;
use cache_dir::digest_of;
use cache_disk::read_whole;
use cache_host::{CommandLine, HostError};
use cache_known_options::PrefixMaps;
use cache_settings::Key;
use cache_source_files::{digest_of_list, has_precompiled};
use cache_unkept_texts::{takes_files, tells_time};
use cache_written_lines::{Asked, NamedFiles, Sources, digest_asked, with_plain_names};
use cmdlines_tables::CCompilerKind;
use std::alloc::Global;
use std::fs;
use std::rt::Files;

/// Appends a digest to a text, as lines of a file that doesn't exist. An empty digest isn't appended.
fn push_digest(text: &mut Vec<u8>, name: &str, digest: &[u8]) -> Result<(), HostError> {
    if digest.is_empty() {
        return Ok(());
    }
    text.extend_from_slice(b"\n# 1 \"<")?;
    text.extend_from_slice(name.as_bytes())?;
    text.extend_from_slice(b">\"\n")?;
    Ok(text.extend_from_slice(digest)?)
}

/// Refuses a text by which what is made of it can't be found again.
fn refuse_text(line: &CommandLine, text: &[u8]) -> Result<(), HostError> {
    if takes_files(text) {
        return Err(HostError::TakesFiles);
    }
    if tells_time(text, line.second(), line.zone.as_str()) {
        return Err(HostError::TellsTime);
    }
    Ok(())
}

/// Whether an output may have a name that is mapped.
fn are_in_outputs(maps: &PrefixMaps, outputs: &[Option<OsBytes>]) -> bool {
    for output in outputs {
        match output {
            Some(bytes) if maps.are_in(bytes.as_bytes()) => return true,
            _ => {}
        }
    }
    false
}

impl Known {
    /// The text that a preprocessor printed, with the names of files as they are.
    pub(crate) fn printed_text<R: Files + AllocGlobal>(
        &self,
        rt: &R,
        line: &CommandLine,
    ) -> Result<Vec<u8>, HostError> {
        let text = read_whole(rt, line.text.as_str())?;
        match self.kind {
            CCompilerKind::Clang => Ok(with_plain_names(rt.alloc(), text)?),
            _ => Ok(text),
        }
    }

    /// The digest of the text as it was printed, where that isn't the one with the names of files as they are: what looks like a marker may be a
    /// line of a string, in which a byte and the digits for it aren't the same. An empty one else.
    fn digest_of_printed<R: Files + AllocGlobal>(
        &self,
        rt: &R,
        line: &CommandLine,
        text: &[u8],
    ) -> Result<String, HostError> {
        let size = fs::metadata(rt, line.text.as_str())?.len();
        // A name that is written in another way is longer.
        if size == text.len() as u64 {
            return Ok(String::new(rt.alloc()));
        }
        let printed = read_whole(rt, line.text.as_str())?;
        Ok(digest_of(rt.alloc(), printed.as_slice())?)
    }

    /// The text that was printed, followed by what it doesn't say of its sources: the digest of lines as they were written, and that of the
    /// list of its files, where a dependency file is asked for.
    pub(crate) fn text_at<R: Files + AllocGlobal>(
        &mut self,
        rt: &R,
        line: &CommandLine,
    ) -> Result<Vec<u8>, HostError> {
        let alloc = rt.alloc();
        let text = self.printed_text(rt, line)?;
        refuse_text(line, text.as_slice())?;
        if text.is_empty() {
            return Ok(text);
        }
        self.take_names(rt, line, text.as_slice())?;
        let printed = self.digest_of_printed(rt, line, text.as_slice())?;
        let lines = self.lines_of(rt, line, text.as_slice())?;
        let (mut text, maps) = self.without_folder(alloc, line, text)?;
        push_digest(&mut text, "text as it was printed", printed.as_bytes())?;
        push_digest(&mut text, "lines as they were written", lines.as_bytes())?;
        push_digest(&mut text, "maps of names", maps.as_slice())?;
        self.push_list(rt, line, &mut text)?;
        Ok(text)
    }

    /// Takes the files that a text names. One that may be a precompiled header's is refused.
    fn take_names<R: Files + AllocGlobal>(
        &mut self,
        rt: &R,
        line: &CommandLine,
        text: &[u8],
    ) -> Result<(), HostError> {
        self.named = NamedFiles::of(rt, line.dir.as_bytes(), text)?;
        match has_precompiled(rt, line, &self.named)? {
            true => Err(HostError::Precompiled),
            false => Ok(()),
        }
    }

    /// Appends the digest of the list of the text's files, where a dependency file is asked for.
    fn push_list<R: Files + AllocGlobal>(
        &mut self,
        rt: &R,
        line: &CommandLine,
        text: &mut Vec<u8>,
    ) -> Result<(), HostError> {
        if self.dependency_file().is_none() {
            return Ok(());
        }
        self.list = OsBytes::from_vec(read_whole(rt, line.list.as_str())?);
        let digest = digest_of_list(rt.alloc(), self.list.as_bytes())?;
        push_digest(text, "files for Make", digest.as_bytes())
    }

    /// The digest of what a text doesn't say of its sources, as far as what is made of it hangs on that; an empty one where nothing does.
    fn lines_of<R: Files + AllocGlobal>(
        &mut self,
        rt: &R,
        line: &CommandLine,
        text: &[u8],
    ) -> Result<OsBytes, HostError> {
        let alloc = rt.alloc();
        let asked = Asked::by(self.kind, line.words.as_slice(), text);
        if asked == Asked::Nothing || !line.settings.value_of(Key::Sloppiness).is_empty() {
            return Ok(OsBytes::empty(alloc));
        }
        self.named.read(rt);
        digest_asked(alloc, asked, text, Sources::of(alloc, &mut self.named)?)
    }

    /// The words that map names, where there are some.
    fn maps(&self) -> Option<&PrefixMaps> {
        match &self.beside {
            Some(beside) if !beside.maps.is_empty() => Some(&beside.maps),
            _ => None,
        }
    }

    /// The text without the call's folder, where debug information has another name for it; and the words that map names, where the text may have
    /// one of these, so that they count as well.
    pub(crate) fn without_folder(
        &self,
        alloc: Global,
        line: &CommandLine,
        text: Vec<u8>,
    ) -> Result<(Vec<u8>, Vec<u8>), HostError> {
        let Some(maps) = self.maps() else {
            return Ok((text, Vec::new(alloc)));
        };
        let text = maps.text_without(alloc, line.dir.as_bytes(), text)?;
        let words = match maps.are_in(text.as_slice()) {
            true => maps.words(alloc)?,
            false => Vec::new(alloc),
        };
        Ok((text, words))
    }

    /// Whether what was made or printed may have a name that is mapped, though the text has none.
    pub(crate) fn shows_names(&self) -> bool {
        let (Some(maps), Some(text), Some(outputs)) = (
            self.maps(),
            &self.tool.text,
            &self.tool.outputs,
        ) else {
            return false;
        };
        if maps.are_in(text.printed.text.as_bytes()) {
            return false;
        }
        maps.are_in(self.preprocessor.as_bytes())
            || maps.are_in(self.printed.as_bytes())
            || maps.are_in(self.errors.as_bytes())
            || are_in_outputs(maps, outputs.made.contents.as_slice())
    }
}
