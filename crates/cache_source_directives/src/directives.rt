//! The files that a source asks for by its directives, live or not.
//!
//! Which of them are live depends on macros, so all of them count: those in comments too. Where it isn't clear what is asked for, as where a
//! macro stands for the name, there is no answer.

use crate::guards::guard_after;
use crate::hidden::{PIECE, has_pragma, pastes_probe};
use crate::splices::cuts_names;
use memchr::{memchr, memchr_iter, memmem, memrchr};
use std::alloc::{AllocError, Global};

/// How a compiler looks for a name.
#[derive(Clone, Copy, PartialEq, Eq)]
pub enum Search {
    /// Beside the source that asks, then in the folders for names in quotes, then in those for names in brackets.
    Quoted,
    /// In the folders for names in brackets.
    Bracketed,
    /// In the folders that come after the one in which the source that asks was found; where that was found in none, as by one of the others.
    Next,
}

/// A name that is asked for.
#[derive(Clone, Copy)]
pub struct Asked<'a> {
    pub name: &'a [u8],
    pub search: Search,
}

/// What a source asks for.
#[derive(Drop)]
pub struct Directives<'a> {
    pub asked: Vec<Asked<'a>>,
    /// The macros by which it asks whether a file is there: each hands its parameter on.
    pub probes: Vec<&'a [u8]>,
    /// The macros that stand for names that it includes.
    pub computed: Vec<&'a [u8]>,
    /// The macros without which directives aren't live of which it isn't clear what they include.
    pub guards: Vec<&'a [u8]>,
    /// Whether it isn't clear either what others include, which have no such macro.
    pub is_unclear: bool,
    /// Whether it may be taken in once alone.
    pub is_once: bool,
}

/// By what a source asks whether a file is there.
pub(crate) const PROBE: &[u8] = b"__has_include";

/// How the name of a probe goes on, and whether the probe is then a `_next` one.
const PROBE_ENDS: &[(&str, bool)] = &[
    ("", false),
    ("__", false),
    ("_next", true),
    ("_next__", true),
];

/// The bytes that the spellings of `#` begin with.
pub(crate) const MARKS: [u8; 3] = [b'#', b'%', b'?'];

/// Other spellings of `#`, and what one may begin with whose line goes on.
const OTHER_MARKS: &[&[u8]] = &[b"%:", b"%\\", b"??="];

/// A probe for what may be embedded.
const EMBED_PROBE: &[u8] = b"__has_embed";

/// What a directive does, if it may take in a file.
#[derive(Clone, Copy)]
enum Kind {
    /// It includes one.
    Include,
    /// It includes one from the folders that come after its own.
    IncludeNext,
    /// It includes one that may be taken in once alone.
    Import,
    /// That depends on what comes after it.
    Pragma,
    /// It takes in one in a way that isn't followed.
    Unfollowed,
}

/// The words of these directives.
const KINDS: &[(&str, Kind)] = &[
    ("include", Kind::Include),
    ("include_next", Kind::IncludeNext),
    ("import", Kind::Import),
    ("pragma", Kind::Pragma),
    ("embed", Kind::Unfollowed),
    ("__include_macros", Kind::Unfollowed),
];

/// The pragmas that ask for a file, by their first word and their second one, where that counts. `has_pragma` finds one more wherever its
/// words are.
const FILE_PRAGMAS: &[(&str, Option<&str>)] = &[("clang", Some("module")), ("include_alias", None)];

/// What a source in UTF-8 may begin with.
const BYTE_ORDER_MARK: &[u8] = b"\xef\xbb\xbf";

/// Whether it is a space within a line.
pub(crate) fn is_space(byte: u8) -> bool {
    matches!(byte, b' ' | b'\t' | b'\r' | 0 | 11 | 12)
}

/// Whether the byte may be in a name of a macro.
pub(crate) fn is_letter(byte: u8) -> bool {
    byte.is_ascii_alphanumeric() || byte == b'_' || byte == b'$' || byte >= 128
}

/// What comes after spaces.
pub(crate) fn after_spaces(text: &[u8]) -> &[u8] {
    for (at, byte) in text.iter().enumerate() {
        if !is_space(*byte) {
            return text.get(at..).unwrap_or(&[]);
        }
    }
    &[]
}

/// What comes after the comment at the front of a text. None where it isn't certain where that ends.
fn after_comment(text: &[u8]) -> Option<&[u8]> {
    let inside = text.strip_prefix(b"/*")?;
    let (comment, after) = inside.split_at_checked(memmem::find(inside, b"*/")?)?;
    // The end of a line that goes on may cut the end of a comment in two.
    if comment.contains(&b'\\') || memmem::find(comment, b"??/").is_some() {
        return None;
    }
    after.strip_prefix(b"*/")
}

/// What comes after spaces, and after a comment if one comes then.
pub(crate) fn after_gap(text: &[u8]) -> &[u8] {
    let text = after_spaces(text);
    match after_comment(text) {
        Some(after) => after_spaces(after),
        None => text,
    }
}

/// The word that a text begins with, and what comes after it.
pub(crate) fn word_ahead(text: &[u8]) -> (&[u8], &[u8]) {
    for (at, byte) in text.iter().enumerate() {
        if !is_letter(*byte) {
            return text.split_at_checked(at).unwrap_or((text, &[]));
        }
    }
    (text, &[])
}

/// The text without the spaces that it ends with.
pub(crate) fn before_spaces(text: &[u8]) -> &[u8] {
    match text.iter().rposition(|byte| !is_space(*byte)) {
        Some(last) => text.get(..last.saturating_add(1)).unwrap_or(text),
        None => &[],
    }
}

/// Whether a directive may begin after these bytes of a source: before it, its line has only spaces and the end of a comment, which
/// a line that goes on may cut in two.
pub(crate) fn may_begin_directive(front: &[u8]) -> bool {
    let front = before_spaces(front);
    match front.last() {
        None | Some(b'\n') => true,
        Some(b'/') => front.ends_with(b"*/") || front.ends_with(b"\n/"),
        Some(_) => front == BYTE_ORDER_MARK,
    }
}

/// Whether a text begins with another spelling of `#`, or with what may be one.
fn is_other_mark(text: &[u8]) -> bool {
    for mark in OTHER_MARKS {
        if text.starts_with(mark) {
            return true;
        }
    }
    false
}

/// Whether a text begins with the other spelling of a `\` by which a line goes on.
pub(crate) fn continues_line(text: &[u8]) -> bool {
    match text.strip_prefix(b"??/") {
        Some(rest) => matches!(after_spaces(rest), [] | [b'\n', ..]),
        None => false,
    }
}

/// The rest of the line that a text begins in.
fn line_ahead(text: &[u8]) -> &[u8] {
    match memchr(b'\n', text) {
        Some(end) => text.get(..end).unwrap_or(&[]),
        None => text,
    }
}

/// The line of a source in which that place is.
fn line_at(source: &[u8], at: usize) -> &[u8] {
    let front = source.get(..at).unwrap_or(&[]);
    let begin = match memrchr(b'\n', front) {
        Some(end) => end.saturating_add(1),
        None => 0,
    };
    line_ahead(source.get(begin..).unwrap_or(&[]))
}

/// The name between these marks at the front of a text. None where a character of it may have another spelling, which begins with `??`, or
/// where a line ends in it.
fn between(text: &[u8], first: u8, last: u8) -> Option<&[u8]> {
    let (front, rest) = text.split_first()?;
    if *front != first {
        return None;
    }
    let name = rest.get(..memchr(last, rest)?)?;
    if name.contains(&b'\n') || name.contains(&b'\r') {
        return None;
    }
    match memmem::find(name, b"??") {
        Some(_) => None,
        None => Some(name),
    }
}

/// The name in quotes or brackets at the front of a text. None where the text begins with neither.
pub(crate) fn name_ahead(text: &[u8]) -> Option<Asked<'_>> {
    if let Some(name) = between(text, b'<', b'>') {
        let search = Search::Bracketed;
        return Some(Asked { name, search });
    }
    let name = between(text, b'"', b'"')?;
    // Clang takes such a name apart once more.
    if name.starts_with(b"<") {
        return None;
    }
    let search = Search::Quoted;
    Some(Asked { name, search })
}

/// Whether what comes after a mark in a line, which isn't read as a name, may yet be one: with another spelling in it, or with the end of a
/// line.
fn may_differ(text: &[u8]) -> bool {
    let text = before_spaces(text);
    text.contains(&b'\\') || text.contains(&b'\r') || memmem::find(text, b"??").is_some()
}

/// Whether a name may be computed by what comes in place of a written one: a macro begins there, or a comment, a line continuation,
/// or something in quotes that is no name, or a name with another spelling in it or that goes on in the next line. All else fails to compile,
/// or is in a comment.
fn may_be_computed(operand: &[u8]) -> bool {
    match operand {
        [b'/' | b'\\', ..] | [b'"', b'<', ..] => true,
        [b'"' | b'<', name @ ..] => may_differ(name),
        [byte, ..] => is_letter(*byte),
        [] => false,
    }
}

/// The name of the macro that a line defines, and whether it takes parameters.
fn defined_by(line: &[u8]) -> Option<(&[u8], bool)> {
    let after = after_spaces(line).strip_prefix(b"#")?;
    let (word, rest) = word_ahead(after_spaces(after));
    if word != b"define".as_slice() {
        return None;
    }
    let (name, rest) = word_ahead(after_spaces(rest));
    Some((name, rest.starts_with(b"(")))
}

/// Whether a line defines the macro of that name.
fn defines(line: &[u8], macro_name: &[u8]) -> bool {
    match defined_by(line) {
        Some((name, _)) => name == macro_name,
        None => false,
    }
}

/// Whether the word at that place isn't a part of a longer one.
pub(crate) fn stands_alone(line: &[u8], at: usize) -> bool {
    match line.get(..at).unwrap_or(&[]).last() {
        Some(byte) => !is_letter(*byte),
        None => true,
    }
}

/// What a table has beside that word.
pub(crate) fn value_of<T: Copy>(table: &[(&str, T)], word: &[u8]) -> Option<T> {
    for (name, value) in table {
        if name.as_bytes() == word {
            return Some(*value);
        }
    }
    None
}

/// Whether a text begins with what may be a comment or the end of a line that goes on: what comes after that isn't read.
fn is_unread(text: &[u8]) -> bool {
    matches!(text, [b'/' | b'\\', ..])
}

/// Whether a pragma of that word asks for a file, or may do so by its second word, with which the rest begins.
fn asks_for_file(word: &[u8], rest: &[u8]) -> bool {
    let (second, _) = word_ahead(rest);
    match value_of(FILE_PRAGMAS, word) {
        Some(Some(next)) => next.as_bytes() == second || is_unread(rest),
        Some(None) => true,
        None => false,
    }
}

/// What comes after a probe, and whether the probe is a `_next` one. None where its name is a part of a longer word.
fn after_probe(after: &[u8]) -> Option<(&[u8], bool)> {
    let (word, rest) = word_ahead(after);
    let is_next = value_of(PROBE_ENDS, word)?;
    Some((rest, is_next))
}

/// Whether what comes after a comment may be what a probe asks for, or may go on with that. The text begins within the comment.
fn goes_on_after(comment: &[u8]) -> bool {
    match memmem::find(comment, b"*/") {
        Some(end) => {
            let after = comment.get(end.saturating_add(2)..).unwrap_or(&[]);
            matches!(after_spaces(after), [b'(' | b'/' | b'\\', ..])
        }
        None => true,
    }
}

/// Whether what comes after the name of a probe may go on with what it asks for, though it doesn't begin so: in the next line, after a
/// comment, or where the name is pasted to the rest of another one's.
fn may_go_on(rest: &[u8]) -> bool {
    match rest {
        [b'\\' | b'#', ..] => true,
        [b',', next @ ..] => after_spaces(next).starts_with(b"_"),
        [b'/', b'*', comment @ ..] => goes_on_after(comment),
        _ => false,
    }
}

impl<'a> Directives<'a> {
    /// Nothing is asked for yet.
    fn new(alloc: Global) -> Directives<'a> {
        Directives {
            asked: Vec::new(alloc),
            probes: Vec::new(alloc),
            computed: Vec::new(alloc),
            guards: Vec::new(alloc),
            is_unclear: false,
            is_once: false,
        }
    }

    /// Takes the name at the front of what comes after a directive or a probe. False where a name is computed there.
    fn take_name(&mut self, operand: &'a [u8], is_next: bool) -> Result<bool, AllocError> {
        let operand = after_spaces(operand);
        let Some(Asked { name, search }) = name_ahead(operand) else {
            return Ok(!may_be_computed(operand));
        };
        let search = if is_next { Search::Next } else { search };
        self.asked.push(Asked { name, search })?;
        Ok(true)
    }

    /// Takes a directive after these bytes of which it isn't clear what it includes, by a macro without which it isn't live if there is one.
    fn take_unclear(&mut self, alloc: Global, front: &'a [u8]) -> Result<(), AllocError> {
        if self.is_unclear {
            return Ok(());
        }
        match guard_after(alloc, front)? {
            Some(guard) => self.guards.push(guard)?,
            None => self.is_unclear = true,
        }
        Ok(())
    }

    /// Takes what a directive that comes after these bytes includes, which macros may stand for.
    fn take_included(
        &mut self,
        alloc: Global,
        front: &'a [u8],
        operand: &'a [u8],
        is_next: bool,
    ) -> Result<(), AllocError> {
        if self.take_name(operand, is_next)? {
            return Ok(());
        }
        let (name, rest) = word_ahead(after_spaces(operand));
        if is_next || name.is_empty() || !after_spaces(rest).is_empty() {
            return self.take_unclear(alloc, front);
        }
        self.computed.push(name)?;
        Ok(())
    }

    /// Takes what comes after `pragma`. False where it asks for a file, or may do so.
    fn take_pragma(&mut self, operand: &[u8]) -> bool {
        let operand = after_spaces(operand);
        let (word, rest) = word_ahead(operand);
        self.is_once = self.is_once || word == b"once".as_slice();
        !is_unread(operand) && !asks_for_file(word, after_spaces(rest))
    }

    /// Takes a directive: what comes before its `#`, and what after that and after a comment there. False where it can't be determined what
    /// it asks for.
    fn take_directive(
        &mut self,
        alloc: Global,
        front: &'a [u8],
        after: &'a [u8],
    ) -> Result<bool, AllocError> {
        if after.starts_with(b"//") {
            return Ok(true);
        }
        let (word, operand) = word_ahead(after);
        if matches!(operand, [b'\\', ..]) || matches!(after, [b'/', ..]) {
            return Ok(false);
        }
        match value_of(KINDS, word) {
            Some(Kind::Include) => self.take_included(alloc, front, operand, false)?,
            Some(Kind::IncludeNext) => self.take_included(alloc, front, operand, true)?,
            Some(Kind::Import) => {
                self.is_once = true;
                self.take_included(alloc, front, operand, false)?;
            }
            Some(Kind::Pragma) => return Ok(self.take_pragma(operand)),
            Some(Kind::Unfollowed) => return Ok(false),
            None => {}
        }
        Ok(true)
    }

    /// Takes what comes after one probe in a line. False where it can't be determined what it asks for.
    fn take_probe(&mut self, line: &'a [u8], after: &'a [u8]) -> Result<bool, AllocError> {
        let Some((rest, is_next)) = after_probe(after) else {
            return Ok(true);
        };
        let rest = after_spaces(rest);
        if may_go_on(rest) {
            return Ok(false);
        }
        match (rest, defined_by(line)) {
            ([b'(', operand @ ..], None) => self.take_name(operand, is_next),
            ([b'(', operand @ ..], Some((name, takes))) => {
                if name.starts_with(PROBE) || self.take_name(operand, is_next)? {
                    return Ok(true);
                }
                self.probes.push(name)?;
                // What it hands on is a word.
                let (word, _) = word_ahead(after_spaces(operand));
                Ok(takes && !is_next && !word.is_empty())
            }
            // Another name for the probe.
            (_, Some((name, _))) => Ok(name.starts_with(PROBE)),
            (_, None) => Ok(true),
        }
    }

    /// Takes the probes of that name in a source, except in the line that defines it. False where it can't be determined what one asks for.
    fn take_probes(&mut self, source: &'a [u8], probe: &[u8]) -> Result<bool, AllocError> {
        for at in memmem::find_iter(source, probe) {
            if !self.take_probe_at(source, at, probe)? {
                return Ok(false);
            }
        }
        Ok(true)
    }

    /// Takes the probes of a source. False where it can't be determined what one asks for.
    fn take_all_probes(&mut self, source: &'a [u8]) -> Result<bool, AllocError> {
        // Most sources have no probe at all.
        if memmem::find(source, PIECE).is_none() {
            return Ok(true);
        }
        if memmem::find(source, EMBED_PROBE).is_some() || pastes_probe(source) {
            return Ok(false);
        }
        self.take_probes(source, PROBE)
    }

    /// Takes the probe of that name at that place of a source, except in the line that defines it. False where it can't be determined what
    /// it asks for.
    fn take_probe_at(
        &mut self,
        source: &'a [u8],
        at: usize,
        probe: &[u8],
    ) -> Result<bool, AllocError> {
        if !stands_alone(source, at) {
            return Ok(true);
        }
        let line = line_at(source, at);
        if defines(line, probe) {
            return Ok(true);
        }
        let after = source.get(at.saturating_add(probe.len())..).unwrap_or(&[]);
        self.take_probe(line, line_ahead(after))
    }

    /// Takes a directive, where one begins at the mark at that place of a source. False where it can't be determined what it asks for:
    /// that is so of other spellings of `#`, and of those of the end of a line that goes on.
    fn take_at(&mut self, alloc: Global, source: &'a [u8], at: usize) -> Result<bool, AllocError> {
        let Some((front, found)) = source.split_at_checked(at) else {
            return Ok(true);
        };
        if let Some(after) = found.strip_prefix(b"#") {
            return match may_begin_directive(front) {
                true => self.take_directive(alloc, front, line_ahead(after_gap(after))),
                false => Ok(true),
            };
        }
        if is_other_mark(found) {
            return Ok(!may_begin_directive(front));
        }
        Ok(!continues_line(found))
    }

    /// Takes the directives of a source that begin with that mark. False where it can't be determined what one asks for.
    fn take_marked(
        &mut self,
        alloc: Global,
        source: &'a [u8],
        mark: u8,
    ) -> Result<bool, AllocError> {
        for at in memchr_iter(mark, source) {
            if !self.take_at(alloc, source, at)? {
                return Ok(false);
            }
        }
        Ok(true)
    }

    /// Takes the directives of a source. False where it can't be determined what one asks for.
    fn take_directives(&mut self, alloc: Global, source: &'a [u8]) -> Result<bool, AllocError> {
        for mark in MARKS {
            if !self.take_marked(alloc, source, mark)? {
                return Ok(false);
            }
        }
        Ok(true)
    }
}

/// What a source asks for. None where that can't be determined.
pub fn directives_of(alloc: Global, source: &[u8]) -> Result<Option<Directives<'_>>, AllocError> {
    let mut found = Directives::new(alloc);
    if cuts_names(source) || !found.take_directives(alloc, source)? {
        return Ok(None);
    }
    if has_pragma(source) || !found.take_all_probes(source)? {
        return Ok(None);
    }
    Ok(Some(found))
}

/// Adds what a source asks for by a probe of another name. False where that can't be determined.
pub fn add_probed<'a>(
    source: &'a [u8],
    probe: &[u8],
    found: &mut Directives<'a>,
) -> Result<bool, AllocError> {
    found.take_probes(source, probe)
}
