//! What to watch of a text: all that its sources ask for, and where the compiler looks for it.

use crate::places::Places;
use crate::search_list::SearchList;
use crate::shown::ShownIncludes;
use crate::watching::Watching;
use base_files::{FileTime, OsBytes};
use cache_disk::folder_of;
use cache_host::CommandLine;
use cache_known_options::{Placed, PlacedWords, after_front, is_among};
use cache_source_directives::{
    Asked, Directives, Search, add_defined, add_probed, add_said, asks_for_files, directives_of,
    has_markers, may_define, pastes_time, tells_time,
};
use cache_watch_lists::Unwatched;
use memchr::memmem;
use std::alloc::Global;
use std::collections::HashSet;
use std::rt::Files;

/// What words begin with by which a compiler finds files in a way of its own.
const OWN_WAYS: [&str; 6] = [
    "-remap",
    "-traditional",
    "-fmodule",
    "-fms-compatibility",
    "-ivfsoverlay",
    "-I-",
];

/// Names of the set of characters in which directives are read as they are.
const PLAIN_SETS: [&str; 4] = ["UTF-8", "utf-8", "UTF8", "utf8"];

/// The options that take in a file before the input.
const TAKING_IN: [&str; 2] = ["-include", "-imacros"];

/// What GCC takes in before all else.
const PREDEFINED: &[u8] = b"stdc-predef.h";

/// A regular file that a text names.
#[derive(Clone, Copy)]
pub struct Source<'a> {
    /// Its name, as markers have it.
    pub name: &'a [u8],
    pub path: &'a str,
    pub contents: &'a [u8],
}

/// The files that a text names.
#[derive(Drop)]
pub struct TextFiles<'a> {
    /// Those that are there, of which the first is the input.
    pub sources: Vec<Source<'a>>,
    /// The paths of those that aren't, which only a `#line` names: a message quotes lines of one that is there.
    pub missing: Vec<&'a str>,
}

impl<'a> TextFiles<'a> {
    /// None yet.
    pub fn new(alloc: Global) -> TextFiles<'a> {
        TextFiles {
            sources: Vec::new(alloc),
            missing: Vec::new(alloc),
        }
    }
}

/// What each source asks for, in their order.
fn directives_in<'a>(
    alloc: Global,
    sources: &[Source<'a>],
) -> Result<Vec<Directives<'a>>, Unwatched> {
    let mut all = Vec::new(alloc);
    for source in sources {
        if pastes_time(source.contents) {
            return Err(Unwatched::Pasted);
        }
        if hands_on_time(source.contents) {
            return Err(Unwatched::Time);
        }
        match directives_of(alloc, source.contents)? {
            Some(found) => all.push(found)?,
            None => return Err(Unwatched::Computed),
        }
    }
    Ok(all)
}

/// Whether a macro may be one of the compiler's own: their names begin with `_` or have small letters.
fn may_be_compilers(name: &[u8]) -> bool {
    name.starts_with(b"_") || name.iter().any(|byte| byte.is_ascii_lowercase())
}

/// What a word defines, as `NAME=VALUE`.
fn definition_in(placed: Placed<'_>) -> Option<&[u8]> {
    let word = placed.word.as_bytes();
    match placed.option {
        Some(option) if matches!(option.as_bytes(), b"-D") => Some(word),
        Some(_) => None,
        None => word.strip_prefix(b"-D"),
    }
}

/// Adds what a macro may stand for by the words of the command. False where that can't be determined.
fn add_all_said<'a>(
    words: &'a [OsBytes],
    name: &[u8],
    asked: &mut Vec<Asked<'a>>,
) -> Result<bool, Unwatched> {
    for placed in PlacedWords::of(words) {
        if memmem::find(placed.word.as_bytes(), name).is_none() {
            continue;
        }
        match definition_in(placed) {
            Some(definition) if add_said(definition, name, asked)? => {}
            _ => return Ok(false),
        }
    }
    Ok(true)
}

/// Adds what a macro may stand for by its definitions in these sources. False where that can't be determined.
fn add_all_defined<'a>(
    sources: &[Source<'a>],
    name: &[u8],
    asked: &mut Vec<Asked<'a>>,
) -> Result<bool, Unwatched> {
    for source in sources {
        if !add_defined(source.contents, name, asked)? {
            return Ok(false);
        }
    }
    Ok(true)
}

/// Adds what a source includes by these macros: each name that sources and words define them to be. One that none of these defines isn't
/// live, or nothing is made. False where that can't be determined.
fn add_computed<'a>(
    words: &'a [OsBytes],
    sources: &[Source<'a>],
    found: &mut Directives<'a>,
) -> Result<bool, Unwatched> {
    let mut last: &[u8] = &[];
    for name in found.computed.iter() {
        // A header that goes on as long as a macro says so has one name many times.
        if *name == last {
            continue;
        }
        last = name;
        if may_be_compilers(name)
            || !add_all_defined(sources, name, &mut found.asked)?
            || !add_all_said(words, name, &mut found.asked)?
        {
            return Ok(false);
        }
    }
    Ok(true)
}

/// Whether one of the words has that name in it.
fn name_macro(words: &[OsBytes], name: &[u8]) -> bool {
    for word in words {
        if memmem::find(word.as_bytes(), name).is_some() {
            return true;
        }
    }
    false
}

/// Whether what comes in a macro's groups may be live: its name is in a word of the command, or a source may define it.
fn may_be_live(
    alloc: Global,
    words: &[OsBytes],
    sources: &[Source<'_>],
    name: &[u8],
) -> Result<bool, Unwatched> {
    if name_macro(words, name) {
        return Ok(true);
    }
    for source in sources {
        if may_define(alloc, source.contents, name)? {
            return Ok(true);
        }
    }
    Ok(false)
}

/// Whether an include of a source may be live of which it isn't clear what it includes.
fn has_unclear(
    alloc: Global,
    words: &[OsBytes],
    sources: &[Source<'_>],
    found: &Directives<'_>,
) -> Result<bool, Unwatched> {
    for name in found.guards.iter() {
        if may_be_live(alloc, words, sources, name)? {
            return Ok(true);
        }
    }
    Ok(found.is_unclear)
}

/// The macros by which sources ask whether a file is there.
fn probes_in<'a>(alloc: Global, all: &[Directives<'a>]) -> Result<Vec<&'a [u8]>, Unwatched> {
    let mut probes = Vec::new(alloc);
    for found in all {
        probes.extend_from_slice(found.probes.as_slice())?;
    }
    Ok(probes)
}

/// Adds what a source asks for by these macros. One that hands on another one's parameter isn't followed.
fn add_all_probed<'a>(
    source: &Source<'a>,
    probes: &[&[u8]],
    found: &mut Directives<'a>,
) -> Result<(), Unwatched> {
    let count = found.probes.len();
    for probe in probes {
        let is_told = add_probed(source.contents, probe, found)?;
        if !is_told || found.probes.len() != count {
            return Err(Unwatched::Computed);
        }
    }
    Ok(())
}

/// Adds what sources ask for by macros. False where it isn't clear what one of them includes.
fn add_made<'a>(
    alloc: Global,
    words: &'a [OsBytes],
    sources: &[Source<'a>],
    all: &mut [Directives<'a>],
) -> Result<bool, Unwatched> {
    let probes = probes_in(alloc, all)?;
    let mut are_clear = true;
    for (number, source) in sources.iter().enumerate() {
        let Some(found) = all.get_mut(number) else {
            break;
        };
        add_all_probed(source, probes.as_slice(), found)?;
        are_clear = are_clear
            && !has_unclear(alloc, words, sources, found)?
            && add_computed(words, sources, found)?;
    }
    Ok(are_clear)
}

/// Whether one of the sources has markers of its own: those of the text don't say then which source a line is of.
fn have_markers(sources: &[Source<'_>]) -> bool {
    for source in sources {
        if has_markers(source.contents) {
            return true;
        }
    }
    false
}

/// Looks for what a source asks for, except a name in brackets already looked for: which source asks for that doesn't matter. For the input
/// has it watched that no precompiled header lies beside that.
fn search_asked<'a, R: Files + AllocGlobal>(
    rt: &R,
    source: &Source<'_>,
    places: &Places,
    asked: Asked<'a>,
    is_input: bool,
    bracketed: &mut HashSet<&'a [u8]>,
    watching: &mut Watching<'_, '_>,
) -> Result<(), Unwatched> {
    let beside = folder_of(source.path.as_bytes());
    if asked.search != Search::Bracketed || bracketed.insert(asked.name)? {
        watching.search(rt, places, beside, asked)?;
    }
    if is_input {
        watching.look_for_precompiled(rt, places, beside, asked.name, b".gch")?;
    }
    Ok(())
}

/// Looks for all that a source asks for.
fn search_all<'a, R: Files + AllocGlobal>(
    rt: &R,
    source: &Source<'_>,
    places: &Places,
    all_asked: &[Asked<'a>],
    is_input: bool,
    bracketed: &mut HashSet<&'a [u8]>,
    watching: &mut Watching<'_, '_>,
) -> Result<(), Unwatched> {
    for asked in all_asked {
        search_asked(rt, source, places, *asked, is_input, bracketed, watching)?;
    }
    Ok(())
}

/// The file that a word takes in before the input, by an option before it or as one that has the name in it.
fn taken_in(placed: Placed<'_>) -> Option<&[u8]> {
    let word = placed.word.as_bytes();
    match placed.option {
        Some(option) if is_among(&TAKING_IN, option.as_bytes()) => Some(word),
        Some(_) => None,
        None if placed.takes_value() => None,
        None => Some(after_front(&TAKING_IN, word)?.1),
    }
}

/// Looks for what words take in before the input: in the call's folder, and then as names in quotes are looked for.
fn search_words<R: Files + AllocGlobal>(
    rt: &R,
    places: &Places,
    words: &[OsBytes],
    watching: &mut Watching<'_, '_>,
) -> Result<(), Unwatched> {
    for placed in PlacedWords::of(words) {
        if let Some(name) = taken_in(placed) {
            let search = Search::Quoted;
            watching.search(rt, places, b"", Asked { name, search })?;
            watching.look_for_precompiled(rt, places, b"", name, b".gch")?;
            watching.look_for_precompiled(rt, places, b"", name, b".pch")?;
        }
    }
    Ok(())
}

/// Whether by a word sources are in another set of characters, so that a compiler may read directives in them that look otherwise.
fn names_other_set(word: &[u8]) -> bool {
    match word.strip_prefix(b"-finput-charset=") {
        Some(name) => !is_among(&PLAIN_SETS, name),
        None => false,
    }
}

/// Whether words have a compiler find files in a way of its own.
fn are_own_ways(words: &[OsBytes]) -> bool {
    for word in words {
        let word = word.as_bytes();
        if after_front(&OWN_WAYS, word).is_some() || names_other_set(word) {
            return true;
        }
    }
    false
}

/// Whether a source may have a macro of which the time of another file comes: that of the file in which it is used.
fn hands_on_time(source: &[u8]) -> bool {
    memmem::find(source, b"__TIMESTAMP__").is_some() && memmem::find(source, b"define").is_some()
}

/// Takes all files that the text names.
fn take_sources<'a>(
    alloc: Global,
    sources: &[Source<'a>],
    all: &[Directives<'_>],
    watching: &mut Watching<'_, 'a>,
) -> Result<(), Unwatched> {
    for (number, source) in sources.iter().enumerate() {
        let Some(found) = all.get(number) else {
            break;
        };
        watching.take_named(alloc, source.path, source.contents, found.is_once)?;
    }
    Ok(())
}

/// Has it watched that nothing lies under these paths.
fn take_missing<R: Files + AllocGlobal>(
    rt: &R,
    paths: &[&str],
    watching: &mut Watching<'_, '_>,
) -> Result<(), Unwatched> {
    for path in paths {
        watching.take_missing(rt, path)?;
    }
    Ok(())
}

/// Looks for all that these sources ask for, of which the first is the input.
fn search_sources<'a, R: Files + AllocGlobal>(
    rt: &R,
    places: &Places,
    sources: &[Source<'a>],
    all: &[Directives<'a>],
    bracketed: &mut HashSet<&'a [u8]>,
    watching: &mut Watching<'_, '_>,
) -> Result<(), Unwatched> {
    for (number, source) in sources.iter().enumerate() {
        let Some(found) = all.get(number) else {
            break;
        };
        let asked = found.asked.as_slice();
        search_all(rt, source, places, asked, number == 0, bracketed, watching)?;
    }
    Ok(())
}

/// Looks for all that a text shows that these sources include, of which the first is the input.
fn search_shown<'a, R: Files + AllocGlobal>(
    rt: &R,
    places: &Places,
    sources: &[Source<'a>],
    text: &'a [u8],
    bracketed: &mut HashSet<&'a [u8]>,
    watching: &mut Watching<'_, '_>,
) -> Result<(), Unwatched> {
    let Some(shown) = ShownIncludes::of(rt.alloc(), sources, text)? else {
        return Err(Unwatched::Computed);
    };
    for (number, asked) in shown.asked.iter() {
        let Some(source) = sources.get(*number) else {
            return Err(Unwatched::Computed);
        };
        search_asked(
            rt,
            source,
            places,
            *asked,
            *number == 0,
            bracketed,
            watching,
        )?;
    }
    Ok(())
}

/// The files that a text names, and what they ask for.
#[derive(Drop)]
pub struct AskingSources<'a> {
    words: &'a [OsBytes],
    files: TextFiles<'a>,
    /// What each of those that are there asks for.
    all: Vec<Directives<'a>>,
    /// Whether it is clear what they include, without a text that shows it.
    pub are_clear: bool,
}

impl<'a> AskingSources<'a> {
    /// Those of a call of these words.
    pub fn of(
        alloc: Global,
        words: &'a [OsBytes],
        files: TextFiles<'a>,
    ) -> Result<AskingSources<'a>, Unwatched> {
        if are_own_ways(words) || tells_time(words) || asks_for_files(words) {
            return Err(Unwatched::Words);
        }
        let sources = files.sources.as_slice();
        let mut all = directives_in(alloc, sources)?;
        let are_clear = add_made(alloc, words, sources, all.as_mut_slice())?;
        if !are_clear && have_markers(sources) {
            return Err(Unwatched::Computed);
        }
        Ok(AskingSources {
            words,
            files,
            all,
            are_clear,
        })
    }

    /// Has all watched that a text hangs on which is made of these sources. It has a line for each include where these aren't clear.
    fn watch<R: Files + AllocGlobal>(
        &self,
        rt: &R,
        list: &SearchList<'_>,
        text: &'a [u8],
        watching: &mut Watching<'_, 'a>,
    ) -> Result<(), Unwatched> {
        let (sources, all) = (self.files.sources.as_slice(), self.all.as_slice());
        take_sources(rt.alloc(), sources, all, watching)?;
        take_missing(rt, self.files.missing.as_slice(), watching)?;
        let places = watching.take_folders(rt, list)?;
        search_words(rt, &places, self.words, watching)?;
        let name = PREDEFINED;
        let search = Search::Bracketed;
        watching.search(rt, &places, b"", Asked { name, search })?;
        let mut bracketed = HashSet::new(rt.alloc());
        search_sources(rt, &places, sources, all, &mut bracketed, watching)?;
        if self.are_clear {
            return Ok(());
        }
        search_shown(rt, &places, sources, text, &mut bracketed, watching)
    }

    /// What to watch of a text that is made of these sources, by what its compiler said of where it looks. Where it isn't clear what they
    /// include, the text has a line for each include (`-dI`).
    pub fn list<R: Files + AllocGlobal>(
        self,
        rt: &R,
        line: &CommandLine,
        said: &[u8],
        text: &'a [u8],
        before: FileTime,
    ) -> Result<Vec<u8>, Unwatched> {
        let alloc = rt.alloc();
        let Some(list) = SearchList::read(alloc, said)? else {
            return Err(Unwatched::List);
        };
        let mut watching = Watching::new(alloc, line.dir.as_bytes(), before);
        self.watch(rt, &list, text, &mut watching)?;
        watching.into_list(alloc)
    }
}
