//! Options that the tables don't know, and under which a kept output may be incomplete or wrong. docs/REPORT.md says what each does.

ghost use Rattle.std.specs.Prelude.{◌≡◌, ◌||◌, Bool, None, find, IfOk, OnOk, map, ◌++◌};
ghost use Rattle.std.specs.List.{list_any};
ghost use Rattle.std.specs.Option.{option_map};
ghost use Rattle.std.specs.Str.{bytes_eq};
ghost use Rattle.sccache_recorded_builds.specs.Beware.{AreOnce, begins_with, is_among, is_option, listed_option, naming, option_of};

use base_files::OsBytes;
use std::alloc::{AllocError, Global};

/// Options that are used alone.
const WHOLE: [&str; 7] = [
    "-coverage",
    "-fstack-usage",
    "-fcallgraph-info",
    "-fsave-optimization-record",
    "-fdirectives-only",
    "-frewrite-includes",
    "-ftime-trace",
];

/// What options begin with that go on.
const FRONTS: [&str; 14] = [
    "-save-temps=",
    "-gsplit-dwarf=",
    "-fcallgraph-info=",
    "-fdump-",
    "-ftime-trace=",
    "-fsave-optimization-record=",
    "-Wp,-MD,",
    "-Wp,-MMD,",
    "-fpass-plugin=",
    "-fcs-profile-use=",
    "-fprofile-instrument-use-path=",
    "-foptimization-record-file=",
    "-aux-info=",
    "-MJ",
];

/// What options begin with that write a file where they name one after `=`.
const NAMING_FRONT: &str = "-fopt-info";

/// The first of these options that a word is.
fn whole_option(options: &[&'static str], word: &[u8]) -> Option<&'static str>
    ensures { result ≡ find (λ option. bytes_eq word.now option.now) options.now }
{
    options
        .iter()
        .copied()
        .find(|option| word == option.as_bytes())
}

/// The first of these that a word begins with.
fn front_option(fronts: &[&'static str], word: &[u8]) -> Option<&'static str>
    ensures { result ≡ find (λ front. begins_with word.now front.now) fronts.now }
{
    fronts
        .iter()
        .copied()
        .find(|front| word.starts_with(front.as_bytes()))
}

/// The option of a word that names a file after `=`.
fn naming_option(word: &[u8]) -> Option<&'static str>
    ensures { option_map (λ option. option.now) result ≡ naming word.now }
{
    if word.starts_with(NAMING_FRONT.as_bytes()) && word.contains(&b'=') {
        Some(NAMING_FRONT)
    } else {
        None
    }
}

/// The option that a word is by these tables, in whole or at its front.
fn listed_option(
    options: &[&'static str],
    fronts: &[&'static str],
    word: &[u8],
) -> Option<&'static str>
    ensures { option_map (λ option. option.now) result
        ≡ listed_option (map (λ option. option.now) options.now)
        (map (λ front. front.now) fronts.now) word.now }
{
    if let Some(option) = whole_option(options, word) {
        return Some(option);
    }
    if let Some(front) = front_option(fronts, word) {
        return Some(front);
    }
    naming_option(word)
}

/// The option that a word is, as the table writes it, where it is one to beware of.
fn option_of(word: &[u8]) -> Option<&'static str>
    ensures { option_map (λ option. option.now) result ≡ option_of word.now }
{
    // Most words of a command line are definitions and folders.
    if word.starts_with(b"-D") || word.starts_with(b"-I") {
        return None;
    }
    listed_option(&WHOLE, &FRONTS, word)
}

/// Adds the option that a word is, where it is one and isn't there yet.
fn note_option(found: &mut Vec<&'static str>, word: &[u8]) -> Result<(), AllocError>
    requires { AreOnce found.old.items }
    ensures once { OnOk result (AreOnce found.new.items) }
    ensures held { OnOk result ((option : _) → is_among option found.new.items
        ≡ (is_among option found.old.items || is_option option word.now)) }
{
    let Some(option) = option_of(word) else {
        return Ok(());
    };
    if found.contains(&option) {
        return Ok(());
    }
    found.push(option)?;
    Ok(())
}

/// Adds the options that words are, each once.
fn note_options(found: &mut Vec<&'static str>, words: &[OsBytes]) -> Result<(), AllocError>
    requires { AreOnce found.old.items }
    ensures once { OnOk result (AreOnce found.new.items) }
    ensures held { OnOk result ((option : _) → is_among option found.new.items
        ≡ (is_among option found.old.items || list_any (is_option option) words.now)) }
{
    let mut rest = words;
    while let Some((word, more)) = rest.split_first() {
        note_option(found, word.as_bytes())?;
        rest = more;
    }
    Ok(())
}

/// The options to beware of among these words and those, each once.
pub fn options_in(
    alloc: Global,
    words: &[OsBytes],
    more: &[OsBytes],
) -> Result<Vec<&'static str>, AllocError>
    ensures once { IfOk result (λ found. AreOnce found.items) }
    ensures held { IfOk result (λ found. (option : _) →
        is_among option found.items ≡ list_any (is_option option) (words.now ++ more.now)) }
{
    let mut found: Vec<&'static str> = Vec::new(alloc);
    note_options(&mut found, words)?;
    note_options(&mut found, more)?;
    Ok(found)
}
