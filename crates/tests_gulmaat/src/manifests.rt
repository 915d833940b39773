//! Lists of what to watch beside a manifest, and manifests that lose results and get them back.

use crate::rows::{Question, Row, are_answered, cut, text_or_fail};
use base_files::{FileTime, Listed};
use base_formats::{put_framed, put_number};
use cache_watch_lists::{WatchedResult, looks_for_result, with_list, with_results_of, without};
use ckeys_include_records::{KeyText, PreprocessorCacheEntry};
use std::alloc::{AllocError, Global};
use std::test::Fail;
use tests_kit::{holds, is_that};

/// A manifest with results of these letters, with spaces between: the key of each is its letter 64 times.
fn record_of(alloc: Global, letters: &str) -> Result<PreprocessorCacheEntry, AllocError> {
    let mut record = PreprocessorCacheEntry::new(alloc);
    for letter in letters.split_whitespace() {
        let key = KeyText::new(letter.repeat(alloc, 64)?);
        record.add_result(key, Listed::new(alloc))?;
    }
    Ok(record)
}

/// The letters of a manifest's results.
fn letters_of(alloc: Global, record: &PreprocessorCacheEntry) -> Result<String, AllocError> {
    let mut letters = String::new(alloc);
    for result in record.results() {
        letters.push_str(result.key.as_str().get(..1).unwrap_or(""))?;
    }
    Ok(letters)
}

/// A list that holds for each call in that folder.
fn list_for(alloc: Global, folder: &str) -> Result<Vec<u8>, AllocError> {
    let mut list = Vec::new(alloc);
    put_framed(&mut list, folder.as_bytes())?;
    put_number(&mut list, 0)?;
    put_number(&mut list, 0)?;
    Ok(list)
}

/// Lists with one more: that of a result for a call in a folder, beside a manifest with these results.
fn more_lists(
    alloc: Global,
    lists: &[u8],
    letter: &str,
    folder: &str,
    letters: &str,
) -> Result<Vec<u8>, AllocError> {
    let key = letter.repeat(alloc, 64)?;
    let list = list_for(alloc, folder)?;
    let record = record_of(alloc, letters)?;
    let result = WatchedResult {
        key: key.as_bytes(),
        messages: b"messages",
        list: list.as_slice(),
    };
    let more = with_list(alloc, lists, &record, folder.as_bytes(), result);
    drop(record);
    more
}

/// Whether a result holds for a call in a folder; it doesn't where other messages are kept beside it.
fn is_held(rt: &HostRuntime, lists: &[u8], folder: &str, letter: &str) -> Result<bool, Fail> {
    let key = letter.repeat(rt.alloc(), 64)?;
    let (dir, key) = (folder.as_bytes(), key.as_bytes());
    let before = FileTime::from_seconds(0);
    let found = looks_for_result(rt, dir, lists, key, b"messages", before)?;
    let other = looks_for_result(rt, dir, lists, key, b"", before)?;
    holds(other.is_none(), letter)?;
    Ok(found.is_some())
}

/// Which of the results `a` and `b` hold for a call in a folder.
fn holding(rt: &HostRuntime, lists: &[u8], folder: &str) -> Result<&'static str, Fail> {
    let first = is_held(rt, lists, folder, "a")?;
    let second = is_held(rt, lists, folder, "b")?;
    Ok(match (first, second) {
        (true, true) => "ab",
        (true, false) => "a",
        (false, true) => "b",
        (false, false) => "",
    })
}

/// Which result got a list, for a call in which folder, beside which results, and which then hold for calls in `one` and in `two`. Four lists of
/// one result are kept: the oldest one goes.
const LISTS: &str = r#"a | one | a b => one [a], two []
a | two | a b => one [a], two [a]
b | one | a b => one [ab], two [a]
a | one | a b => one [ab], two [a]
b | two | b => one [b], two [b]
b | three | b => one [b], two [b]
b | four | b => one [b], two [b]
b | five | b => one [], two [b]
"#;

/// Asserts that these lists hold for calls in `one` and in `two` as a row says.
fn hold_as(rt: &HostRuntime, lists: &[u8], want: &str) -> Result<(), Fail> {
    let in_one = holding(rt, lists, "one")?;
    let in_two = holding(rt, lists, "two")?;
    let text = format!(in rt.alloc(); "one [{in_one}], two [{in_two}]")?;
    is_that(text.as_str(), want, "lists")
}

#[test]
fn results_have_lists(rt: HostRuntime) -> Result<(), Fail> {
    let mut lists = Vec::new(rt.alloc());
    for row in LISTS.lines() {
        let (given, want) = cut(row, " => ");
        let (letter, given) = cut(given, " | ");
        let (folder, letters) = cut(given, " | ");
        lists = more_lists(rt.alloc(), lists.as_slice(), letter, folder, letters)?;
        hold_as(&rt, lists.as_slice(), want)?;
    }
    Ok(())
}

/// The results of two manifests.
fn whole_of(
    alloc: Global,
    letters: &str,
    others: &str,
) -> Result<PreprocessorCacheEntry, AllocError> {
    let record = record_of(alloc, letters)?;
    let other = record_of(alloc, others)?;
    with_results_of(alloc, &record, &other)
}

/// The letters of the results of two manifests, without one of them.
fn joined(alloc: Global, letters: &str, others: &str, letter: &str) -> Result<String, AllocError> {
    let key = letter.repeat(alloc, 64)?;
    let whole = whole_of(alloc, letters, others)?;
    let rest = without(alloc, &whole, key.as_bytes())?;
    letters_of(alloc, &rest)
}

/// Results of two manifests, one that goes, and those that are left.
const JOINED: &str = r#"
 |  | a =>
a | b | c => ab
b | a b | c => ab
c | a b | d => abc
a b | c | b => ac
a |  | a =>
"#;

/// The results that are left.
struct Left;

impl Question for Left {
    fn answer(&self, rt: &HostRuntime, row: &Row<'_>) -> Result<String, Fail> {
        text_or_fail(joined(rt.alloc(), row.first, row.second, row.third))
    }
}

#[test]
fn results_come_back_and_go(rt: HostRuntime) -> Result<(), Fail> {
    are_answered(&rt, JOINED, &Left)
}
