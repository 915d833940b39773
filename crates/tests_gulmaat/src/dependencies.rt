//! What words say of a dependency file and of other files beside an object, and by which words a compiler prints a text.

use crate::rows::{Question, Row, are_answered, text_or_fail};
use cache_known_options::text_words::text_words;
use cache_known_options::{Beside, Dependencies, SideFiles, beside_of, dependencies_of};
use std::alloc::{AllocError, Global};
use std::fmt::Write;
use std::test::Fail;
use tests_kit::{words, write_list, write_words};

/// Words, and what they say: the others, what the file's contents hang on, and its path; `unclear` where that can't be determined.
const LINES: &str = r#"
-c a.c -o a.o => -c a.c -o a.o
-MD -c a.c -o a.o => -c a.c -o a.o; said -MD a.o; file a.d
-MMD -c d/a.c => -c d/a.c; said -MMD; file a.d
-MD -MF x.d -c a.c -o a.o => -c a.c -o a.o; said -MD a.o; file x.d
-MD -MFx.d -c a.c -oa.o => -c a.c -oa.o; said -MD a.o; file x.d
-MD -MT x -c a.c -o a.o => -c a.c -o a.o; said -MD -MT x; file a.d
-MD -MTx -MQ y -MP -c a.c => -c a.c; said -MD -MTx -MQ y -MP; file a.d
-MD -c a.c -o d.x/a => -c a.c -o d.x/a; said -MD d.x/a; file d.x/a.d
-MD -c a.c -o a.b.o => -c a.c -o a.b.o; said -MD a.b.o; file a.b.d
-Wp,-MD,x.d -c a.c -o a.o => -c a.c -o a.o; said -Wp,-MD, a.o; file x.d
-Wp,-MMD,x.d -c a.c => -c a.c; said -Wp,-MMD,; file x.d
-Wp,-MD,x.d -Wp,-MT,y -c a.c -o a.o => -c a.c -o a.o; said -Wp,-MD, -Wp,-MT,y a.o; file x.d
-Wp,-MD,x.d -MD -c a.c => unclear
-Wp,-MD,x.d -Wp,-MD,y.d -c a.c => unclear
-MD -S a.c => -S a.c; said -MD -S; file a.d
-D -MD -c a.c => -D -MD -c a.c
-o -MD -c a.c => -o -MD -c a.c
-MF x.d -c a.c => -c a.c
-Wp,-DA=1 -DA=2 -c a.c => -DA=2 -c a.c -DA=1
-Wp,-UA,-DA=3 -MD -c a.c -o a.o => -c a.c -o a.o -UA -DA=3; said -MD a.o; file a.d
-Wp,-DA,-P -c a.c => -Wp,-DA,-P -c a.c
-D -Wp,-DA -c a.c => -D -Wp,-DA -c a.c
-Wp,-DA -c a.c -o => unclear
"#;

/// Adds what words say.
fn write_found(text: &mut String, found: &Dependencies) -> Result<(), AllocError> {
    write_words(text, found.others.as_slice())?;
    write_list(text, "said", found.said.as_slice())?;
    match &found.file {
        Some(file) => write!(text, "; file {file}"),
        None => Ok(()),
    }
}

/// What was found, as text.
fn text_of_found(alloc: Global, found: &Dependencies) -> Result<String, AllocError> {
    let mut text = String::new(alloc);
    write_found(&mut text, found)?;
    Ok(text)
}

/// What words say, as text.
fn text_of(alloc: Global, line: &str) -> Result<String, AllocError> {
    let list = words(alloc, line)?;
    match dependencies_of(alloc, list.as_slice())? {
        Some(found) => text_of_found(alloc, &found),
        None => String::from_str(alloc, "unclear"),
    }
}

/// What words say.
struct Said;

impl Question for Said {
    fn answer(&self, rt: &HostRuntime, row: &Row<'_>) -> Result<String, Fail> {
        text_or_fail(text_of(rt.alloc(), row.first))
    }
}

#[test]
fn words_say_what_is_written(rt: HostRuntime) -> Result<(), Fail> {
    are_answered(&rt, LINES, &Said)
}

/// Words, and what they say of other files beside the object: the words for the session, those that ask for such files, the object, and the
/// paths of the files; `unclear` where these can't be determined.
const SIDE_LINES: &str = r#"
-MD -c a.c -o a.o => -c a.c -o a.o
--coverage -c a.c -o d/a.o => -c a.c -o d/a.o; asked --coverage; object d/a.o; files d/a.gcno
-g -gsplit-dwarf -MD -fstack-usage -c d/a.c => -g -c d/a.c; asked -gsplit-dwarf -fstack-usage; object a.c; files a.dwo a.su
--coverage -ftest-coverage -fprofile-arcs -c a.c -oa.b.o => -c a.c -oa.b.o; asked --coverage -ftest-coverage -fprofile-arcs; object a.b.o; files a.b.gcno
-fprofile-generate=p -c a.c -o d.x/a => -c a.c -o d.x/a; asked -fprofile-generate=p; object d.x/a
-D --coverage -c a.c => -D --coverage -c a.c
-fstack-usage -c a.c -o d/.a => unclear
-fstack-usage -c a.c -o /dev/null => unclear
-fstack-usage -c => unclear
-fstack-usage -Wp,-MD,x.d -MD -c a.c => unclear
"#;

/// The words for the session, each after a space.
pub fn session_words_of(alloc: Global, beside: &Beside) -> Result<String, AllocError> {
    let list = beside.session_words(alloc)?;
    let mut text = String::new(alloc);
    write_words(&mut text, list.as_slice())?;
    Ok(text)
}

/// Adds what words say of files beside the object.
fn write_side_files(text: &mut String, side_files: &SideFiles) -> Result<(), AllocError> {
    write_list(text, "asked", side_files.words.as_slice())?;
    if !side_files.words.is_empty() {
        write!(text, "; object {}", side_files.object)?;
    }
    write_list(text, "files", side_files.paths.as_slice())
}

/// What was found beside the object, as text.
fn text_of_beside(alloc: Global, beside: &Beside) -> Result<String, AllocError> {
    let mut text = session_words_of(alloc, beside)?;
    write_side_files(&mut text, &beside.side_files)?;
    Ok(text)
}

/// What words say of files beside the object, as text.
fn beside_text_of(alloc: Global, line: &str) -> Result<String, AllocError> {
    let list = words(alloc, line)?;
    match beside_of(alloc, list.as_slice())? {
        Some(beside) => text_of_beside(alloc, &beside),
        None => String::from_str(alloc, "unclear"),
    }
}

/// What words say of files beside the object.
struct SaidBeside;

impl Question for SaidBeside {
    fn answer(&self, rt: &HostRuntime, row: &Row<'_>) -> Result<String, Fail> {
        text_or_fail(beside_text_of(rt.alloc(), row.first))
    }
}

#[test]
fn words_say_what_lies_beside(rt: HostRuntime) -> Result<(), Fail> {
    are_answered(&rt, SIDE_LINES, &SaidBeside)
}

/// Words of a command, the name of a list where there is one, and the words by which the text is printed.
const TEXTS: &str = r#"
-c a.c -o a.o => -c a.c -E
-c a.c -o a.o | list => -c a.c -MD -MF list -MT x -E
-c a.c -oa.o -g => -c a.c -g -E
-c a.c -oa.o -g | list => -c a.c -g -MD -MF list -MT x -E
-MT -o -c a.c => -MT -o -c a.c -E
-MT -o -c a.c | list => -MT -o -c a.c -MD -MF list -MT x -E
-MD -c a.c -o b.o => -MD -c a.c -MF b.d -MQ b.o -E
-MD -c a.c -o b.o | list => -MD -c a.c -MF b.d -MQ b.o -MD -MF list -MT x -E
"#;

/// The words by which the text of a command is printed, with a list or without.
fn text_words_of(alloc: Global, line: &str, list: &str) -> Result<String, AllocError> {
    let command = words(alloc, line)?;
    let list = if list.is_empty() { None } else { Some(list) };
    let printing = text_words(alloc, command.as_slice(), list)?;
    let mut text = String::new(alloc);
    write_words(&mut text, printing.as_slice())?;
    Ok(text)
}

/// The words by which a text is printed.
struct Printing;

impl Question for Printing {
    fn answer(&self, rt: &HostRuntime, row: &Row<'_>) -> Result<String, Fail> {
        text_or_fail(text_words_of(rt.alloc(), row.first, row.second))
    }
}

#[test]
fn texts_are_printed_by_words(rt: HostRuntime) -> Result<(), Fail> {
    are_answered(&rt, TEXTS, &Printing)
}
