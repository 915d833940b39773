//! What words come to that map names of files, for a call in some folder.

use crate::dependencies::session_words_of;
use crate::rows::{Question, Row, are_answered, text_or_fail};
use base_files::OsBytes;
use cache_known_options::{Beside, beside_of};
use std::alloc::{AllocError, Global};
use std::fmt::Write;
use std::test::Fail;
use tests_kit::words;

/// A folder, words of a call there, and what they come to: the words for the session, and the rows that are bound to the key. An empty name stands
/// for all, and a folder's name that begins as a mapped one is mapped in a part of it.
const MAPS: &str = r#"
/w | -ffile-prefix-map=/w=. -c a.c -g => -c a.c -g; prefix map <-ffile-prefix-map=>; name in its place <.>; folder below the mapped one <>
/w/x/y | -fdebug-prefix-map=/w=/u -fmacro-prefix-map=/w/x= -c a.c => -c a.c; prefix map <-fdebug-prefix-map=>; name in its place </u>; folder below the mapped one </x/y>; prefix map <-fmacro-prefix-map=>; name in its place <>; folder below the mapped one </y>
/w | -ffile-prefix-map=/t/b1=/t -c a.c => -I-ffile-prefix-map=/t/b1=/t -c a.c; prefix map <>
/w | -fmacro-prefix-map=./= -ffile-prefix-map=/w=. -c a.c => -fmacro-prefix-map=./= -c a.c; prefix map <-fmacro-prefix-map=./=>; prefix map <-ffile-prefix-map=>; name in its place <.>; folder below the mapped one <>
/w | -ffile-prefix-map==x -ffile-prefix-map=/w=. -c a.c => -ffile-prefix-map==x -ffile-prefix-map=/w=. -c a.c
/ww | -ffile-prefix-map=/w=. -c a.c => -ffile-prefix-map=/w=. -c a.c
/w | -ffile-prefix-map=/w= -c a.c => -ffile-prefix-map=/w= -c a.c
/w | -ffile-prefix-map=/w=a=b -c a.c => -ffile-prefix-map=/w=a=b -c a.c
/w | -ffile-prefix-map=/w=. -flto -c a.c => -ffile-prefix-map=/w=. -flto -c a.c
/w | -ffile-prefix-map=/w=. -g -gctf -c a.c => -ffile-prefix-map=/w=. -g -gctf -c a.c
/w | -ffile-prefix-map=/w=. -fstack-usage -c a.c => -ffile-prefix-map=/w=. -c a.c
"#;

/// Adds rows of a name and a value.
fn write_rows(text: &mut String, rows: &[(&str, OsBytes)]) -> Result<(), AllocError> {
    for (name, value) in rows {
        write!(text, "; {name} <{value}>")?;
    }
    Ok(())
}

/// What words come to in that folder, as text.
fn text_of_maps(alloc: Global, dir: &str, beside: &mut Beside) -> Result<String, AllocError> {
    beside.take_maps(alloc, dir.as_bytes())?;
    let mut text = session_words_of(alloc, beside)?;
    write_rows(&mut text, beside.maps.rows.as_slice())?;
    Ok(text)
}

/// What the words of a call in that folder come to.
fn maps_of(alloc: Global, dir: &str, line: &str) -> Result<String, AllocError> {
    let list = words(alloc, line)?;
    match beside_of(alloc, list.as_slice())? {
        Some(mut beside) => text_of_maps(alloc, dir, &mut beside),
        None => Ok(String::new(alloc)),
    }
}

/// What words come to.
struct Maps;

impl Question for Maps {
    fn answer(&self, rt: &HostRuntime, row: &Row<'_>) -> Result<String, Fail> {
        text_or_fail(maps_of(rt.alloc(), row.first, row.second))
    }
}

#[test]
fn words_map_names(rt: HostRuntime) -> Result<(), Fail> {
    are_answered(&rt, MAPS, &Maps)
}
