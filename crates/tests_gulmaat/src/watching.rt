//! What is watched of a text: each row changes a tree of folders, and says whether a compiler would find the same files as before.

use crate::disks::{change, change_all, line_of, make_fresh};
use crate::rows::{Question, Row, are_answered, says, text_or_fail, whether, yes_or_no};
use base_files::FileTime;
use cache_host::CommandLine;
use cache_searched_folders::{AskingSources, Places, SearchList, Source, TextFiles, Watching};
use cache_source_directives::{Asked, Search};
use cache_watch_lists::{PlainName, Unwatched, holds as list_holds};
use std::alloc::{AllocError, Global};
use std::test::Fail;
use tests_kit::holds;

/// What a compiler says that looks in `a`, then in `b`, and leaves out `c` and `d`.
const SAID: &str = "ignoring nonexistent directory \"c\"\nignoring duplicate directory \"d\"\n\
    #include \"...\" search starts here:\n#include <...> search starts here:\n a\n b\nEnd of search list.\n";

/// The names that are asked for in turn: so many aren't in the first folder that it is listed before the last ones are looked for.
const ASKED: [&str; 6] = ["p.h", "q.h", "r.h", "s/y.h", "t.h", "x.h"];

/// Folders, a header in the second one, and a link to that.
const TREE: &str = "folder a\nfolder b\nwrite b/x.h one\nlink d b";

/// Looks for these names, in brackets.
fn search_all(
    rt: &HostRuntime,
    places: &Places,
    names: &[&str],
    watching: &mut Watching<'_, '_>,
) -> Result<(), Unwatched> {
    for name in names {
        let name = name.as_bytes();
        let search = Search::Bracketed;
        watching.search(rt, places, b"", Asked { name, search })?;
    }
    Ok(())
}

/// What is watched: in a folder, with a moment in seconds before which changes are settled, where the text names this file of these contents;
/// and changes.
struct Watch {
    folder: &'static str,
    before: i64,
    named: &'static str,
    contents: &'static str,
    changes: &'static str,
}

/// Takes what is watched where the names are asked for, of a text that names this file with these contents.
fn watch_all(
    rt: &HostRuntime,
    watch: &Watch,
    list: &SearchList<'_>,
    watching: &mut Watching<'_, '_>,
) -> Result<(), Unwatched> {
    let contents = watch.contents.as_bytes();
    watching.take_named(rt.alloc(), watch.named, contents, false)?;
    let places = watching.take_folders(rt, list)?;
    search_all(rt, &places, &ASKED, watching)
}

/// The list of what is watched; what was changed before its moment is settled.
fn list_of(rt: &HostRuntime, watch: &Watch) -> Result<Vec<u8>, Unwatched> {
    let alloc = rt.alloc();
    let Some(list) = SearchList::read(alloc, SAID.as_bytes())? else {
        return Err(Unwatched::List);
    };
    let before = FileTime::from_seconds(watch.before);
    let mut watching = Watching::new(alloc, watch.folder.as_bytes(), before);
    let watched = watch_all(rt, watch, &list, &mut watching);
    let bytes = watching.into_list(alloc);
    drop(list);
    watched?;
    bytes
}

/// Whether a list holds in its folder once that is changed.
#[derive(Clone, Copy)]
struct Holds<'a> {
    folder: &'a str,
    list: &'a [u8],
}

impl Question for Holds<'_> {
    fn answer(&self, rt: &HostRuntime, row: &Row<'_>) -> Result<String, Fail> {
        change(rt, self.folder, row.first)?;
        let before = FileTime::from_seconds(i64::MAX);
        let is_held = list_holds(rt, self.folder.as_bytes(), self.list, before);
        whether(rt.alloc(), is_held)
    }
}

/// Makes the changes one after the other, and asks after each whether the list holds; it doesn't for a call in another folder.
fn hold_as(rt: &HostRuntime, watch: &Watch, list: &[u8]) -> Result<(), Fail> {
    let folder = watch.folder;
    are_answered(rt, watch.changes, &Holds { folder, list })?;
    let before = FileTime::from_seconds(i64::MAX);
    let found = list_holds(rt, b"elsewhere", list, before)?;
    holds(!found, "a call in another folder")
}

/// Changes of names, and whether the compiler finds what it found.
const NAMES: &str = r#"
 => yes
write a/y.h new => yes
write a/X.H other => yes
write a/größe.h other => yes
write a/t.h new => no
remove a/größe.h => no
remove a/t.h => yes
folder a/s => yes
write a/s/y.h new => no
remove a/s/y.h => yes
unfold a/s => yes
write a/x.h earlier => no
remove a/x.h => yes
remove b/x.h => no
write b/x.h one => yes
folder a/x.h => no
unfold a/x.h => yes
link a/x.h ../b/x.h => no
remove a/x.h => yes
link a/x.h nowhere => no
remove a/x.h => yes
folder c => no
unfold c => yes
write b/z.h new => yes
"#;

/// Changes of a file that was found and that the text doesn't name, beside one as long as it that the text names, and whether it counts as
/// the same.
const CONTENTS: &str = r#"
 => yes
write b/x.h another => no
write b/x.h one => yes
remove b/x.h => no
"#;

/// Changes of one that is as long as no file that the text names.
const OTHERS: &str = r#"
 => yes
write b/x.h another => yes
remove b/x.h => no
write b/x.h again => yes
"#;

/// Changes of folders, and whether those that the compiler left out as equal ones are so still.
const TWINS: &str = r#"
 => yes
remove d => no
link d a => no
remove d => no
folder d => no
unfold d => no
link d b => yes
remove b/x.h => no
unfold b => no
folder b => no
write b/x.h one => yes
write a/x.h earlier => no
"#;

/// A text that names the header, whose changes don't count then, and those that name another file.
const WATCHES: [Watch; 4] = [
    Watch {
        folder: "gulmaat_tests_names",
        before: 0,
        named: "gulmaat_tests_names/b/x.h",
        contents: "one",
        changes: NAMES,
    },
    Watch {
        folder: "gulmaat_tests_files",
        before: i64::MAX,
        named: "gulmaat_tests_files/none.h",
        contents: "one",
        changes: CONTENTS,
    },
    Watch {
        folder: "gulmaat_tests_others",
        before: i64::MAX,
        named: "gulmaat_tests_others/none.h",
        contents: "longer",
        changes: OTHERS,
    },
    Watch {
        folder: "gulmaat_tests_twins",
        before: i64::MAX,
        named: "gulmaat_tests_twins/none.h",
        contents: "one",
        changes: TWINS,
    },
];

/// Asserts that the list of what is watched holds as the changes say.
fn is_watched(rt: &HostRuntime, watch: &Watch) -> Result<(), Fail> {
    make_fresh(rt, watch.folder)?;
    change_all(rt, watch.folder, TREE)?;
    let Ok(list) = list_of(rt, watch) else {
        return Err("nothing can be watched".into());
    };
    hold_as(rt, watch, list.as_slice())
}

#[test]
fn changes_are_watched(rt: HostRuntime) -> Result<(), Fail> {
    for watch in WATCHES.iter() {
        is_watched(&rt, watch)?;
    }
    Ok(())
}

/// Words, a source, the text that shows what it includes, if there is one, and why there is no list of what to watch, if so; `unclear` where a
/// text has to show what the source includes.
const SOURCES: &str = r#"
-c a.c | int x;\n =>
-c a.c | #include NAME\n =>
-c a.c -DNAME=<x.h> | #include NAME\n =>
-c a.c -D NAME=<x.h> | #include NAME\n =>
-c a.c -DNAME=OTHER | #include NAME\n => unclear
-c a.c -UNAME | #include NAME\n => unclear
-c a.c -DNAME_2=<x.h> | #include NAME\n => unclear
-c a.c | #define NAME <x.h>\n#include NAME\n =>
-c a.c | #define NAME(x) <x.h>\n#include NAME\n => unclear
-c a.c | #define NAME OTHER\n#include NAME\n => unclear
-c a.c | #define __NAME <x.h>\n#include __NAME\n => unclear
-c a.c | #define name <x.h>\n#include name\n => unclear
-c a.c | #line 7 "b.c"\n#include NAME(a)\n => unclear
-c a.c | # 7 "b.c"\n#include NAME(a)\n => computed name
-c a.c -DNOW=__TIME__ | int x;\n => option
-c a.c -I- | int x;\n => option
-c a.c | PASTE(__TI, ME__)\n => pasted time
-c a.c | #embed <x.bin>\n => computed name

-c a.c | #include NAME(a)\n | #include <x.h>\n =>
-c a.c | #include NAME(a)\n | #include_next "x.h" /* clang -E -dI */\n =>
-c a.c | #include NAME(a)\n | # 1 "<built-in>" 1\n#include "x.h"\n# 1 "a.c" 2\n =>
-c a.c | #include NAME(a)\n | # 1 "b.h" 1\n# 7 "c.h"\n# 2 "a.c" 2\n =>
-c a.c | #include NAME(a)\n | # 1 "b.h" 1\n#include <x.h>\n# 2 "a.c" 2\n => computed name
-c a.c | #include NAME(a)\n | # 1 "b.h" 1\n => computed name
-c a.c | #include NAME(a)\n | # 2 "a.c" 2\n => computed name
-c a.c | #include NAME(a)\n | #include "x\\".h"\n => computed name
-c a.c | #include NAME(a)\n | #include NAME\n => computed name
"#;

/// A source of these contents.
fn source_of(alloc: Global, contents: &str) -> Result<TextFiles<'_>, AllocError> {
    let mut files = TextFiles::new(alloc);
    files.sources.push(Source {
        name: b"a.c",
        path: "gulmaat_tests_lists/a.c",
        contents: contents.as_bytes(),
    })?;
    Ok(files)
}

/// Makes a list of what to watch of a source and of the text that shows what it includes; false where such a text is needed and empty.
fn is_listed(
    rt: &HostRuntime,
    line: &CommandLine,
    source: &str,
    shown: &str,
) -> Result<bool, Unwatched> {
    let files = source_of(rt.alloc(), source)?;
    let asking = AskingSources::of(rt.alloc(), line.words.as_slice(), files)?;
    if shown.is_empty() && !asking.are_clear {
        return Ok(false);
    }
    let before = FileTime::from_seconds(i64::MAX);
    let list = asking.list(rt, line, SAID.as_bytes(), shown.as_bytes(), before)?;
    drop(list);
    Ok(true)
}

/// Why there is no list of what to watch; an empty text where there is one.
struct WhyNone;

impl Question for WhyNone {
    fn answer(&self, rt: &HostRuntime, row: &Row<'_>) -> Result<String, Fail> {
        let line = line_of(rt, "gulmaat_tests_lists", row.first)?;
        let listed = is_listed(rt, &line, row.second, row.third);
        drop(line);
        match listed {
            Ok(true) => Ok(String::new(rt.alloc())),
            Ok(false) => says(rt.alloc(), "unclear"),
            Err(why) => text_or_fail(format!(in rt.alloc(); "{why}")),
        }
    }
}

#[test]
fn sources_have_lists(rt: HostRuntime) -> Result<(), Fail> {
    let folder = "gulmaat_tests_lists";
    make_fresh(&rt, folder)?;
    change_all(&rt, folder, TREE)?;
    are_answered(&rt, SOURCES, &WhyNone)
}

/// Names, and whether a listing says that they aren't in a folder. The last one is longer than a name in a folder may be.
const PLAIN: &str = r#"
x.h => yes
X-1_2+3.H => yes
s/y.h => yes
s/../y.h => yes
vector => yes
 => no
. => no
.. => no
../x.h => no
./x.h => no
/x.h => no
.x.h => no
x. => no
LONGNA~1.H => no
größe.h => no
a b.h => no
xxxxxxxxxxxxxxxxxxxxxxxxxxxxxxxxxxxxxxxxxxxxxxxxxxxxxxxxxxxxxxxxxxxxxxxxxxxxxxxxxxxxxxxxxxxxxxxxxxxxxxxxxxxxxxxxxxxxxxxxxxxxxxxxxxxxxxxxxxxxxxxxxxxxxxxxxxxxxxxxxxxxxxxxxxxxxxxxxxxxxxxxxxxxxxxxxxxxxxxxxxxxxxxxxxxxxxxxxxxxxxxxxxxxxxxxxxxxxxxxxxxxxxxxxxxxxxxx => no
"#;

/// Whether a name is plain.
struct IsPlain;

impl Question for IsPlain {
    fn answer(&self, rt: &HostRuntime, row: &Row<'_>) -> Result<String, Fail> {
        match PlainName::of(rt.alloc(), row.first) {
            Ok(plain) => yes_or_no(rt.alloc(), plain.is_some()),
            Err(_) => Err("no memory".into()),
        }
    }
}

#[test]
fn names_are_plain(rt: HostRuntime) -> Result<(), Fail> {
    are_answered(&rt, PLAIN, &IsPlain)
}
