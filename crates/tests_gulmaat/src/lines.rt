//! Lines as they were written: which changes of a source change what is bound to a key beside its text.

use crate::disks::{change, make_fresh};
use crate::rows::{Question, Row, are_answered, says, text_or_fail, yes_or_no};
use base_files::OsBytes;
use cache_written_lines::{Asked, NamedFile, NamedFiles, Sources, digest_asked};
use std::alloc::{AllocError, Global};
use std::fmt::Write;
use std::fs;
use std::test::Fail;

/// A source before and after a change, the text of both, and what is the same: their lines, and all their contents.
const CHANGES: &str = r#"
int x;\n | int x;\n | # 1 "a.c"\nint x;\n => lines contents
int  x;\n | int /* y */ x;\n | # 1 "a.c"\nint x;\n =>
int x;\n// one\n | int x;\n// two\n | # 1 "a.c"\nint x;\n => lines
#if 0\nx\n#endif\nint x;\n | #if 0\ny\n#endif\nint x;\n | # 1 "a.c"\n\n\n\nint x;\n => lines
int x = N;\n | int x =  N;\n | # 1 "a.c"\nint x = 1;\n =>
 int x;\n | \tint x;\n | # 1 "a.c"\n int x;\n =>
#line 7\nint x;\n | #line 8\nint x;\n | # 7 "a.c"\nint x;\n =>
/* a */ #line 7\nint x;\n | /* a */ #line 8\nint x;\n | # 7 "a.c"\nint x;\n =>
 %:line 7\nint x;\n |  %:line 8\nint x;\n | # 7 "a.c"\nint x;\n =>
??=line 7\nint x;\n | ??=line 8\nint x;\n | # 7 "a.c"\nint x;\n =>
char *x = "%:";\n// one\n | char *x = "%:";\n// two\n | # 1 "a.c"\nchar *x = "%:";\n => lines
int x = F(1,\n2); | int x = F(1,\n 2); | # 1 "a.c"\nint x = 3;\n\nint y; =>
"#;

/// The digest that is asked for of a text of these files.
fn digest_by(
    alloc: Global,
    asked: Asked,
    text: &str,
    named: &mut NamedFiles,
) -> Result<OsBytes, Fail> {
    let Ok(sources) = Sources::of(alloc, named) else {
        return Err("no sources".into());
    };
    match digest_asked(alloc, asked, text.as_bytes(), sources) {
        Ok(digest) => Ok(digest),
        Err(_) => Err("no digest".into()),
    }
}

/// The digest of what is asked of a source with these contents and that text.
fn digest_of(rt: &HostRuntime, asked: Asked, source: &str, text: &str) -> Result<OsBytes, Fail> {
    fs::write(rt, "gulmaat_tests_lines/a.c", source.as_bytes())?;
    let mut named = NamedFiles::of(rt, b"gulmaat_tests_lines", text.as_bytes())?;
    named.read(rt);
    digest_by(rt.alloc(), asked, text, &mut named)
}

/// Whether the same is asked of a source before and after a change.
fn are_alike(rt: &HostRuntime, asked: Asked, row: &Row<'_>) -> Result<bool, Fail> {
    let before = digest_of(rt, asked, row.first, row.third)?;
    let after = digest_of(rt, asked, row.second, row.third)?;
    Ok(before == after)
}

/// What is the same before and after a change.
struct SameParts;

impl Question for SameParts {
    fn answer(&self, rt: &HostRuntime, row: &Row<'_>) -> Result<String, Fail> {
        let lines = are_alike(rt, Asked::Lines, row)?;
        let contents = are_alike(rt, Asked::Contents, row)?;
        let text = match (lines, contents) {
            (true, true) => "lines contents",
            (true, false) => "lines",
            (false, true) => "contents",
            (false, false) => "",
        };
        says(rt.alloc(), text)
    }
}

#[test]
fn lines_are_as_written(rt: HostRuntime) -> Result<(), Fail> {
    make_fresh(&rt, "gulmaat_tests_lines")?;
    are_answered(&rt, CHANGES, &SameParts)
}

/// Texts, and the files that they name for a call in `/d`.
const NAMED: &str = r#"
 =>
# 1 "a.c"\n# 1 "<built-in>"\n# 1 "a.c"\n => /d/a.c
# 1 "a.c"\n# 1 "/d//"\n# 1 "/i/x.h" 1 3 4\nint x;\n# 2 "a.c" 2\n => /d/a.c /i/x.h
# 1 "b\\\\c.h"\n => /d/b\\c.h
#line 1 "a.c"\n => /d/a.c
"#;

/// The paths of these files.
fn paths_of(alloc: Global, files: &[NamedFile]) -> Result<String, AllocError> {
    let mut text = String::new(alloc);
    for file in files {
        write!(text, " {}", file.path)?;
    }
    Ok(text)
}

/// The files that a text names.
struct FilesNamed;

impl Question for FilesNamed {
    fn answer(&self, rt: &HostRuntime, row: &Row<'_>) -> Result<String, Fail> {
        let named = NamedFiles::of(rt, b"/d", row.first.as_bytes())?;
        if !named.are_all {
            return Err("more files".into());
        }
        text_or_fail(paths_of(rt.alloc(), named.files.as_slice()))
    }
}

#[test]
fn texts_name_files(rt: HostRuntime) -> Result<(), Fail> {
    are_answered(&rt, NAMED, &FilesNamed)
}

/// What is done in a folder once a text named its file `a.h`, and whether all is as it was.
const DONE: &str = r#"
 => yes
write other.h 1 => yes
write a.h longer => no
remove a.h => no
"#;

/// Whether named files are unchanged once that was done.
struct AreUnchanged;

impl Question for AreUnchanged {
    fn answer(&self, rt: &HostRuntime, row: &Row<'_>) -> Result<String, Fail> {
        let folder = "gulmaat_tests_named";
        make_fresh(rt, folder)?;
        change(rt, folder, "write a.h 1")?;
        let text = b"# 1 \"a.h\"\n# 1 \"none.h\"\n";
        let named = NamedFiles::of(rt, folder.as_bytes(), text.as_slice())?;
        let done = change(rt, folder, row.first);
        let are_unchanged = named.are_unchanged(rt);
        drop(named);
        done?;
        yes_or_no(rt.alloc(), are_unchanged)
    }
}

#[test]
fn named_files_are_as_they_were_or_not(rt: HostRuntime) -> Result<(), Fail> {
    are_answered(&rt, DONE, &AreUnchanged)
}
