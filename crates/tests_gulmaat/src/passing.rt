//! Words by which a call is passed through before the session is asked.

use crate::disks::line_of;
use crate::rows::{Question, Row, are_answered};
use cache_c_requests::reason_against;
use cmdlines_tables::CCompilerKind;
use std::test::Fail;

/// Words, and the one that speaks against keeping; nothing where none does.
const REASONS: &str = r#"
-c a.c =>
-c -x c++ a.c =>
-c a.c -x c++ => -x
-c a.c -xc++ => -xc++
-c a.c -o -x =>
-c -include a.h -x c a.c =>
-E a.c -x c++ =>
-c a.c -Wa,-adhln=x.lst => -Wa,-adhln=x.lst
-c a.c -Wa,--noexecstack =>
-c a.c -Wa,-mtune=generic32,-march=armv8.5-a+crc =>
-c a.c -Xassembler -msse-check=error =>
-c a.c -Wa,-O2,--mri => -Wa,-O2,--mri
-c @words => @words
-c a.c -o /dev/fd/3 => /dev/fd/3
-c a.c -MD -MF - => -
-c a.c -Wp,-MD,a.d -Wp,-MT,a,b => -Wp,-MT,a,b
-c a.c -fno-such-thing => -fno-such-thing
-c a.c -specs=a.specs --specs=b.specs =>
-c a.c -g -grecord-gcc-switches =>
-c a.c -frecord-gcc-switches => -frecord-gcc-switches
-c a.c --param max-inline-insns-single=7 =>
"#;

/// The word that speaks against keeping.
struct ReasonAgainst;

impl Question for ReasonAgainst {
    fn answer(&self, rt: &HostRuntime, row: &Row<'_>) -> Result<String, Fail> {
        let line = line_of(rt, "/d", row.first)?;
        let reason = reason_against(rt.alloc(), &line, CCompilerKind::Gcc);
        drop(line);
        match reason {
            Ok(Some(reason)) => Ok(reason),
            Ok(None) => Ok(String::new(rt.alloc())),
            Err(_) => Err("no memory".into()),
        }
    }
}

#[test]
fn words_speak_against_keeping(rt: HostRuntime) -> Result<(), Fail> {
    are_answered(&rt, REASONS, &ReasonAgainst)
}
