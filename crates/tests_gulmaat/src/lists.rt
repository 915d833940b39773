//! Lists of files for Make.

use crate::rows::{Question, Row, are_answered, whether};
use cache_source_files::names_files_of;
use std::test::Fail;

/// A dependency file, a list of the files of a text, and whether that has all of the first one's.
const FILES: &str = r#"
a.o: a.c\n | x: a.c\n => yes
a.o: a.c a.h\n | x: a.c a.h b.h\n => yes
a.o: a.c a.h\n | x: a.c\n => no
a.o: a.c \\\n a.h\n | x: a.h a.c\n => yes
a.o: a.c \\\n b.h\n | x: a.c a.h\n => no
a.o b.o: a.c\n\na.h:\n | x: a.c\n => yes
d\\ ir/a.o: d\\ ir/a.c\n | x: d\\ ir/a.c\n => yes
a.o: a.c\n => no
 | x: a.c\n => yes
"#;

/// Whether a list has all files of another.
struct HasFiles;

impl Question for HasFiles {
    fn answer(&self, rt: &HostRuntime, row: &Row<'_>) -> Result<String, Fail> {
        let (written, list) = (row.first.as_bytes(), row.second.as_bytes());
        whether(rt.alloc(), names_files_of(rt.alloc(), written, list))
    }
}

#[test]
fn lists_have_files(rt: HostRuntime) -> Result<(), Fail> {
    are_answered(&rt, FILES, &HasFiles)
}
