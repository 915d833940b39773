//! Where compilers say that they look: lines of GCC 12 and Clang 14, asked by `-E -v`.

use crate::rows::{Question, Row, are_answered, text_or_fail};
use cache_searched_folders::SearchList;
use std::alloc::{AllocError, Global};
use std::fmt::Write;
use std::test::Fail;

/// What compilers say, and what is read of it.
const SAID: &str = r#"
 => none
gcc version 12\n#include "..." search starts here:\n#include <...> search starts here:\n /usr/include\n => none
#include "..." search starts here:\n#include <...> search starts here:\nEnd of search list.\n =>
Using built-in specs.\nignoring nonexistent directory "/usr/local/include/x86_64-linux-gnu"\nignoring duplicate directory "inc"\n  as it is a non-system directory that duplicates a system directory\n#include "..." search starts here:\n quoted\n#include <...> search starts here:\n .\n /usr/include\nEnd of search list.\nCOMPILER_PATH=/usr/lib\n => ; quoted: quoted; all: . /usr/include; left out: /usr/local/include/x86_64-linux-gnu inc
Found candidate GCC installation: /usr/bin/../lib/gcc/x86_64-linux-gnu/12\nSelected GCC installation: /usr/bin/../lib/gcc/x86_64-linux-gnu/12\n#include "..." search starts here:\n#include <...> search starts here:\n /usr/include\nEnd of search list.\n => ; all: /usr/include; gcc: /usr/bin/../lib/gcc/x86_64-linux-gnu/12 /usr/bin/../lib/gcc/x86_64-linux-gnu/12
#include "..." la recherche commence ici :\n /usr/include\nFin de la liste de recherche.\n => none
#include "..." search starts here:\n#include <...> search starts here:\n a b\n  c\nEnd of search list.\n => ; all: a b  c
"#;

/// Adds folders after their name, where there are some.
fn write_folders(text: &mut String, name: &str, folders: &[&str]) -> Result<(), AllocError> {
    if folders.is_empty() {
        return Ok(());
    }
    write!(text, "; {name}:")?;
    for folder in folders {
        write!(text, " {folder}")?;
    }
    Ok(())
}

/// Adds what is read of what a compiler says.
fn write_found(text: &mut String, found: &SearchList<'_>) -> Result<(), AllocError> {
    write_folders(text, "quoted", found.quoted.as_slice())?;
    write_folders(text, "all", found.bracketed.as_slice())?;
    write_folders(text, "left out", found.left_out.as_slice())?;
    write_folders(text, "gcc", found.installations.as_slice())
}

/// What is read, as text.
fn text_of_found(alloc: Global, found: &SearchList<'_>) -> Result<String, AllocError> {
    let mut text = String::new(alloc);
    write_found(&mut text, found)?;
    Ok(text)
}

/// What is read of what a compiler says, as text.
fn text_of(alloc: Global, said: &str) -> Result<String, AllocError> {
    match SearchList::read(alloc, said.as_bytes())? {
        Some(found) => text_of_found(alloc, &found),
        None => String::from_str(alloc, "none"),
    }
}

/// What is read of what a compiler says.
struct Found;

impl Question for Found {
    fn answer(&self, rt: &HostRuntime, row: &Row<'_>) -> Result<String, Fail> {
        text_or_fail(text_of(rt.alloc(), row.first))
    }
}

#[test]
fn compilers_tell_where_they_look(rt: HostRuntime) -> Result<(), Fail> {
    are_answered(&rt, SAID, &Found)
}
