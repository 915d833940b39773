//! What a log of builds reports, shown as a page, as a trace or beside another log.
//!
//! Of what is here nothing is promised but that each function is safe and ends, whatever a log has in it.
#![tactic(auto)]

mod advice;
mod asked;
mod changes;
mod commands;
mod compare;
mod data;
mod error;
mod escaped;
mod frame;
mod page;
mod picture;
mod reading;
mod rows;
mod summary;
mod tables;
mod times;
mod trace;
mod writer;

use asked::{Asked, AskedLog, read_words};
use compare::compare;
pub use error::PageError;
use page::page;
use reading::{Build, read_build, read_text};
use std::rt::Files;
use trace::trace;

/// Prints what a user's words ask for: `--page LOG` or `--trace LOG`, each with `--all` or `--ninja FILE` after it, or `--compare LOG LOG`.
/// The page's script and style lie in the folder, as `page.js` and `page.css`. Where the words are wrong, or a file can't be read, nothing is
/// printed.
pub fn show_builds<R: Print + Files + AllocGlobal>(
    rt: &R,
    folder: &str,
    words: &[String],
) -> Result<(), PageError> {
    let text = shown(rt, folder, words)?;
    Ok(rt.print(text.as_str())?)
}

/// What is asked for by these words, as a text.
fn shown<R: Files + AllocGlobal>(
    rt: &R,
    folder: &str,
    words: &[String],
) -> Result<String, PageError> {
    match read_words(words) {
        Ok(Asked::Page(log)) => page_of(rt, folder, &log),
        Ok(Asked::Trace(log)) => trace_of(rt, &log),
        Ok(Asked::Compare(one, other)) => comparison_of(rt, one, other),
        Err(right) => Err(PageError::wrong(rt.alloc(), right)),
    }
}

/// The page of a build.
fn page_of<R: Files + AllocGlobal>(
    rt: &R,
    folder: &str,
    log: &AskedLog<'_>,
) -> Result<String, PageError> {
    let build = read_build(rt, log)?;
    page_in(rt, folder, &build)
}

/// The page of a build, with the script and the style that lie in this folder.
fn page_in<R: Files + AllocGlobal>(
    rt: &R,
    folder: &str,
    build: &Build,
) -> Result<String, PageError> {
    let script = read_part(rt, folder, "page.js")?;
    let style = read_part(rt, folder, "page.css")?;
    Ok(page(rt.alloc(), build, script.as_str(), style.as_str())?)
}

/// The text of a file of this name in a folder.
fn read_part<R: Files + AllocGlobal>(
    rt: &R,
    folder: &str,
    name: &str,
) -> Result<String, PageError> {
    let path = format!(in rt.alloc(); "{folder}/{name}")?;
    read_text(rt, path.as_str())
}

/// The trace of a build.
fn trace_of<R: Files + AllocGlobal>(rt: &R, log: &AskedLog<'_>) -> Result<String, PageError> {
    let build = read_build(rt, log)?;
    Ok(trace(rt.alloc(), &build)?)
}

/// The last builds of two logs side by side.
fn comparison_of<R: Files + AllocGlobal>(
    rt: &R,
    one: &str,
    other: &str,
) -> Result<String, PageError> {
    let one = read_build(rt, &AskedLog::last_of(one))?;
    let other = read_build(rt, &AskedLog::last_of(other))?;
    Ok(compare(rt.alloc(), &one, &other)?)
}
