//! Directives by which lines of a source have other numbers, or are of another file.

use crate::directives::{MARKS, after_gap, continues_line, may_begin_directive};
use memchr::memchr_iter;

/// The spellings of `#`.
const SPELLINGS: &[&[u8]] = &[b"#", b"%:", b"??="];

/// How such a directive is written.
#[derive(Clone, Copy, PartialEq, Eq)]
enum Form {
    /// As `#line 7 "a.h"`.
    Line,
    /// As `# 7 "a.h" 1`, as the markers of a text are; or in a way that isn't read.
    Marker,
}

/// The form of what comes after the `#`, where it is such a directive or may be one.
fn form_after(after: &[u8]) -> Option<Form> {
    match after_gap(after) {
        [b'/', b'/', ..] => None,
        // Another comment or a line continuation may come before the word.
        [b'0'..=b'9' | b'/' | b'\\', ..] => Some(Form::Marker),
        [b'l', b'i', b'n', b'e', ..] => Some(Form::Line),
        _ => None,
    }
}

/// The form of a text that begins with one of the spellings of `#`.
fn form_of(text: &[u8]) -> Option<Form> {
    for mark in SPELLINGS {
        if let Some(after) = text.strip_prefix(*mark) {
            return form_after(after);
        }
    }
    None
}

/// The form of the directive that begins, or may begin, at the mark at that place of a source.
fn form_at(source: &[u8], at: usize) -> Option<Form> {
    let (front, found) = source.split_at_checked(at)?;
    if continues_line(found) {
        return Some(Form::Marker);
    }
    // Its line may go on after the first byte of a spelling.
    let form = match found.starts_with(b"%\\") {
        true => Form::Marker,
        false => form_of(found)?,
    };
    may_begin_directive(front).then_some(form)
}

/// Whether a directive of one of these forms may begin with that mark in a source.
fn may_be_marked(source: &[u8], mark: u8, forms: &[Form]) -> bool {
    for at in memchr_iter(mark, source) {
        if form_at(source, at).is_some_and(|form| forms.contains(&form)) {
            return true;
        }
    }
    false
}

/// Whether a source has a directive of one of these forms, or what may be one.
fn may_have(source: &[u8], forms: &[Form]) -> bool {
    for mark in MARKS {
        if may_be_marked(source, mark, forms) {
            return true;
        }
    }
    false
}

/// Whether a source has a directive by which lines have other numbers, or what may be one.
pub fn renumbers(source: &[u8]) -> bool {
    may_have(source, &[Form::Line, Form::Marker])
}

/// Whether a source has a directive that is written as the markers of a text are, or what may be one.
pub fn has_markers(source: &[u8]) -> bool {
    may_have(source, &[Form::Marker])
}
