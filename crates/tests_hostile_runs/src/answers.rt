//! What answers say.

use base_files::OsBytes;
use ckeys_records::Fault;
use std::alloc::{AllocError, Global};
use std::fmt::Display;
use wrap_base::{Answer, How, Output};

/// What an answer says, as texts.
#[derive(Drop)]
pub(crate) struct AnswerTexts {
    /// Where outputs came from, or that the request passes, or that there is a fault.
    pub(crate) word: &'static str,
    /// The name and length of each output, or why the request passes or fails.
    pub(crate) brief: String,
    /// The name, path and contents of each output, or why the request passes or fails.
    pub(crate) whole: String,
}

impl AnswerTexts {
    /// Whether both have the same outputs, or the same reason.
    pub(crate) fn agrees(&self, other: &AnswerTexts) -> bool {
        self.whole.as_str() == other.whole.as_str()
    }

    /// Whether it is this fault.
    pub(crate) fn is_fault(&self, reason: &str) -> bool {
        matches!(self.word, "fault") && self.whole.as_str() == reason
    }
}

/// The word of an answer with outputs.
fn word_of(how: How) -> &'static str {
    match how {
        How::Direct => "direct",
        How::Stored => "stored",
        How::Fresh => "fresh",
    }
}

/// An answer without outputs, for this reason.
fn of_reason<D: Display>(
    alloc: Global,
    word: &'static str,
    reason: &D,
) -> Result<AnswerTexts, AllocError> {
    Ok(AnswerTexts {
        word,
        brief: format!(in alloc; " {reason}")?,
        whole: format!(in alloc; "{reason}")?,
    })
}

/// The name and length of each output, and the length of the text on dependencies.
fn brief_of(
    alloc: Global,
    map: &[Output],
    dep_info: Option<&OsBytes>,
) -> Result<String, AllocError> {
    let mut brief = String::new(alloc);
    for output in map {
        let length = output.contents.as_bytes().len();
        write!(brief, " {}:{length}", output.name)?;
    }
    if let Some(dep_info) = dep_info {
        write!(brief, " dep-info:{}", dep_info.as_bytes().len())?;
    }
    Ok(brief)
}

/// The name, path and contents of each output, and the text on dependencies.
fn whole_of(
    alloc: Global,
    map: &[Output],
    dep_info: Option<&OsBytes>,
) -> Result<String, AllocError> {
    let mut whole = String::new(alloc);
    for output in map {
        write!(
            whole,
            "{} {} {};",
            output.name, output.path, output.contents
        )?;
    }
    if let Some(dep_info) = dep_info {
        write!(whole, "{dep_info}")?;
    }
    Ok(whole)
}

/// An answer with outputs.
fn of_outputs(
    alloc: Global,
    how: How,
    map: &[Output],
    dep_info: Option<&OsBytes>,
) -> Result<AnswerTexts, AllocError> {
    Ok(AnswerTexts {
        word: word_of(how),
        brief: brief_of(alloc, map, dep_info)?,
        whole: whole_of(alloc, map, dep_info)?,
    })
}

/// What this answer says.
pub(crate) fn answer_texts(
    alloc: Global,
    answer: &Result<Answer, Fault>,
) -> Result<AnswerTexts, AllocError> {
    match answer {
        Ok(Answer::Pass(reason)) => of_reason(alloc, "pass", reason),
        Ok(Answer::Outputs { map, how, dep_info }) => {
            of_outputs(alloc, *how, map.as_slice(), dep_info.as_ref())
        }
        Err(fault) => of_reason(alloc, "fault", fault),
    }
}

/// Adds a line where what has to be so isn't.
pub(crate) fn push_unless(is_so: bool, what: &str, text: &mut String) -> Result<(), AllocError> {
    if is_so {
        return Ok(());
    }
    writeln!(text, "not so: {what}")
}
