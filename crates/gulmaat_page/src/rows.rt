//! A row of the table of calls.

use crate::commands::{command_of, explanation_of, name_of};
use crate::escaped::{push_cell, push_escaped, push_short};
use crate::reading::Build;
use crate::times::push_time;
use crate::writer::Writer;
use cache_build_log::Call;
use std::alloc::Global;

/// Writes a term and what is said of it, unless that is empty.
fn push_term(html: &mut Writer, name: &str, text: &str) {
    if text.is_empty() {
        return;
    }
    html.push("<dt>");
    html.push(name);
    html.push("</dt><dd>");
    push_escaped(html, text);
    html.push("</dd>");
}

/// Writes the command of a call.
fn push_command(html: &mut Writer, alloc: Global, build: &Build, call: &Call) {
    match command_of(alloc, &build.texts, call) {
        Ok(command) => push_term(html, "command", command.as_str()),
        Err(_) => html.cut(),
    }
}

/// Writes how long a compiler and a preprocessor ran in a call, and how it ended.
fn push_ran(html: &mut Writer, call: &Call) {
    html.push("<dt>ran</dt><dd>compiler ");
    push_time(html, call.time_of(true));
    html.push(", preprocessor ");
    push_time(html, call.time_of(false));
    html.push("</dd><dt>status</dt><dd>");
    html.push_number(call.status);
    html.push(", process ");
    html.push_number(call.process);
    html.push("</dd>");
}

/// Writes the call itself: its name, and after it what is known of it.
fn push_call(html: &mut Writer, alloc: Global, build: &Build, call: &Call) {
    let texts = &build.texts;
    html.push("<details><summary>");
    push_short(html, name_of(texts, call));
    html.push("</summary><dl>");
    push_command(html, alloc, build, call);
    push_term(html, "folder", texts.text(call.dir));
    push_term(html, "output", texts.text(call.output));
    push_term(html, "reason", texts.text(call.reason));
    push_term(html, "differed", texts.text(call.why));
    push_ran(html, call);
    html.push("</dl></details>");
}

/// Writes the row of a call.
pub fn push_row(html: &mut Writer, alloc: Global, build: &Build, call: &Call) {
    html.push("<tr><td class=\"number\">");
    push_time(html, call.start.saturating_sub(build.sums.begin));
    html.push("</td><td class=\"number\">");
    push_time(html, call.time());
    html.push("</td><td><i class=\"");
    html.push(call.kind.class());
    html.push("\"></i>");
    html.push(call.kind.name());
    html.push("</td><td>");
    push_call(html, alloc, build, call);
    html.push("</td>");
    push_cell(html, explanation_of(&build.texts, call));
    html.push("</tr>\n");
}
