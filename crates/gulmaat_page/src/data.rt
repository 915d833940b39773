//! What a page's script reads: all calls, with texts by number.

use crate::reading::Build;
use crate::writer::Writer;
use cache_build_log::{Call, Kind, TextId};

/// Writes the names of all kinds, and those that they have in a page's style.
fn push_kinds(json: &mut Writer) {
    json.push("\"kinds\":[");
    let mut mark = "";
    for kind in Kind::ALL.as_slice() {
        json.push(mark);
        json.push_quoted(kind.name());
        mark = ",\n";
    }
    json.push("],\n\"classes\":[");
    mark = "";
    for kind in Kind::ALL.as_slice() {
        json.push(mark);
        json.push_quoted(kind.class());
        mark = ",\n";
    }
    json.push("],\n");
}

/// Writes all texts.
fn push_texts(json: &mut Writer, texts: &[String]) {
    json.push("\"texts\":[");
    let mut mark = "";
    for text in texts {
        json.push(mark);
        json.push_quoted(text.as_str());
        mark = ",\n";
    }
    json.push("],\n");
}

/// Writes a number, with a comma before it.
fn push_next(json: &mut Writer, number: u64) {
    json.push(",");
    json.push_number(number);
}

/// Writes the number of a text, or another small one, with a comma before it.
fn push_id(json: &mut Writer, id: TextId) {
    push_next(json, u64::from(id));
}

/// Writes what a call came to, and the texts of it.
fn push_ids(json: &mut Writer, call: &Call) {
    push_id(json, call.lane);
    push_id(json, call.kind.number());
    push_id(json, call.what);
    push_next(json, call.status);
    push_next(json, call.process);
    push_id(json, call.compiler);
    push_id(json, call.dir);
    push_id(json, call.input);
    push_id(json, call.output);
    push_id(json, call.reason);
    push_id(json, call.why);
}

/// Writes a call as a list of numbers, of which the last ones are its words.
fn push_call(json: &mut Writer, build: &Build, call: &Call) {
    json.push("[");
    json.push_number(call.start.saturating_sub(build.sums.begin));
    push_next(json, call.time());
    push_ids(json, call);
    push_next(json, call.time_of(false));
    push_next(json, call.time_of(true));
    push_next(json, call.bytes);
    push_next(json, call.saved());
    for word in call.words.as_slice() {
        push_id(json, *word);
    }
    json.push("]");
}

/// Writes the calls.
fn push_calls(json: &mut Writer, build: &Build) {
    json.push("\"calls\":[");
    let mut mark = "";
    for call in build.calls.as_slice() {
        json.push(mark);
        push_call(json, build, call);
        mark = ",\n";
    }
    json.push("]}");
}

/// Writes what the script reads.
pub fn push_data(html: &mut Writer, build: &Build) {
    html.push("<script type=\"application/json\" id=\"build\">{\"wall\":");
    html.push_number(build.sums.wall_time());
    html.push(",\"lanes\":");
    html.push_number(u64::from(build.lanes));
    html.push(",\n");
    push_kinds(html);
    push_texts(html, build.texts.all());
    push_calls(html, build);
    html.push("</script>\n");
}
