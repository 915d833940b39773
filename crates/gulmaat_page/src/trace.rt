//! A build in the format of Chrome's traces: each call an event in its lane, with what ran in it nested.

use crate::commands::{command_of, name_of};
use crate::reading::Build;
use crate::writer::Writer;
use cache_build_log::{Call, Ran};
use std::alloc::{AllocError, Global};

/// Writes a member of a text, unless that is empty.
fn push_member(json: &mut Writer, name: &str, text: &str) {
    if text.is_empty() {
        return;
    }
    json.push(",\"");
    json.push(name);
    json.push("\":");
    json.push_quoted(text);
}

/// Writes a member of a number.
fn push_count(json: &mut Writer, name: &str, number: u64) {
    json.push(",\"");
    json.push(name);
    json.push("\":");
    json.push_number(number);
}

/// Writes the beginning of an event: its name, its category, when it began, how long it took, and its lane.
fn push_event(json: &mut Writer, name: &str, category: &str, start: u64, time: u64, lane: u32) {
    json.push(",\n{\"ph\":\"X\",\"pid\":1,\"name\":");
    json.push_quoted(name);
    json.push(",\"cat\":\"");
    json.push(category);
    json.push("\"");
    push_count(json, "ts", start);
    push_count(json, "dur", time);
    push_count(json, "tid", u64::from(lane));
}

/// Writes what ran in a call.
fn push_ran(json: &mut Writer, build: &Build, call: &Call, ran: &Ran) {
    let name = if ran.is_compile {
        "compiler"
    } else {
        "preprocessor"
    };
    let since = ran.start.saturating_sub(build.sums.begin);
    push_event(json, name, name, since, ran.time(), call.lane);
    json.push("}");
}

/// Writes the command of a call.
fn push_command(json: &mut Writer, alloc: Global, build: &Build, call: &Call) {
    match command_of(alloc, &build.texts, call) {
        Ok(command) => push_member(json, "command", command.as_str()),
        Err(_) => json.cut(),
    }
}

/// Writes what is known of a call.
fn push_facts(json: &mut Writer, alloc: Global, build: &Build, call: &Call) {
    let texts = &build.texts;
    json.push(",\"args\":{\"status\":");
    json.push_number(call.status);
    push_member(json, "came to", texts.text(call.what));
    push_command(json, alloc, build, call);
    push_member(json, "folder", texts.text(call.dir));
    push_member(json, "output", texts.text(call.output));
    push_member(json, "reason", texts.text(call.reason));
    push_member(json, "differed", texts.text(call.why));
    json.push("}}");
}

/// Writes a call with what ran in it.
fn push_call(json: &mut Writer, alloc: Global, build: &Build, call: &Call) {
    let since = call.start.saturating_sub(build.sums.begin);
    let name = name_of(&build.texts, call);
    push_event(json, name, call.kind.name(), since, call.time(), call.lane);
    push_facts(json, alloc, build, call);
    for ran in call.ran.as_slice() {
        push_ran(json, build, call, ran);
    }
}

/// Writes the name of a lane.
fn push_lane(json: &mut Writer, lane: u32) {
    json.push(",\n{\"ph\":\"M\",\"pid\":1,\"tid\":");
    json.push_number(u64::from(lane));
    json.push(",\"name\":\"thread_name\",\"args\":{\"name\":\"job ");
    json.push_number(u64::from(lane.saturating_add(1)));
    json.push("\"}}");
}

/// The trace of a build.
pub fn trace(alloc: Global, build: &Build) -> Result<String, AllocError> {
    let mut json = Writer::new(alloc);
    json.push("{\"displayTimeUnit\":\"ms\",\"otherData\":{\"broken lines\":");
    json.push_number(build.broken);
    json.push(
        "},\"traceEvents\":[\n\
         {\"ph\":\"M\",\"pid\":1,\"name\":\"process_name\",\"args\":{\"name\":\"build\"}}",
    );
    for lane in 0..build.lanes {
        push_lane(&mut json, lane);
    }
    for call in build.calls.as_slice() {
        push_call(&mut json, alloc, build, call);
    }
    json.push("\n]}\n");
    json.done()
}
