//! The tables of a page: what made misses, what wasn't kept and why, and the calls that took longest.

use crate::advice::advice_for;
use crate::commands::{command_of, name_of};
use crate::escaped::{push_cell, push_escaped, push_short};
use crate::reading::Build;
use crate::rows::push_row;
use crate::times::push_time;
use crate::writer::Writer;
use cache_build_log::{Call, Group, Kind, groups_of};
use std::alloc::{AllocError, Global};
use std::cmp::Reverse;

/// How many calls a page shows without its script, and how many groups at most.
const SHOWN: usize = 500;

const GROUPS: usize = 200;

/// Writes the beginning of a table, whose heads have `|` between them, within a region that scrolls by itself.
fn push_table(html: &mut Writer, id: &str, title: &str, heads: &str) {
    html.push("<div class=\"scrolls\" role=\"region\" tabindex=\"0\" aria-labelledby=\"");
    html.push(id);
    html.push("\">\n<table>\n<caption class=\"unseen\">");
    html.push(title);
    html.push("</caption>\n<thead><tr>");
    for head in heads.split('|') {
        html.push("<th scope=\"col\">");
        html.push(head);
        html.push("</th>");
    }
    html.push("</tr></thead>\n<tbody>\n");
}

/// Writes the first cells of a group.
fn push_group(html: &mut Writer, group: &Group) {
    html.push("<tr><td class=\"number\">");
    html.push_number(group.count);
    html.push("</td><td class=\"number\">");
    push_time(html, group.time);
    html.push("</td>");
    push_cell(html, group.name.as_str());
}

/// Writes how many groups aren't shown, if any aren't, and the end of their table.
fn push_table_end(html: &mut Writer, all: usize) {
    html.push("</tbody>\n</table>\n</div>\n");
    let more = all.saturating_sub(GROUPS);
    if more > 0 {
        html.push("<p class=\"note\">And ");
        html.push_number(more as u64);
        html.push(" more, of less time each.</p>\n");
    }
    html.push("</section>\n");
}

/// Writes the command of a call.
fn push_command(html: &mut Writer, alloc: Global, build: &Build, call: &Call) {
    match command_of(alloc, &build.texts, call) {
        Ok(command) => push_escaped(html, command.as_str()),
        Err(_) => html.cut(),
    }
}

/// Writes an example of a group: the name of a call, and its command.
fn push_example(html: &mut Writer, alloc: Global, build: &Build, call: &Call) {
    html.push("<td><details><summary>");
    push_short(html, name_of(&build.texts, call));
    html.push("</summary><code>");
    push_command(html, alloc, build, call);
    html.push("</code></details></td>");
}

/// Writes the row of a group: of misses with the name of the longest call, else with a way round where there is one, and an example.
fn push_group_row(html: &mut Writer, alloc: Global, build: &Build, group: &Group, is_miss: bool) {
    let Some(call) = build.calls.get(group.longest) else {
        return;
    };
    push_group(html, group);
    if is_miss {
        push_cell(html, name_of(&build.texts, call));
    } else {
        push_cell(html, advice_for(group.name.as_str()));
        push_example(html, alloc, build, call);
    }
    html.push("</tr>\n");
}

/// A section of calls by group.
#[derive(Drop)]
struct Section<'a> {
    id: &'a str,
    title: &'a str,
    kinds: &'a [Kind],
    /// What it says where there are no such calls.
    none: &'a str,
    caption: &'a str,
    /// With `|` between them.
    heads: &'a str,
}

/// Writes the table of a section.
fn push_groups(
    html: &mut Writer,
    alloc: Global,
    build: &Build,
    section: &Section<'_>,
    groups: &[Group],
) {
    let is_miss = matches!(section.kinds, [Kind::Miss]);
    push_table(html, section.id, section.caption, section.heads);
    for (place, group) in groups.iter().enumerate() {
        if place < GROUPS {
            push_group_row(html, alloc, build, group, is_miss);
        }
    }
    push_table_end(html, groups.len());
}

/// Writes a heading.
fn push_heading(html: &mut Writer, id: &str, title: &str) {
    html.push("<section aria-labelledby=\"");
    html.push(id);
    html.push("\">\n<h2 id=\"");
    html.push(id);
    html.push("\">");
    html.push(title);
    html.push("</h2>\n");
}

/// Writes a section.
fn push_section(html: &mut Writer, alloc: Global, build: &Build, section: &Section<'_>) {
    push_heading(html, section.id, section.title);
    match groups_of(alloc, &build.texts, build.calls.as_slice(), section.kinds) {
        Ok(groups) if groups.is_empty() => {
            html.push("<p>");
            html.push(section.none);
            html.push("</p>\n</section>\n");
        }
        Ok(groups) => push_groups(html, alloc, build, section, groups.as_slice()),
        Err(_) => html.cut(),
    }
}

/// Writes the misses by what made them.
pub fn push_misses(html: &mut Writer, alloc: Global, build: &Build) {
    let section = Section {
        id: "misses",
        title: "What made misses",
        kinds: &[Kind::Miss],
        none: "No call was a miss.",
        caption: "Misses by cause",
        heads: "Misses|Time|Cause|Longest call",
    };
    push_section(html, alloc, build, &section);
}

/// Writes the calls that weren't kept by what they came to, with a way round where there is one.
pub fn push_passed(html: &mut Writer, alloc: Global, build: &Build) {
    let section = Section {
        id: "passed",
        title: "What wasn't kept",
        kinds: &[Kind::Uncacheable, Kind::Failure],
        none: "Each call was cacheable.",
        caption: "Calls that weren't kept, by reason",
        heads: "Calls|Time|Reason|What to do|Longest call",
    };
    push_section(html, alloc, build, &section);
}

/// The calls, those that took longest first: of each its time, and its place.
fn longest(alloc: Global, build: &Build) -> Result<Vec<(Reverse<u64>, usize)>, AllocError> {
    let mut places: Vec<(Reverse<u64>, usize)> = Vec::new(alloc);
    for (place, call) in build.calls.iter().enumerate() {
        places.push((Reverse(call.time()), place))?;
    }
    places.sort_unstable();
    Ok(places)
}

/// Writes the rows of the calls that took longest.
fn push_rows(html: &mut Writer, alloc: Global, build: &Build) {
    let Ok(places) = longest(alloc, build) else {
        return html.cut();
    };
    for (turn, (_, place)) in places.iter().enumerate() {
        match build.calls.get(*place) {
            Some(call) if turn < SHOWN => push_row(html, alloc, build, call),
            _ => {}
        }
    }
}

/// Writes the table of calls: those that took longest, until the script shows all.
pub fn push_calls(html: &mut Writer, alloc: Global, build: &Build) {
    let calls = build.calls.len();
    push_heading(html, "calls", "Calls");
    html.push("<div id=\"tools\" hidden></div>\n<p id=\"shown\" role=\"status\">");
    html.push_number(calls.min(SHOWN) as u64);
    html.push(" of ");
    html.push_number(calls as u64);
    html.push(", those that took longest.</p>\n");
    push_table(html, "calls", "All calls", "Began|Took|Came to|Call|Why");
    push_rows(html, alloc, build);
    html.push("</tbody>\n</table>\n</div>\n</section>\n");
}
