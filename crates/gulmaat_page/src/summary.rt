//! What one wants to know of a build first.

use crate::commands::name_of;
use crate::escaped::push_short;
use crate::reading::Build;
use crate::times::{push_percent, push_time};
use crate::writer::Writer;
use cache_build_log::{Kind, Share, Sums};

/// What the count of a kind is called.
pub fn count_name(kind: Kind) -> &'static str {
    match kind {
        Kind::Direct => "Direct hits",
        Kind::ByText => "Hits by text",
        Kind::Miss => "Misses",
        Kind::Uncacheable => "Uncacheable",
        Kind::Failure => "Failures of gulmaat",
        Kind::Other => "Other commands",
    }
}

/// Writes what is to be said of a fact, unless that is empty, and the end of the fact.
fn push_more(html: &mut Writer, more: &str) {
    if !more.is_empty() {
        html.push("<dd class=\"more\">");
        push_short(html, more);
        html.push("</dd>");
    }
    html.push("</div>\n");
}

/// Writes the name of a fact.
fn push_fact(html: &mut Writer, name: &str) {
    html.push("<div><dt>");
    html.push(name);
    html.push("</dt><dd>");
}

/// Writes the name of a fact that is a count, and the count.
fn push_number(html: &mut Writer, name: &str, count: u64) {
    push_fact(html, name);
    html.push("<b data-count=\"");
    html.push_number(count);
    html.push("\">");
    html.push_number(count);
    html.push("</b></dd>");
}

/// Writes which part of all calls these are, and how long they took.
fn push_share(html: &mut Writer, share: Share, all: u64) {
    html.push("<dd class=\"more\">");
    push_percent(html, share.count, all);
    html.push(", ");
    push_time(html, share.time);
    html.push("</dd>");
}

/// Writes how many calls there are of a kind. Other commands are left out where there are none.
fn push_count(html: &mut Writer, sums: &Sums, kind: Kind) {
    let share = sums.share(kind);
    if share.count == 0 && matches!(kind, Kind::Other) {
        return;
    }
    push_number(html, count_name(kind), share.count);
    if share.count > 0 {
        push_share(html, share, sums.calls);
    }
    html.push("</div>\n");
}

/// Writes how many calls there are, and of each kind.
fn push_counts(html: &mut Writer, sums: &Sums) {
    push_number(html, "Calls", sums.calls);
    html.push("</div>\n");
    for kind in Kind::ALL.as_slice() {
        push_count(html, sums, *kind);
    }
}

/// Writes a time.
fn push_span(html: &mut Writer, name: &str, time: u64, more: &str) {
    push_fact(html, name);
    push_time(html, time);
    html.push("</dd>");
    push_more(html, more);
}

/// Writes what was saved, and of how many hits that isn't known.
fn push_saved(html: &mut Writer, sums: &Sums) {
    let unknown = sums.unknown;
    if unknown == 0 {
        return push_span(html, "Time saved", sums.saved, "of compilers, by hits");
    }
    push_fact(html, "Time saved");
    push_time(html, sums.saved);
    html.push("</dd><dd class=\"more\">of compilers, by hits; unknown of ");
    html.push_number(unknown);
    html.push("</dd></div>\n");
}

/// Writes the times of a build.
fn push_times(html: &mut Writer, sums: &Sums) {
    let more = "in all, of all jobs";
    push_span(html, "Wall time", sums.wall_time(), "");
    push_span(html, "Compilers", sums.compilers, more);
    push_span(html, "Preprocessors", sums.preprocessors, more);
    push_saved(html, sums);
}

/// Writes the longest miss, where there is one.
fn push_longest(html: &mut Writer, build: &Build) {
    match build.longest_of(&[Kind::Miss]) {
        Some(call) => {
            let name = name_of(&build.texts, call);
            push_span(html, "Longest miss", call.time(), name);
        }
        None => html.push("<div><dt>Longest miss</dt><dd>none</dd></div>\n"),
    }
}

/// Writes the sums of a build.
pub fn push_summary(html: &mut Writer, build: &Build) {
    html.push(
        "<section aria-labelledby=\"sums\">\n<h2 id=\"sums\">Summary</h2>\n<dl class=\"facts\">\n",
    );
    push_counts(html, &build.sums);
    push_times(html, &build.sums);
    push_longest(html, build);
    html.push("</dl>\n</section>\n");
}
