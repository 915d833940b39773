//! The picture of a build over time: a lane for each job, and a bar for each call.

use crate::reading::Build;
use crate::times::{push_time, push_two};
use crate::writer::Writer;
use cache_build_log::{Call, Kind};

/// How wide the picture is in hundredths, how high a lane and a bar are, and how wide a bar is at least, in hundredths.
const WIDTH: u64 = 100_000;

const LANE: u64 = 16;

const BAR: u64 = 12;

const LEAST: u64 = 20;

/// The place of a moment of a build in hundredths.
fn place_of(build: &Build, moment: u64) -> u64 {
    let since = moment.saturating_sub(build.sums.begin);
    let all = build.sums.wall_time().max(1);
    let place = match since.checked_mul(WIDTH) {
        Some(product) => product.checked_div(all),
        // So long that nothing is lost.
        None => since.checked_div((all / WIDTH).max(1)),
    };
    place.unwrap_or(0).min(WIDTH)
}

/// Writes a number of hundredths.
fn push_hundredths(html: &mut Writer, number: u64) {
    html.push_number(number / 100);
    html.push(".");
    push_two(html, number % 100);
}

/// Writes the bar of a call, as a part of a path.
fn push_bar(html: &mut Writer, build: &Build, call: &Call) {
    let start = place_of(build, call.start);
    let wide = place_of(build, call.end).saturating_sub(start).max(LEAST);
    let top = u64::from(call.lane).saturating_mul(LANE).saturating_add(2);
    html.push("M");
    push_hundredths(html, start);
    html.push(" ");
    html.push_number(top);
    html.push("h");
    push_hundredths(html, wide);
    html.push("v");
    html.push_number(BAR);
    html.push("h-");
    push_hundredths(html, wide);
    html.push("z");
}

/// Writes the bars of a kind, as one path.
fn push_bars(html: &mut Writer, build: &Build, kind: Kind) {
    html.push("<path class=\"bars ");
    html.push(kind.class());
    html.push("\" fill=\"url(#hatch-");
    html.push(kind.class());
    html.push(")\" d=\"");
    for call in build.calls.as_slice() {
        if call.kind == kind {
            push_bar(html, build, call);
        }
    }
    html.push("\"/>\n");
}

/// What is drawn over the colour of a kind, so that it can be recognized without that.
fn hatch_of(kind: Kind) -> &'static str {
    match kind {
        Kind::Direct => "",
        Kind::ByText => "<path d=\"M0 6h8\"/>",
        Kind::Miss => "<path d=\"M-2 10L10 -2M-2 2L2 -2M6 10L10 6\"/>",
        Kind::Uncacheable => "<path d=\"M4 0v8\"/>",
        Kind::Failure => "<path d=\"M0 0L8 8M8 0L0 8\"/>",
        Kind::Other => "<path d=\"M0 2h8M0 6h8\"/>",
    }
}

/// Writes the pattern of a kind.
fn push_pattern(html: &mut Writer, kind: Kind) {
    html.push("<pattern id=\"hatch-");
    html.push(kind.class());
    html.push("\" class=\"");
    html.push(kind.class());
    html.push(
        "\" width=\"8\" height=\"8\" patternUnits=\"userSpaceOnUse\"><rect width=\"8\" height=\"8\"/>",
    );
    html.push(hatch_of(kind));
    html.push("</pattern>\n");
}

/// Writes what the colour and the hatch of a kind mean, where there are calls of it.
fn push_meaning(html: &mut Writer, build: &Build, kind: Kind) {
    if build.sums.share(kind).count > 0 {
        html.push(
            "<li><svg width=\"28\" height=\"12\" aria-hidden=\"true\"><rect width=\"28\" height=\"12\" \
             fill=\"url(#hatch-",
        );
        html.push(kind.class());
        html.push(")\"/></svg> ");
        html.push(kind.name());
        html.push("</li>\n");
    }
}

/// Writes what colours and hatches mean.
fn push_legend(html: &mut Writer, build: &Build) {
    html.push("<ul class=\"legend\">\n");
    for kind in Kind::ALL.as_slice() {
        push_meaning(html, build, *kind);
    }
    html.push("</ul>\n");
}

/// Writes the moments below the picture.
fn push_axis(html: &mut Writer, build: &Build) {
    let quarter = build.sums.wall_time() / 4;
    html.push("<div class=\"axis\" id=\"axis\" aria-hidden=\"true\">");
    for part in 0..5u64 {
        html.push("<span>");
        push_time(html, quarter.saturating_mul(part));
        html.push("</span>");
    }
    html.push("</div>\n");
}

/// Writes the beginning of the picture: its size, and what it shows in words.
fn push_frame(html: &mut Writer, build: &Build) {
    let height = u64::from(build.lanes.max(1)).saturating_mul(LANE);
    html.push("<div class=\"picture\"><svg id=\"picture\" viewBox=\"0 0 1000 ");
    html.push_number(height);
    html.push("\" width=\"100%\" height=\"");
    html.push_number(height);
    html.push("\" preserveAspectRatio=\"none\" role=\"img\" aria-label=\"");
    html.push_number(build.sums.calls);
    html.push(" calls over ");
    push_time(html, build.sums.wall_time());
    html.push(", in ");
    html.push_number(u64::from(build.lanes));
    html.push(" lanes\">\n");
}

/// Writes the picture of a build.
pub fn push_picture(html: &mut Writer, build: &Build) {
    html.push("<section aria-labelledby=\"over-time\">\n<h2 id=\"over-time\">Over time</h2>\n");
    push_legend(html, build);
    push_frame(html, build);
    html.push("<defs>\n");
    for kind in Kind::ALL.as_slice() {
        push_pattern(html, *kind);
    }
    html.push("</defs>\n");
    for kind in Kind::ALL.as_slice() {
        push_bars(html, build, *kind);
    }
    html.push(
        "<rect id=\"cursor\" x=\"-9\" width=\"0\" height=\"14\" fill=\"none\"/>\n</svg></div>\n",
    );
    push_axis(html, build);
    html.push("</section>\n");
}
