//! The page of a build.

use crate::data::push_data;
use crate::escaped::push_escaped;
use crate::frame::{push_end, push_head};
use crate::picture::push_picture;
use crate::reading::Build;
use crate::summary::push_summary;
use crate::tables::{push_calls, push_misses, push_passed};
use crate::times::push_moment;
use crate::writer::Writer;
use cache_build_log::Kind;
use std::alloc::{AllocError, Global};

/// Writes the title: when the build began, and where the call that took longest ran.
fn push_title(html: &mut Writer, build: &Build) {
    html.push("<header>\n<h1>Build</h1>\n<p>Began ");
    push_moment(html, build.sums.begin);
    html.push(" UTC");
    if let Some(call) = build.longest_of(Kind::ALL.as_slice()) {
        html.push(", in <span class=\"path\">");
        push_escaped(html, build.texts.text(call.dir));
        html.push("</span>");
    }
    html.push("</p>\n</header>\n<main>\n");
}

/// Writes how many lines of the log are broken.
fn push_broken(html: &mut Writer, broken: u64) {
    html.push("<p class=\"note\">");
    html.push_number(broken);
    html.push(if broken == 1 {
        " line is"
    } else {
        " lines are"
    });
    html.push(" broken, and left out.</p>\n");
}

/// Writes what is to be said of the log beside its calls.
fn push_notes(html: &mut Writer, build: &Build) {
    if build.broken > 0 {
        push_broken(html, build.broken);
    }
    if build.builds > 1 {
        html.push("<p class=\"note\">The log has ");
        html.push_number(build.builds as u64);
        html.push(" builds: this is the last one, unless <code>--all</code> was named.</p>\n");
    }
    if build.is_ninja_apart {
        html.push(
            "<p class=\"note\">Ninja's log has no output of these calls, so that it isn't known when its commands ran.</p>\n",
        );
    }
}

/// The page of a build, with this script and style.
pub fn page(alloc: Global, build: &Build, script: &str, style: &str) -> Result<String, AllocError> {
    let mut html = Writer::new(alloc);
    push_head(&mut html, alloc, script, style);
    push_title(&mut html, build);
    push_summary(&mut html, build);
    push_notes(&mut html, build);
    push_picture(&mut html, build);
    push_misses(&mut html, alloc, build);
    push_passed(&mut html, alloc, build);
    push_calls(&mut html, alloc, build);
    html.push("</main>\n");
    push_data(&mut html, build);
    push_end(&mut html, script);
    html.done()
}
