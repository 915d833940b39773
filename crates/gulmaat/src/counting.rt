//! What a call came to is counted, and reported in a line of the log where one is kept.

use cache_c_calls::{End, What};
use cache_host::{CommandLine, HostError, Tally, tell_line};
use cache_rustc_requests::is_named_rustc;
use cache_settings::Key;
use cache_source_files::{Audit, log};
use cache_statistics::front::front;
use cache_statistics::{CallFacts, REMOTE, count, counters_of, name_of};
use std::alloc::Global;
use std::fs::File;
use std::rt::{Clock, Files};
use std::time::SystemTime;
use wrap_base::How;

/// The counter of a call whose outputs are there.
fn counter_of(line: &CommandLine, how: How) -> &'static str {
    match how {
        How::Direct => "direct_cache_hit",
        How::Stored => "preprocessed_cache_hit",
        How::Fresh if line.settings.is_on(Key::Recache) => "recache",
        How::Fresh => "cache_miss",
    }
}

/// The counter of a call of rustc whose outputs are there, beside the one of all languages.
fn counter_of_rustc(how: How) -> &'static str {
    match how {
        How::Fresh => "rustc_cache_miss",
        How::Direct | How::Stored => "rustc_cache_hit",
    }
}

/// Why a call was passed through, or has no manifest; nothing where neither is so.
fn reason_of(alloc: Global, end: &Result<End, HostError>) -> Result<String, HostError> {
    let end = match end {
        Ok(end) => end,
        Err(stop) => return Ok(format!(in alloc; "stop: {stop}")?),
    };
    match &end.what {
        What::Done(_, Some(why)) => Ok(format!(in alloc; "no manifest: {why}")?),
        What::Done(_, None) => Ok(String::new(alloc)),
        What::Pass(reason) => Ok(String::from_str(alloc, reason.as_str())?),
    }
}

/// Whether what was kept differs from what the compiler made in its place.
fn differs(end: &Result<End, HostError>) -> bool {
    match end {
        Ok(end) => matches!(end.audit, Audit::Differs(_)),
        Err(_) => false,
    }
}

/// The counters of a call whose outputs are there.
fn counters_done(
    alloc: Global,
    line: &CommandLine,
    how: How,
    is_unwatched: bool,
    reason: &str,
) -> Result<Vec<String>, HostError> {
    let mut counters = Vec::new(alloc);
    counters.push(String::from_str(alloc, counter_of(line, how))?)?;
    if is_named_rustc(line.executable.as_str()) {
        counters.push(String::from_str(alloc, counter_of_rustc(how))?)?;
    }
    if is_unwatched {
        counters.push(name_of(alloc, "", reason)?)?;
    }
    Ok(counters)
}

/// Adds what asking a server came to.
fn add_remote(alloc: Global, tally: &Tally, counters: &mut Vec<String>) -> Result<(), HostError> {
    let numbers = [tally.hits, tally.misses, tally.errors, tally.timeouts];
    for (place, name) in REMOTE.iter().enumerate() {
        match numbers.as_slice().get(place) {
            None | Some(0) => {}
            Some(_) => counters.push(String::from_str(alloc, name)?)?,
        }
    }
    Ok(())
}

/// The counters of a call.
fn counters(
    alloc: Global,
    line: &CommandLine,
    end: &Result<End, HostError>,
    tally: &Tally,
    reason: &str,
) -> Result<Vec<String>, HostError> {
    let mut counters = match end {
        Ok(
            End {
                what: What::Done(how, unwatched),
                ..
            },
        ) => counters_done(alloc, line, *how, unwatched.is_some(), reason)?,
        Ok(_) | Err(_) => counters_of(alloc, reason, line.words.as_slice())?,
    };
    if differs(end) {
        counters.push(String::from_str(alloc, "error_audit")?)?;
    }
    add_remote(alloc, tally, &mut counters)?;
    if line.folder.has_made_room.get() {
        counters.push(String::from_str(alloc, "cleanups_performed")?)?;
    }
    Ok(counters)
}

/// How many milliseconds went by since the call began.
fn milliseconds<R: Clock>(rt: &R, line: &CommandLine) -> u128 {
    let Ok(now) = SystemTime::now(rt) else {
        return 0;
    };
    match now.duration_since(line.moment) {
        Ok(since) => since.as_millis(),
        Err(_) => 0,
    }
}

/// Hands the host the front of a line of the log: what a call came to, its command, and why.
fn tell_call<R: Print + AllocGlobal>(
    rt: &R,
    line: &CommandLine,
    counter: &str,
    reason: &str,
    end: &Result<End, HostError>,
) -> Result<(), HostError> {
    let alloc = rt.alloc();
    let nothing = CallFacts::nothing();
    let facts = match end {
        Ok(end) => &end.facts,
        Err(_) => &nothing,
    };
    let front = front(alloc, line, counter, reason, facts)?;
    tell_line(
        rt,
        alloc,
        line.settings.value_of(Key::LogFile),
        front.as_str(),
    )
}

/// Puts a line into the log: what a call came to, how long it took, the command, and why where it was passed through or has no manifest.
fn log_call<R: Files<File = File> + Clock + AllocGlobal>(
    rt: &R,
    line: &CommandLine,
    counter: &str,
    reason: &str,
) -> Result<(), HostError> {
    let time = milliseconds(rt, line);
    let what = format!(in rt.alloc(); "{counter} {time} ms")?;
    let place = line.settings.value_of(Key::LogFile);
    log(rt, line, place, what.as_str(), reason)
}

/// Counts what a call came to, and logs it, as the settings have it.
pub fn note<R: Print + Files<File = File> + Clock + AllocGlobal>(
    rt: &R,
    line: &CommandLine,
    end: &Result<End, HostError>,
    tally: &Tally,
) -> Result<(), HostError> {
    let is_logged = !line.settings.value_of(Key::LogFile).is_empty();
    let is_counted = line.settings.is_on(Key::Stats);
    if !is_logged && !is_counted {
        return Ok(());
    }
    let alloc = rt.alloc();
    let reason = reason_of(alloc, end)?;
    let counters = counters(alloc, line, end, tally, reason.as_str())?;
    if is_logged {
        if let Some(first) = counters.first() {
            let _ = match line.settings.value_of(Key::LogFormat) {
                "json" => tell_call(rt, line, first.as_str(), reason.as_str(), end),
                _ => log_call(rt, line, first.as_str(), reason.as_str()),
            };
        }
    }
    if is_counted {
        let folder = &line.folder;
        let _ = count(rt, folder.path.as_str(), folder.umask, counters.as_slice());
    }
    Ok(())
}
