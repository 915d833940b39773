//! What options ask for is done, in their order.

use crate::asked::Asked;
use crate::clearing::clear;
use crate::error::OptionError;
use crate::help::{built_lines, print_help, version};
use crate::links::links;
use crate::reading::read_options;
use crate::settings_shown::{get, set, show_config};
use crate::statistics_shown::{Statistics, print, show};
use cache_dir::{CacheDir, hold_limit, remove_unused};
use cache_disk::make_folders;
use cache_settings::{
    Key, ListedVariables, OTHERS, Settings, age_named, read_settings, set_in_file,
};
use cache_statistics::zero;
use std::alloc::Global;
use std::env;
use std::env::VarError;
use std::fs::File;
use std::rt::{Clock, Env, Files};
use std::time::{SystemTime, UNIX_EPOCH};

/// Who asks, and of what.
#[derive(Clone, Copy)]
pub struct Caller<'a> {
    /// The host's own file, and the program's.
    pub host: &'a str,
    pub program: &'a str,
    /// The folder of what is kept, where no setting names another one.
    pub kept: &'a str,
    /// The folder in which it is asked.
    pub dir: &'a str,
}

/// What an option is done with.
#[derive(Drop)]
pub struct Place {
    pub settings: Settings,
    pub variables: ListedVariables,
    pub kept: String,
    pub is_verbose: bool,
}

/// Adds a variable that is set.
fn add_variable<R: Env + AllocGlobal>(
    rt: &R,
    name: &str,
    pairs: &mut Vec<(String, String)>,
) -> Result<(), OptionError> {
    match env::var(rt, name) {
        Ok(value) if !value.is_empty() => {
            pairs.push((String::from_str(rt.alloc(), name)?, value))?;
            Ok(())
        }
        Ok(_) | Err(VarError::NotPresent) => Ok(()),
        Err(VarError::NotUnicode) => Err(OptionError::Wrong(format!(in rt.alloc();
            "{name} is no text"
        )?)),
        Err(VarError::OutOfMemory) => Err(OptionError::Memory),
    }
}

/// The variables that settings hang on.
pub fn variables<R: Env + AllocGlobal>(rt: &R) -> Result<ListedVariables, OptionError> {
    let mut pairs = Vec::new(rt.alloc());
    for key in Key::ALL.iter() {
        add_variable(rt, key.variable(), &mut pairs)?;
    }
    for name in OTHERS.iter() {
        add_variable(rt, name, &mut pairs)?;
    }
    Ok(ListedVariables { pairs })
}

/// A path that is absolute, or lies in this folder.
fn absolute(alloc: Global, dir: &str, path: &str) -> Result<String, OptionError> {
    match path.starts_with('/') {
        true => Ok(String::from_str(alloc, path)?),
        false => Ok(format!(in alloc; "{dir}/{path}")?),
    }
}

/// The folder of what is kept: the one that `-d` names, or that is set, or that the host found.
fn kept_of(
    alloc: Global,
    caller: &Caller<'_>,
    settings: &Settings,
    asked: &[Asked<'_>],
) -> Result<String, OptionError> {
    for option in asked {
        if let Asked::Directory(path) = option {
            return absolute(alloc, caller.dir, path);
        }
    }
    match settings.value_of(Key::CacheDir) {
        "" => Ok(String::from_str(alloc, caller.kept)?),
        path => Ok(String::from_str(alloc, path)?),
    }
}

/// The folder of what is kept, with the limit that is set. It is there then.
fn made_folder<R: Files + AllocGlobal>(rt: &R, place: &Place) -> Result<CacheDir, OptionError> {
    let umask = place.settings.umask();
    make_folders(rt, place.kept.as_str(), umask)?;
    let path = String::from_str(rt.alloc(), place.kept.as_str())?;
    let mut folder = CacheDir::new(path, String::new(rt.alloc()));
    folder.limit = place.settings.max_size();
    folder.umask = umask;
    Ok(folder)
}

/// Has the limit hold, whatever was noted of sizes.
fn clean_up<R: Files + AllocGlobal + Clone + Drop>(
    rt: &R,
    place: &Place,
) -> Result<(), OptionError> {
    Ok(hold_limit(rt, &made_folder(rt, place)?)?)
}

/// Sets the limit in the user's file, and evicts what is over it.
fn set_limit<R: Files + AllocGlobal + Clone + Drop>(
    rt: &R,
    place: &mut Place,
    size: &str,
) -> Result<(), OptionError> {
    set_in_file(rt, &place.variables, Key::MaxSize, size)?;
    place.settings = read_settings(rt, &place.variables)?;
    clean_up(rt, place)
}

/// The seconds of an age.
fn seconds_of(alloc: Global, age: &str) -> Result<u64, OptionError> {
    match age_named(age) {
        Some(seconds) => Ok(seconds),
        None => Err(OptionError::Wrong(format!(in alloc;
            "{age}: an age is a number with s, m, h or d after it"
        )?)),
    }
}

/// The nanoseconds since 1970 that it was so many seconds ago.
fn time_before<R: Clock>(rt: &R, seconds: u64) -> Result<u128, OptionError> {
    let now = match SystemTime::now(rt)?.duration_since(UNIX_EPOCH) {
        Ok(since) => since.as_nanos(),
        Err(_) => 0,
    };
    Ok(now.saturating_sub(u128::from(seconds).saturating_mul(1_000_000_000)))
}

/// Takes away what wasn't used for so long.
fn evict<R: Files + Clock + AllocGlobal + Clone + Drop>(
    rt: &R,
    place: &Place,
    age: &str,
) -> Result<(), OptionError> {
    let oldest = time_before(rt, seconds_of(rt.alloc(), age)?)?;
    Ok(remove_unused(rt, &made_folder(rt, place)?, oldest)?)
}

/// Begins to count from 0 again.
fn zero_now<R: Files<File = File> + Clock + AllocGlobal>(
    rt: &R,
    place: &Place,
) -> Result<(), OptionError> {
    let second = match SystemTime::now(rt)?.duration_since(UNIX_EPOCH) {
        Ok(since) => since.as_secs(),
        Err(_) => 0,
    };
    Ok(zero(rt, place.kept.as_str(), place.settings.umask(), second)?)
}

/// Shows what was counted and what is kept.
fn show_now<R: Print + Files + AllocGlobal + Clone + Drop>(
    rt: &R,
    caller: &Caller<'_>,
    place: &Place,
) -> Result<(), OptionError> {
    let built = built_lines(rt, caller.program)?;
    let statistics = Statistics::read(rt, place.kept.as_str())?;
    let limit = place.settings.max_size();
    show(
        rt,
        &statistics,
        place.kept.as_str(),
        limit,
        built.as_str(),
        place.is_verbose,
    )
}

/// Prints what was counted and what is kept, for tools.
fn print_now<R: Print + Files + AllocGlobal + Clone + Drop>(
    rt: &R,
    place: &Place,
) -> Result<(), OptionError> {
    print(rt, &Statistics::read(rt, place.kept.as_str())?)
}

/// Puts links for the compilers on the path.
fn links_now<R: Print + Files + Env + AllocGlobal + Clone + Drop>(
    rt: &R,
    caller: &Caller<'_>,
    folder: &str,
) -> Result<(), OptionError> {
    let folder = absolute(rt.alloc(), caller.dir, folder)?;
    match env::var(rt, "PATH") {
        Ok(path) => links(rt, caller.host, folder.as_str(), path.as_str()),
        Err(_) => Err(OptionError::Wrong(String::from_str(
            rt.alloc(),
            "PATH isn't set, or is no text",
        )?)),
    }
}

/// Does what an option asks for.
fn do_one<R>(
    rt: &R,
    caller: &Caller<'_>,
    place: &mut Place,
    option: Asked<'_>,
) -> Result<(), OptionError>
where
    R: Print + Files<File = File> + Env + Clock + AllocGlobal + Clone + Drop,
{
    match option {
        Asked::Help => print_help(rt),
        Asked::Version => version(rt, caller.program),
        Asked::ShowStats => show_now(rt, caller, place),
        Asked::PrintStats => print_now(rt, place),
        Asked::ZeroStats => zero_now(rt, place),
        Asked::Clear => clear(rt, place.kept.as_str()),
        Asked::MaxSize(size) => set_limit(rt, place, size),
        Asked::Cleanup => clean_up(rt, place),
        Asked::EvictOlderThan(age) => evict(rt, place, age),
        Asked::ShowConfig => show_config(rt, &place.settings, place.kept.as_str()),
        Asked::Get(name) => get(rt, &place.settings, place.kept.as_str(), name),
        Asked::Set(pair) => set(rt, &place.variables, pair),
        Asked::Links(folder) => links_now(rt, caller, folder),
        Asked::Directory(_) | Asked::Verbose => Ok(()),
    }
}

/// Does what options ask for, in order.
fn do_all<R>(
    rt: &R,
    caller: &Caller<'_>,
    place: &mut Place,
    asked: &[Asked<'_>],
) -> Result<(), OptionError>
where
    R: Print + Files<File = File> + Env + Clock + AllocGlobal + Clone + Drop,
{
    for option in asked {
        do_one(rt, caller, place, *option)?;
    }
    Ok(())
}

/// What these options are done with.
fn place_of<R: Files + Env + AllocGlobal>(
    rt: &R,
    caller: &Caller<'_>,
    asked: &[Asked<'_>],
) -> Result<Place, OptionError> {
    let variables = variables(rt)?;
    let settings = read_settings(rt, &variables)?;
    let kept = kept_of(rt.alloc(), caller, &settings, asked)?;
    let is_verbose = asked.contains(&Asked::Verbose);
    Ok(Place {
        settings,
        variables,
        kept,
        is_verbose,
    })
}

/// Does what these words ask for, in order.
pub fn do_options<R>(rt: &R, caller: &Caller<'_>, words: &[String]) -> Result<(), OptionError>
where
    R: Print + Files<File = File> + Env + Clock + AllocGlobal + Clone + Drop,
{
    let asked = read_options(rt.alloc(), words)?;
    let mut place = place_of(rt, caller, asked.as_slice())?;
    do_all(rt, caller, &mut place, asked.as_slice())
}
