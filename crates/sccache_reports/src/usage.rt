//! The arguments of the program.

use cmdlines_tables::CCompilerKind;
use sccache_recorded_builds::{EntryCompiler, compiler_called};
use std::alloc::{AllocError, Global};

/// What `--help` prints before the names of the C compilers.
const BEFORE_NAMES: &str =
    "Tells what a cache would keep of a recorded build, and why it would pass the rest through.

usage: sccache-report [--lists] [--commands] < compile_commands.json
       sccache-report --lines COMPILER [--compile | --preprocess] < LINES
       sccache-report --help

--lists       tell all that is read of a command line that is kept
--commands    print the words of the commands that are run for it as well
--lines       read one command line a line, without its executable, and print what each comes to, one line each:
              COMPILER is ";

/// What it prints after them.
const AFTER_NAMES: &str = "or rustc; a line '#file PATH LINE..' gives a file of these
              lines to all, and any other line that begins with # is passed over
--compile     print the words of its compile command instead; of rustc the arguments that are kept
--preprocess  print the words of its preprocess command instead

The status is 0, and 2 where what is read is no database.
";

/// What `--help` prints.
pub(crate) fn help(alloc: Global) -> Result<String, AllocError> {
    let mut text = String::from_str(alloc, BEFORE_NAMES)?;
    for kind in CCompilerKind::ALL.iter() {
        text.push_str(kind.name())?;
        text.push_str(", ")?;
    }
    text.push_str(AFTER_NAMES)?;
    Ok(text)
}

/// What is printed of each line.
#[derive(Clone, Copy, Debug, PartialEq, Eq)]
pub(crate) enum Shown {
    Lists,
    Compile,
    Preprocess,
}

/// What is to be done.
#[derive(Clone, Copy, Debug, PartialEq, Eq)]
pub(crate) enum Usage {
    Help,
    Report { lists: bool, commands: bool },
    Lines(EntryCompiler, Shown),
}

/// What the arguments ask for a report to show.
fn report_usage(args: &[String]) -> Option<Usage> {
    let (mut lists, mut commands) = (false, false);
    for arg in args {
        match arg.as_str() {
            "--lists" => lists = true,
            "--commands" => commands = true,
            _ => return None,
        }
    }
    Some(Usage::Report { lists, commands })
}

/// What is shown of lines, by the arguments after the compiler's name.
fn shown_by(args: &[String]) -> Option<Shown> {
    match args {
        [] => Some(Shown::Lists),
        [arg] => match arg.as_str() {
            "--compile" => Some(Shown::Compile),
            "--preprocess" => Some(Shown::Preprocess),
            _ => None,
        },
        _ => None,
    }
}

/// What the arguments after `--lines` ask for.
fn lines_usage(args: &[String]) -> Option<Usage> {
    let [name, rest @ ..] = args else {
        return None;
    };
    Some(Usage::Lines(compiler_called(name.as_str())?, shown_by(rest)?))
}

/// What these arguments ask for, and `None` where they aren't those that are taken.
pub(crate) fn usage_of(args: &[String]) -> Option<Usage> {
    let [first, rest @ ..] = args else {
        return report_usage(args);
    };
    match first.as_str() {
        "--help" if rest.is_empty() => Some(Usage::Help),
        "--lines" => lines_usage(rest),
        _ => report_usage(args),
    }
}
