//! The program `gulmaat`: decides on one command line of a compiler, whose steps its host runs for it.
//!
//! With no arguments it talks with its host over standard input and output. With them it does what a user's options ask for: they come
//! after the host's own file, the program's, the folder of what is kept, the folder in which it is asked and, for `--why`, the compiler's
//! file; where logs are to be shown, all of these but the program's are empty. `--help` may also be the only argument.
#![tactic(auto)]

ghost use Rattle.std.specs.Prelude.{◌≡◌};

mod counting;
mod deciding;

use cache_c_calls::{End, What};
use cache_c_why::why_of_c;
use cache_host::{CommandLine, Host, HostError};
use cache_rustc_requests::{is_named_rustc, why_of_rustc};
use cache_settings::read_settings;
use cache_source_files::{Audit, opened_words};
use counting::note;
use deciding::decide;
use gulmaat_options::{Caller, do_options, print_help};
use gulmaat_page::{PageError, show_builds};
use std::env;
use std::fmt::Display;
use std::fs::File;
use std::io::Read;
use std::process::ExitCode;
use std::rt::{Clock, Env, Files};
use std::time::SystemTime;

/// The status at which the outputs are there.
const DONE: u8 = 11;

/// The status at which the host runs the compiler as if nobody had asked. At any other but these it does so too.
const PASS: u8 = 12;

/// The status of a program that couldn't do what its arguments say.
const FAILED: u8 = 2;

/// The place of a user's first word among the arguments, of which the first is the program's own name.
const WORDS: usize = 6;

fn main(rt: HostRuntime) -> ExitCode {
    match arguments(&rt) {
        Ok(args) => run(&rt, args.as_slice()),
        Err(_) => refused(&rt),
    }
}

/// Does what the arguments say.
fn run<R>(rt: &R, args: &[String]) -> ExitCode
where
    R: Print + Eprint + Input + Files<File = File> + Env + Clock + AllocGlobal + Clone + Drop,
{
    match args {
        [] => talk(rt),
        [_] => ended(rt, &print_help(rt)),
        [host, program, kept, dir, compiler, words @ ..] => {
            let caller = Caller {
                host: host.as_str(),
                program: program.as_str(),
                kept: kept.as_str(),
                dir: dir.as_str(),
            };
            answer(rt, &caller, compiler.as_str(), words)
        }
        _ => ExitCode::from(FAILED),
    }
}

/// Does what a user's words say.
fn answer<R>(rt: &R, caller: &Caller<'_>, compiler: &str, words: &[String]) -> ExitCode
where
    R: Print + Eprint + Files<File = File> + Env + Clock + AllocGlobal + Clone + Drop,
{
    match words {
        [word, ..] if is_of_logs(word.as_bytes()) => ended(
            rt,
            &show_builds(rt, folder_of(caller.program), words),
        ),
        [word, command @ ..] if matches!(word.as_str(), "--why") => ended(
            rt,
            &say_why(rt, caller, compiler, command),
        ),
        _ => ended(rt, &do_options(rt, caller, words)),
    }
}

/// Whether that option shows logs.
fn is_of_logs(word: &[u8]) -> bool {
    matches!(word, b"--page" | b"--trace" | b"--compare")
}

/// The folder in which a file of this path lies.
fn folder_of(path: &str) -> &str {
    match path.rsplit_once('/') {
        Some((folder, _)) => folder,
        None => ".",
    }
}

/// Ends where some argument is no text, which is said of options that show logs.
fn refused<R: Eprint + Env>(rt: &R) -> ExitCode {
    let mut word = [0u8; 16];
    let size = rt.arg(WORDS, word.as_mut_slice()).unwrap_or(0);
    match word.get(..size) {
        Some(word) if is_of_logs(word) => ended(rt, &Err::<(), PageError>(PageError::Device)),
        _ => ExitCode::from(FAILED),
    }
}

/// Says what differed at the last call of this command, of which the first word is dropped for the compiler's file; that is empty where no
/// command is there.
fn say_why<R: Print + Files + AllocGlobal>(
    rt: &R,
    caller: &Caller<'_>,
    compiler: &str,
    command: &[String],
) -> Result<(), HostError> {
    match compiler.is_empty() {
        true => Err(HostError::Command),
        false if is_named_rustc(compiler) => { why_of_rustc(rt, caller.kept, caller.dir, command) }
        false => why_of_c(rt, caller.kept, compiler, caller.dir, command),
    }
}

/// Says why what a user asked for wasn't done, if so.
fn ended<R: Eprint, E: Display + Drop>(rt: &R, done: &Result<(), E>) -> ExitCode {
    match done {
        Ok(()) => ExitCode::SUCCESS,
        Err(error) => {
            let _ = eprintln!(rt; "gulmaat: {error}");
            ExitCode::from(FAILED)
        }
    }
}

/// The arguments after the program's own name.
fn arguments<R: Env + AllocGlobal>(rt: &R) -> Result<Vec<String>, HostError> {
    let words = env::args(rt)?;
    Ok(words.skip(1).collect(rt.alloc())?)
}

/// The command line that the host asks about.
fn line_from<R: Clock + Files + AllocGlobal, I: Read>(
    rt: &R,
    host: &mut Host<I>,
) -> Result<CommandLine, HostError>
    ensures { host.new.compiled ≡ host.old.compiled }
{
    let message = host.message(rt.alloc())?;
    CommandLine::read(rt, message.as_slice(), SystemTime::now(rt)?)
}

/// Has the line take what a user sets. False where that is wrong, which is said.
fn set_line<R: Eprint + Files + AllocGlobal>(rt: &R, line: &mut CommandLine) -> bool {
    match read_settings(rt, &line.variables()) {
        Ok(settings) => line.take_settings(rt.alloc(), settings).is_ok(),
        Err(error) => {
            let _ = eprintln!(rt; "gulmaat: {error}");
            false
        }
    }
}

/// Has the words of response files take the place of the words that name them. rustc reads such files in another way: its words stay.
fn open_words<R: Files + AllocGlobal>(rt: &R, line: &mut CommandLine) -> Result<(), HostError> {
    let words = line.words.as_slice();
    let names_files = words.iter().any(|word| word.as_bytes().starts_with(b"@"));
    if !names_files || is_named_rustc(line.executable.as_str()) {
        return Ok(());
    }
    if let Some(opened) = opened_words(rt, &line.dir, words)? {
        line.words = opened;
    }
    Ok(())
}

/// Says what comparing a hit with what the compiler makes showed.
fn tell_audit<R: Eprint>(rt: &R, audit: &Audit) {
    let _ = match audit {
        Audit::None => eprintln!(rt; "gulmaat: no hit, so nothing was compared"),
        Audit::Alike => eprintln!(rt;
            "gulmaat: a hit: outputs, dependency file and messages are those of the compiler"
        ),
        Audit::Differs(what) => eprintln!(rt;
            "gulmaat: a hit that differs from what the compiler makes: {what}"
        ),
    };
}

/// What the host reads of what a call came to. What comparing showed is printed, where a user asked for that.
fn code_of<R: Eprint>(rt: &R, line: &CommandLine, end: &Result<End, HostError>) -> ExitCode {
    let Ok(end) = end else {
        return ExitCode::from(PASS);
    };
    if line.settings.tells_audit() {
        tell_audit(rt, &end.audit);
    }
    match end.what {
        What::Done(_, _) => ExitCode::from(DONE),
        What::Pass(_) => ExitCode::from(PASS),
    }
}

/// Decides on the command line that the host asks about, and counts what it came to.
fn talk<R>(rt: &R) -> ExitCode
where
    R: Print + Eprint + Input + Files<File = File> + Clock + AllocGlobal,
{
    let mut host = Host::new(rt.reader());
    let Ok(mut line) = line_from(rt, &mut host) else {
        return ExitCode::from(PASS);
    };
    if !set_line(rt, &mut line) || open_words(rt, &mut line).is_err() {
        return ExitCode::from(PASS);
    }
    let end = decide(rt, &line, &mut host);
    let _ = note(rt, &line, &end, &host.tally);
    let code = code_of(rt, &line, &end);
    drop(end);
    drop(line);
    code
}
