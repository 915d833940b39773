//! The program `sccache-wrap`: reads a scenario from standard input and prints what its requests are answered. Run under the name
//! `sccache-explain` it also prints why they were compiled, and under the name `sccache-report` it reads a recorded build and prints what a
//! cache would keep of it.
#![tactic(auto)]

use sccache_reports::ReportFault;
use sccache_scenarios::{RunFault, run, run_explained};
use std::fmt::Display;
use std::io::{BufWriter, ErrorKind};
use std::process::ExitCode;
use std::rt::{Env, Files};
use std::{env, io};

/// The status of a program that couldn't run.
const FAILED: u8 = 2;

/// More bytes than a path of a program has.
const PATH_MAX: usize = 4096;

/// What the program is run as.
#[derive(Clone, Copy)]
enum Program {
    /// `sccache-wrap`, which every other name means too.
    Wrap,
    /// `sccache-explain`.
    Explain,
    /// `sccache-report`.
    Report,
}

fn main(rt: HostRuntime) -> ExitCode {
    match called(&rt) {
        Program::Wrap => ended(&rt, &serve(&rt, false)),
        Program::Explain => ended(&rt, &serve(&rt, true)),
        Program::Report => ended(&rt, &report(&rt)),
    }
}

/// What the program is run as, by argument 0.
fn called<R: Env>(rt: &R) -> Program {
    let mut path = [0u8; PATH_MAX];
    match rt.arg(0, &mut path) {
        Ok(length) => match path.get(..length) {
            Some(path) => called_by(path),
            None => Program::Wrap,
        },
        Err(_) => Program::Wrap,
    }
}

/// What the program of this path is run as.
fn called_by(path: &[u8]) -> Program {
    if is_named(path, b"sccache-explain") {
        Program::Explain
    } else if is_named(path, b"sccache-report") {
        Program::Report
    } else {
        Program::Wrap
    }
}

/// Whether that is the last name of a path.
fn is_named(path: &[u8], name: &[u8]) -> bool {
    matches!(path.strip_suffix(name), Some([] | [.., b'/']))
}

/// Says why the program couldn't run, if so.
fn ended<R: Eprint, E: Display + Drop>(rt: &R, done: &Result<(), E>) -> ExitCode {
    match done {
        Ok(()) => ExitCode::SUCCESS,
        Err(fault) => {
            let _ = eprintln!(rt; "{fault}");
            ExitCode::from(FAILED)
        }
    }
}

/// Serves the scenario of standard input.
fn serve<R: Print + Input + Env + AllocGlobal>(rt: &R, is_explained: bool) -> Result<(), RunFault> {
    let alloc = rt.alloc();
    let words = env::args(rt).map_err(fault_of_arguments)?;
    let args: Vec<String> = words.skip(1).collect(alloc)?;
    let mut reader = rt.reader();
    let Ok(mut writer) = BufWriter::new(alloc, io::writer(rt)) else {
        return Err(RunFault::Memory);
    };
    if is_explained {
        run_explained(alloc, args.as_slice(), &mut reader, &mut writer)
    } else {
        run(alloc, args.as_slice(), &mut reader, &mut writer)
    }
}

/// An argument that is no UTF-8 is an argument all the same.
fn fault_of_arguments(error: io::Error) -> RunFault {
    match error.kind() {
        ErrorKind::InvalidData => RunFault::Arguments,
        _ => RunFault::Memory,
    }
}

/// Reports on the recorded build of standard input.
fn report<R: Print + Input + Env + Files + AllocGlobal>(rt: &R) -> Result<(), ReportFault> {
    let alloc = rt.alloc();
    let words = env::args(rt).map_err(report_fault_of_arguments)?;
    let args: Vec<String> = words.skip(1).collect(alloc)?;
    let mut reader = rt.reader();
    let Ok(mut writer) = BufWriter::new(alloc, io::writer(rt)) else {
        return Err(ReportFault::Memory);
    };
    sccache_reports::run(alloc, args.as_slice(), rt, &mut reader, &mut writer)
}

/// An argument that is no UTF-8 is none that a report takes.
fn report_fault_of_arguments(error: io::Error) -> ReportFault {
    match error.kind() {
        ErrorKind::InvalidData => ReportFault::Arguments,
        _ => ReportFault::Memory,
    }
}
