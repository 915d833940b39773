//! The decision on one command line, by the compiler that it names.

ghost use Rattle.std.specs.Prelude.{◌≡◌, ◌≤◌};

use cache_c_calls::{End, What, decide_on_c};
use cache_host::{CommandLine, Host, HostError};
use cache_rustc_calls::{RustcEnd, RustcWhat, decide_on_rustc};
use cache_rustc_requests::is_named_rustc;
use cache_settings::Key;
use cache_statistics::CallFacts;
use std::fs::File;
use std::io::Read;
use std::rt::Files;

/// What a call of rustc came to.
fn end_of_rustc(end: RustcEnd) -> End {
    let RustcEnd { what, audit, why } = end;
    let what = match what {
        RustcWhat::Done(how) => What::Done(how, None),
        RustcWhat::Pass(reason) => What::Pass(reason),
    };
    let mut facts = CallFacts::nothing();
    facts.why = why;
    End { what, audit, facts }
}

/// Decides on the command line.
pub fn decide<P: Print + Files<File = File> + AllocGlobal, I: Read>(
    rt: &P,
    line: &CommandLine,
    host: &mut Host<I>,
) -> Result<End, HostError>
    requires { host.old.compiled ≡ 0 }
    // The host is asked to compile at most once, whatever it, the disk and the compiler do.
    ensures once { host.new.compiled ≤ 1 }
{
    if line.settings.is_on(Key::Disable) {
        return Ok(End::pass(String::from_str(rt.alloc(), "pass: disabled")?));
    }
    match is_named_rustc(line.executable.as_str()) {
        true => Ok(end_of_rustc(decide_on_rustc(rt, line, host)?)),
        false => decide_on_c(rt, line, host),
    }
}
