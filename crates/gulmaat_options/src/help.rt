//! The help, and what the program is.

use crate::error::OptionError;
use std::fs;
use std::rt::Files;

const HELP: &str = "\
gulmaat COMPILER WORD..          answers from the cache, or runs the compiler and keeps what it makes
gulmaat OPTION..

  -h, --help                     prints this help
  -V, --version                  prints the version, the commit, whether the program is proved, and the kit
  -s, --show-stats               prints hits, misses, what was uncacheable, and the size of the cache; with -v also by option
      --print-stats              prints the counters for tools: names and numbers with a tab between them
  -z, --zero-stats               sets the counters to 0; the cache stays
  -C, --clear                    empties the cache; the counters and the settings stay
  -M, --max-size SIZE            sets the limit of the cache: a number with k, M, G, T, Ki, Mi, Gi or Ti after it, or none for G; 0 is no limit
  -c, --cleanup                  adds up all sizes anew, and evicts what is over the limit
      --evict-older-than AGE     evicts what wasn't used for so long: a number with s, m, h or d after it
  -p, --show-config              prints each key with its value and where that comes from
  -k, --get-config KEY           prints the value of a key
  -o, --set-config KEY=VALUE     sets a key in the user's file
  -d, --dir DIR                  names the cache directory for the other options
      --audit COMMAND ..         runs this command; a hit is compiled too, and standard error says what differs
      --why COMMAND ..           prints what differed between the last two compiles of this command's outputs
      --page LOG                 prints a page in HTML of the last build in a log of GULMAAT_LOG_FORMAT=json; with --all of all its
                                 builds, and with --ninja FILE also the other commands of that build, from ninja's own log
      --trace LOG                prints the same as a trace for Perfetto or chrome://tracing
      --compare LOG LOG          prints the last builds of two logs side by side
      --links DIR                makes links in this folder, named like the compilers on the path: put it ahead of theirs in PATH

Other names are --show for --show-stats, and --limit for --max-size. Each key of -p has a variable, which overrides the user's
file: gulmaat.conf in the folder that GULMAAT_DIR names, or else ~/.config/gulmaat/gulmaat.conf. In direct mode (direct_mode) a
hit runs no preprocessor; docs/WRAPPER.md says which changes it can't see. remote_storage names a server, or a folder, by which
machines share results.
";

/// Prints the help.
pub fn print_help<R: Print>(rt: &R) -> Result<(), OptionError> {
    print!(rt; "{HELP}")?;
    Ok(())
}

/// What the file beside the program says about this build: lines of a word and its value.
pub fn built_lines<R: Files + AllocGlobal>(rt: &R, program: &str) -> Result<String, OptionError> {
    let alloc = rt.alloc();
    let folder = match program.rsplit_once('/') {
        Some((folder, _)) => folder,
        None => ".",
    };
    let place = format!(in alloc; "{folder}/built")?;
    match fs::read_to_string(rt, place.as_str()) {
        Ok(text) => Ok(text),
        Err(_) => Ok(String::from_str(
            alloc,
            "version unknown\ncommit unknown\nproved unknown\nkit unknown\n",
        )?),
    }
}

/// The line that begins with this word.
pub fn line_of<'a>(lines: &'a str, word: &str) -> &'a str {
    for line in lines.lines() {
        if line.starts_with(word) {
            return line;
        }
    }
    ""
}

/// Prints what the program is.
pub fn version<R: Print + Files + AllocGlobal>(rt: &R, program: &str) -> Result<(), OptionError> {
    let lines = built_lines(rt, program)?;
    print!(rt; "gulmaat {lines}")?;
    Ok(())
}
