//! What a user's words ask for.

/// Which build of a log.
#[derive(Clone, Copy)]
pub struct AskedLog<'a> {
    pub path: &'a str,
    /// Whether all builds of it are meant, and not the last one alone.
    pub has_all: bool,
    /// Ninja's own log of that build; nothing where none is named.
    pub ninja: &'a str,
}

impl<'a> AskedLog<'a> {
    /// The last build of a log.
    pub fn last_of(path: &'a str) -> AskedLog<'a> {
        AskedLog {
            path,
            has_all: false,
            ninja: "",
        }
    }
}

/// What is asked for.
#[derive(Clone, Copy)]
pub enum Asked<'a> {
    Page(AskedLog<'a>),
    Trace(AskedLog<'a>),
    /// The last builds of two logs.
    Compare(&'a str, &'a str),
}

/// The build of a log that these arguments after it name, or else which are right.
fn log_of<'a>(path: &'a str, words: &'a [String]) -> Result<AskedLog<'a>, &'static str> {
    let mut log = AskedLog::last_of(path);
    let mut names_ninja = false;
    for word in words {
        match word.as_str() {
            path if names_ninja => {
                log.ninja = path;
                names_ninja = false;
            }
            "--all" => log.has_all = true,
            "--ninja" => names_ninja = true,
            _ => return Err("--all or --ninja FILE after the log"),
        }
    }
    match names_ninja {
        true => Err("--ninja FILE"),
        false => Ok(log),
    }
}

/// What these words ask for, or else which words are right.
pub fn read_words(words: &[String]) -> Result<Asked<'_>, &'static str> {
    let [option, rest @ ..] = words else {
        return Err("--page LOG, --trace LOG or --compare LOG LOG");
    };
    match (option.as_str(), rest) {
        ("--compare", [one, other]) => Ok(Asked::Compare(one.as_str(), other.as_str())),
        ("--compare", _) => Err("--compare LOG LOG"),
        ("--page", [path, rest @ ..]) => Ok(Asked::Page(log_of(path.as_str(), rest)?)),
        (_, [path, rest @ ..]) => Ok(Asked::Trace(log_of(path.as_str(), rest)?)),
        (_, []) => Err("--page LOG or --trace LOG"),
    }
}
