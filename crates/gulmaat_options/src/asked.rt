//! What options ask for.

/// What an option asks for.
#[derive(Clone, Copy, PartialEq, Eq)]
pub enum Asked<'a> {
    Help,
    Version,
    ShowStats,
    PrintStats,
    ZeroStats,
    Clear,
    /// The limit is that from now on.
    MaxSize(&'a str),
    Cleanup,
    /// What wasn't used for so long goes.
    EvictOlderThan(&'a str),
    ShowConfig,
    /// The value of that key.
    Get(&'a str),
    /// A key and its value, with `=` between them.
    Set(&'a str),
    /// Links in that folder.
    Links(&'a str),
    /// The folder of what is kept is that one.
    Directory(&'a str),
    /// More is shown.
    Verbose,
}

impl<'a> Asked<'a> {
    /// The option of that name that has no value.
    pub fn plain(name: &str) -> Option<Asked<'a>> {
        match name {
            "-h" | "--help" => Some(Asked::Help),
            "-V" | "--version" => Some(Asked::Version),
            "-s" | "--show-stats" | "--show" => Some(Asked::ShowStats),
            "--print-stats" => Some(Asked::PrintStats),
            "-z" | "--zero-stats" => Some(Asked::ZeroStats),
            "-C" | "--clear" => Some(Asked::Clear),
            "-c" | "--cleanup" => Some(Asked::Cleanup),
            "-p" | "--show-config" => Some(Asked::ShowConfig),
            "-v" | "--verbose" => Some(Asked::Verbose),
            _ => None,
        }
    }

    /// The option of that name with this value.
    pub fn with_value(name: &str, value: &'a str) -> Option<Asked<'a>> {
        match name {
            "-M" | "--max-size" | "--limit" => Some(Asked::MaxSize(value)),
            "--evict-older-than" => Some(Asked::EvictOlderThan(value)),
            "-k" | "--get-config" => Some(Asked::Get(value)),
            "-o" | "--set-config" => Some(Asked::Set(value)),
            "--links" => Some(Asked::Links(value)),
            "-d" | "--dir" => Some(Asked::Directory(value)),
            _ => None,
        }
    }
}
