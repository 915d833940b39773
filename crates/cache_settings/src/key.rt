//! The keys that can be set.

use crate::storage::is_storage;
use crate::values::{mask_named, size_named, truth_named};

/// A key, with ccache's name where it means the same.
#[derive(Clone, Copy, PartialEq, Eq)]
pub enum Key {
    /// Words that may be kept though they aren't known, with spaces between them.
    AllowOptions,
    /// Of how many hits one is compiled too and compared; 0 is none.
    Audit,
    /// Folders that don't count in what is compared, with colons between them.
    BaseDir,
    /// The folder of what is kept.
    CacheDir,
    /// Whether manifests are used, so that a hit needs no preprocessor.
    DirectMode,
    /// Whether each call is the compiler's own.
    Disable,
    /// The file that gets a line for each call; none where it is empty.
    LogFile,
    /// How a line of that file is written: `text` or `json`.
    LogFormat,
    /// How much is kept.
    MaxSize,
    /// Whether nothing is kept that isn't yet.
    ReadOnly,
    /// Whether nothing that is kept is given, and all is kept anew.
    Recache,
    /// The file of the key that is in the seal of what other machines store; none where it is empty.
    RemoteKey,
    /// Where results of other machines are; nowhere where it is empty.
    RemoteStorage,
    /// What may differ though it counts, as ccache has it: `lines`.
    Sloppiness,
    /// Whether calls are counted.
    Stats,
    /// The umask under which files and folders of what is kept are made; that of the process where it is empty.
    Umask,
}

/// The value of `audit` by which each hit is compared, and the user gets a report.
pub const TELL: &str = "tell";

/// What the values of a key are.
#[derive(Clone, Copy, PartialEq, Eq)]
pub enum Kind {
    Truth,
    Size,
    /// An absolute path, or nothing.
    Path,
    /// Absolute paths with colons between them, or nothing.
    Paths,
    /// A whole number, or `tell`.
    Audit,
    /// A umask, or nothing.
    Mask,
    /// `lines`, or nothing.
    Sloppiness,
    /// Words that begin with a dash, with spaces between them, or nothing.
    Options,
    /// An address with attributes, or nothing.
    Storage,
    /// `text` or `json`.
    LogFormat,
}

impl Key {
    /// All of them, in the order of their names.
    pub const ALL: [Key; 16] = [
        Key::AllowOptions,
        Key::Audit,
        Key::BaseDir,
        Key::CacheDir,
        Key::DirectMode,
        Key::Disable,
        Key::LogFile,
        Key::LogFormat,
        Key::MaxSize,
        Key::ReadOnly,
        Key::Recache,
        Key::RemoteKey,
        Key::RemoteStorage,
        Key::Sloppiness,
        Key::Stats,
        Key::Umask,
    ];

    /// Its name in a file.
    pub fn name(self) -> &'static str {
        match self {
            Key::AllowOptions => "allow_options",
            Key::Audit => "audit",
            Key::BaseDir => "base_dir",
            Key::CacheDir => "cache_dir",
            Key::DirectMode => "direct_mode",
            Key::Disable => "disable",
            Key::LogFile => "log_file",
            Key::LogFormat => "log_format",
            Key::MaxSize => "max_size",
            Key::ReadOnly => "read_only",
            Key::Recache => "recache",
            Key::RemoteKey => "remote_key",
            Key::RemoteStorage => "remote_storage",
            Key::Sloppiness => "sloppiness",
            Key::Stats => "stats",
            Key::Umask => "umask",
        }
    }

    /// Its variable.
    pub fn variable(self) -> &'static str {
        match self {
            Key::AllowOptions => "GULMAAT_ALLOW_OPTIONS",
            Key::Audit => "GULMAAT_AUDIT",
            Key::BaseDir => "GULMAAT_BASEDIRS",
            Key::CacheDir => "GULMAAT_DIR",
            Key::DirectMode => "GULMAAT_DIRECT",
            Key::Disable => "GULMAAT_DISABLE",
            Key::LogFile => "GULMAAT_LOGFILE",
            Key::LogFormat => "GULMAAT_LOG_FORMAT",
            Key::MaxSize => "GULMAAT_MAXSIZE",
            Key::ReadOnly => "GULMAAT_READONLY",
            Key::Recache => "GULMAAT_RECACHE",
            Key::RemoteKey => "GULMAAT_REMOTE_KEY",
            Key::RemoteStorage => "GULMAAT_REMOTE",
            Key::Sloppiness => "GULMAAT_SLOPPINESS",
            Key::Stats => "GULMAAT_STATS",
            Key::Umask => "GULMAAT_UMASK",
        }
    }

    /// Its value where none is set.
    pub fn usual(self) -> &'static str {
        match self {
            Key::AllowOptions
            | Key::BaseDir
            | Key::CacheDir
            | Key::LogFile
            | Key::RemoteKey
            | Key::RemoteStorage
            | Key::Sloppiness
            | Key::Umask => "",
            Key::Audit => "0",
            Key::Disable | Key::ReadOnly | Key::Recache => "false",
            Key::LogFormat => "text",
            Key::MaxSize => "5G",
            Key::DirectMode | Key::Stats => "true",
        }
    }

    /// What its values are.
    pub fn kind(self) -> Kind {
        match self {
            Key::AllowOptions => Kind::Options,
            Key::Audit => Kind::Audit,
            Key::BaseDir => Kind::Paths,
            Key::CacheDir | Key::LogFile | Key::RemoteKey => Kind::Path,
            Key::RemoteStorage => Kind::Storage,
            Key::LogFormat => Kind::LogFormat,
            Key::MaxSize => Kind::Size,
            Key::Sloppiness => Kind::Sloppiness,
            Key::Umask => Kind::Mask,
            Key::DirectMode | Key::Disable | Key::ReadOnly | Key::Recache | Key::Stats =>
                Kind::Truth,
        }
    }

    /// The key of that name.
    pub fn named(name: &str) -> Option<Key> {
        for key in Key::ALL {
            if key.name() == name {
                return Some(key);
            }
        }
        None
    }
}

/// Whether a path is absolute, or nothing.
fn is_path(text: &str) -> bool {
    text.is_empty() || text.starts_with('/')
}

/// Whether a word begins with a dash, or is nothing.
fn is_option(word: &str) -> bool {
    word.is_empty() || word.starts_with('-')
}

impl Kind {
    /// What is right, for people.
    pub fn wanted(self) -> &'static str {
        match self {
            Kind::Truth => "1, yes, true or on, or 0, no, false or off",
            Kind::Size =>
                "a whole number with k, M, G, T, Ki, Mi, Gi or Ti after it, or none for G; 0 is no limit",
            Kind::Path => "an absolute path",
            Kind::Paths => "absolute paths with colons between them",
            Kind::Audit => "a whole number, or tell",
            Kind::Mask => "an octal number up to 777",
            Kind::Sloppiness => "lines",
            Kind::LogFormat => "text or json",
            Kind::Options => "options with spaces between them, each of which begins with -",
            Kind::Storage =>
                "redis://, redis+unix:, http://, https:// or file: with an address, and attributes after |; rediss: isn't there",
        }
    }

    /// Whether a text is such a value.
    pub fn allows(self, text: &str) -> bool {
        match self {
            Kind::Truth => truth_named(text).is_some(),
            Kind::Size => size_named(text).is_some(),
            Kind::Path => is_path(text),
            Kind::Paths => text.split(':').all(is_path),
            Kind::Audit => text == TELL || text.parse::<u64>().is_ok(),
            Kind::Mask => text.is_empty() || mask_named(text).is_some(),
            Kind::Sloppiness => matches!(text, "" | "lines"),
            Kind::LogFormat => matches!(text, "text" | "json"),
            Kind::Options => text.split(' ').all(is_option),
            Kind::Storage => text.is_empty() || is_storage(text),
        }
    }
}
