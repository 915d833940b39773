//! Kinds of calls, by what they came to.

/// A kind of calls.
#[derive(Clone, Copy, PartialEq, Eq)]
pub enum Kind {
    /// What was kept was given, and no preprocessor ran.
    Direct,
    /// What was kept was given by the preprocessed text.
    ByText,
    /// It was compiled, and kept.
    Miss,
    /// It was passed through.
    Uncacheable,
    /// Something failed on the side of gulmaat, and the compiler ran.
    Failure,
    /// No call of gulmaat's, but another command of the build.
    Other,
}

impl Kind {
    /// All of them, in the order in which they are shown.
    pub const ALL: [Kind; 6] = [
        Kind::Direct,
        Kind::ByText,
        Kind::Miss,
        Kind::Uncacheable,
        Kind::Failure,
        Kind::Other,
    ];

    /// The kind of a call of which a line says this.
    pub fn of(what: &str) -> Kind {
        match what {
            "direct_cache_hit" => Kind::Direct,
            "preprocessed_cache_hit" => Kind::ByText,
            "cache_miss" | "recache" => Kind::Miss,
            "other_command" => Kind::Other,
            _ if what.starts_with("error_") => Kind::Failure,
            _ => Kind::Uncacheable,
        }
    }

    /// Its place among all.
    pub fn number(self) -> u32 {
        match self {
            Kind::Direct => 0,
            Kind::ByText => 1,
            Kind::Miss => 2,
            Kind::Uncacheable => 3,
            Kind::Failure => 4,
            Kind::Other => 5,
        }
    }

    /// Its name, for people.
    pub fn name(self) -> &'static str {
        match self {
            Kind::Direct => "direct hit",
            Kind::ByText => "hit by text",
            Kind::Miss => "miss",
            Kind::Uncacheable => "uncacheable",
            Kind::Failure => "failure of gulmaat",
            Kind::Other => "other command",
        }
    }

    /// Its name in a page's style.
    pub fn class(self) -> &'static str {
        match self {
            Kind::Direct => "direct",
            Kind::ByText => "text",
            Kind::Miss => "miss",
            Kind::Uncacheable => "passed",
            Kind::Failure => "failure",
            Kind::Other => "other",
        }
    }

    /// Whether what was kept was given.
    pub fn is_hit(self) -> bool {
        matches!(self, Kind::Direct | Kind::ByText)
    }
}
