//! Zones, by the rules that POSIX gives for them.

ghost use Rattle.std.specs.Prelude.{◌≡◌, ◌↔◌, ℤ, IsOk, IfOk, IsSome, Some, codes};
ghost use Rattle.jiff_tz.specs.PosixReader.{read_whole};
ghost use Rattle.jiff_tz.specs.PosixText.{tz_view};
ghost use Rattle.ckeys_time_macros.specs.Days.{ZoneRule, shown};

use jiff_core::Offset;
use jiff_tz::Abbreviation;
use jiff_tz::posix::TimeZone;
use std::marker::Model;
use thiserror::Error;

/// Why a text is no zone.
#[derive(Clone, Copy, Debug, PartialEq, Eq, Error)]
pub enum ZoneError {
    /// It isn't a rule of POSIX.
    #[error("the zone is no POSIX rule")]
    NoRule,
}

/// The rule of a zone, as POSIX writes it in `TZ`: `UTC0`, `EST5`, or `EST5EDT,M3.2.0,M11.1.0`. It was read once, owns
/// no memory, and is copied as a plain value.
#[derive(Clone, Copy, Debug, PartialEq, Eq)]
pub struct Zone {
    rule: TimeZone,
}

impl Model for Zone {
    ghost Value = { ZoneRule };

    ghost view = { λ zone. zone.rule };

    ghost inverse = { λ rule. record { rule = rule } };
}

impl Zone {
    /// The zone whose rule the text is. It takes no memory.
    pub fn new(text: &str) -> Result<Zone, ZoneError>
        ensures succeeds { IsOk result ↔ IsSome (read_whole text.now) }
        ensures value { IfOk result (λ zone. read_whole text.now ≡ Some (tz_view zone)) }
    {
        match TimeZone::parse(text.as_bytes()) {
            Ok(rule) => Ok(Zone { rule }),
            Err(_) => Err(ZoneError::NoRule),
        }
    }

    /// UTC, whose clocks show each moment as it is: the zone whose rule is `UTC0`.
    pub fn utc() -> Zone
        ensures shown { (moment : ℤ) → shown result moment ≡ moment }
        ensures rule { read_whole (codes "UTC0") ≡ Some (tz_view result) }
    {
        let rule = TimeZone {
            std_abbrev: Abbreviation::utc(),
            std_offset: Offset::UTC,
            dst: None,
        };
        Zone { rule }
    }

    /// The rule.
    pub(crate) fn rule(&self) -> TimeZone
        ensures { result ≡ self.now }
    {
        self.rule
    }
}
