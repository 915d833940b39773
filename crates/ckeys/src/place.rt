//! Where and when a request is asked.

ghost use Rattle.std.specs.Prelude.{◌≡◌};
ghost use Rattle.ckeys_time_macros.specs.Days.{local_day};

use base_files::OsBytes;
use ckeys_include_records::day_of;
use ckeys_records::KeyConfig;

/// The directory, the variables, the moment and the configuration.
#[derive(Clone, Copy)]
pub struct CallPlace<'a> {
    pub dir: &'a OsBytes,
    pub env: &'a [(OsBytes, OsBytes)],
    pub moment: i64,
    pub config: &'a KeyConfig,
}

impl<'a> CallPlace<'a> {
    /// The local day, where the calendar has it.
    pub(crate) fn day(&self) -> Option<i64>
        ensures { result ≡ local_day self.now.config.now.zone self.now.moment }
    {
        day_of(self.moment, self.config.zone())
    }
}
