//! When something itself was last changed, according to its metadata.

ghost use Rattle.std.specs.Prelude.{◌≡◌};
ghost use Rattle.base_files.specs.declared.file_time.FileTime.{FileTime};
ghost use Rattle.ckeys_time_macros.specs.Moments.{timestamp_of};

use crate::timestamp::Timestamp;
use base_files::Metadata;

/// Metadata that include when something itself was last changed.
pub trait MetadataCtimeExt {
    /// When it itself was last changed.
    ghost ctime: { Self → FileTime };

    /// When it itself was last changed, or made where that isn't kept.
    fn ctime_or_creation(&self) -> Timestamp
        ensures { result ≡ timestamp_of (ctime self.now) };
}

/// These metadata always keep the change.
impl MetadataCtimeExt for Metadata {
    ghost ctime = { λ metadata. metadata.ctime };

    fn ctime_or_creation(&self) -> Timestamp {
        Timestamp::new(self.ctime.seconds, self.ctime.nanoseconds)
    }
}
