//! Manifests with what they are kept under.

ghost use Rattle.cache_format.specs.KeptManifests.{KeptFits, kept_at, kept_bytes, kept_format};

use base_files::OsBytes;
use base_formats::{Field, ReadFault};
use std::alloc::{AllocError, Global};

/// An manifest, as its own bytes, under an entry key of calls in one zone.
#[derive(Drop)]
pub struct KeptManifest {
    /// The time zone of the dates in these calls, as text.
    pub zone: OsBytes,
    /// The two digests of the entry key.
    pub identity: OsBytes,
    pub key: OsBytes,
    pub results: OsBytes,
    /// What to watch of its results.
    pub watched: OsBytes,
}

/// The zone, the entry key, the manifest, and what to watch of its results.
impl Field for KeptManifest {
    ghost reads = { kept_at };

    ghost spells = { kept_bytes };

    ghost fits = { KeptFits };

    ghost is_format = { kept_format };

    #[tactic(auto, unfolding(crate::specs::KeptManifests::kept_at, base_formats::specs::Reading::both_at, base_formats::specs::Reading::made_at))]
    fn read(alloc: Global, bytes: &[u8]) -> Result<(KeptManifest, &[u8]), ReadFault> {
        let (zone, rest) = OsBytes::read(alloc, bytes)?;
        let (identity, rest) = OsBytes::read(alloc, rest)?;
        let (key, rest) = OsBytes::read(alloc, rest)?;
        let (results, rest) = OsBytes::read(alloc, rest)?;
        let (watched, rest) = OsBytes::read(alloc, rest)?;
        let kept = KeptManifest {
            zone,
            identity,
            key,
            results,
            watched,
        };
        Ok((kept, rest))
    }

    fn put(&self, out: &mut Vec<u8>) -> Result<(), AllocError> {
        self.zone.put(out)?;
        self.identity.put(out)?;
        self.key.put(out)?;
        self.results.put(out)?;
        self.watched.put(out)?;
        Ok(())
    }
}
