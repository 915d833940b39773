//! A law of fingerprints. Calls of it do nothing.

ghost use Rattle.std.specs.Prelude.{◌≡◌, ◌↔◌};
ghost use Rattle.wrap_keys.specs.Account.{Work};
ghost use Rattle.wrap_keys.specs.CallRecords.{AreDistinct};
ghost use Rattle.wrap_keys.specs.StoreKeys.{SameRecord};
ghost use Rattle.wrap_fingerprints.specs.Fingerprints.{fingerprint_of};

use ckeys_base::{HashState, texts_tell_digests};

/// Under distinct digests the fingerprints of two calls are equal exactly if their records are, of whichever families, names of outputs
/// with their marks included.
pub fn fingerprints_tell_records<H: HashState>()
    ensures { (one other : Work) → AreDistinct H.digest_of one.rec other.rec
        → (fingerprint_of H.digest_of one ≡ fingerprint_of H.digest_of other)
        ↔ SameRecord one other }
{
    texts_tell_digests::<H>();
}
