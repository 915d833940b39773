//! What digests are as texts.

ghost use Rattle.std.specs.Prelude.{◌*◌};
ghost use Rattle.base_files.specs.Bytes.{Bytes};
ghost use Rattle.ckeys_base.specs.Hex.{hex_of};
ghost use Rattle.rustc_parts.specs.Formed.{IsDigest};

use ckeys_base::{HashState, texts_tell_digests};

/// The text of a digest is digits, two for each of its bytes: it has the form that digests have in keys. A call of it does nothing.
pub fn digests_are_formed<H: HashState>()
    ensures { (bytes : Bytes) → IsDigest (2 * H.LEN) (hex_of (H.digest_of bytes)) }
{
    // A law, which costs nothing: what follows from it is said above.
    texts_tell_digests::<H>();
}
