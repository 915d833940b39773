//! Laws of entry keys. Calls of them do nothing.

ghost use Rattle.std.specs.Prelude.{◌≡◌};
ghost use Rattle.ckeys_include_records.specs.Identity.{Identity, IdentityFits, identity_material};
ghost use Rattle.ckeys_include_records.specs.Sights.{Sights, SightsFit, sight_material};
ghost use Rattle.ckeys_include_records.specs.Telling.{AreTold, entry_key_with};

use base_formats::framed_parts_are_told;
use ckeys_base::{HashState, texts_tell_digests};
use cmdlines_tables::names_tell_kinds;

/// What is hashed determines who asks, and what the preprocessor would be given.
pub fn materials_tell_calls()
    ensures identity { (one other : Identity) → IdentityFits one → IdentityFits other
        → identity_material one ≡ identity_material other → one ≡ other }
    ensures sights { (one other : Sights) → SightsFit one → SightsFit other
        → sight_material one ≡ sight_material other → one ≡ other }
{
    names_tell_kinds();
    framed_parts_are_told();
}

/// Equal entry keys are of equal calls, where digests are distinct over what is hashed for the two.
pub fn entry_keys_tell_calls<H: HashState>()
    ensures identity { (i j : Identity) (s t : Sights) → AreTold H.digest_of i j s t
        → entry_key_with H.digest_of i s ≡ entry_key_with H.digest_of j t → i ≡ j }
    ensures sights { (i j : Identity) (s t : Sights) → AreTold H.digest_of i j s t
        → entry_key_with H.digest_of i s ≡ entry_key_with H.digest_of j t → s ≡ t }
{
    texts_tell_digests::<H>();
    materials_tell_calls();
}
