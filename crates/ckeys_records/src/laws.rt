//! Laws of records and their keys. Calls of them do nothing.

ghost use Rattle.std.specs.Prelude.{◌≡◌, ◌↔◌};
ghost use Rattle.base_files.specs.Bytes.{Bytes};
ghost use Rattle.ckeys_base.specs.FolderPlaces.{text_places};
ghost use Rattle.ckeys_base.specs.FromTheLeft.{stripped_of};
ghost use Rattle.ckeys_records.specs.Records.{CRecord, HashedParts, AreTold};
ghost use Rattle.ckeys_records.specs.Material.{material_of, shape_of};
ghost use Rattle.ckeys_records.specs.Keys.{AreDistinct, key_of, record_shape};
ghost use Rattle.ckeys_records.specs.Params.{Handed, parts_handed};

use ckeys_base::{HashState, texts_tell_digests};

/// The hashed bytes determine the parts, together with the shape: equal bytes and shapes are of equal parts, whose words
/// lack the byte 255 and whose variables have lengths below 2^64.
pub fn materials_tell_parts()
    ensures { (one other : HashedParts) → AreTold one.words one.variables
        → AreTold other.words other.variables → material_of one ≡ material_of other
        → shape_of one ≡ shape_of other → one ≡ other }
{}

/// Under distinct digests keys with their shapes are equal exactly if the records are, whose words lack the byte 255 and whose
/// variables have lengths below 2^64.
pub fn keys_tell_records<H: HashState>()
    ensures { (one other : CRecord) → AreTold one.words one.variables
        → AreTold other.words other.variables → AreDistinct H.digest_of one other
        → ((key_of H.digest_of one ≡ key_of H.digest_of other)
        × (record_shape H.digest_of one ≡ record_shape H.digest_of other))
        ↔ (one ≡ other) }
{
    texts_tell_digests::<H>();
}

/// Requests that differ only in texts, which are equal without the folders, have one key and one shape, since the same
/// is hashed for them.
pub fn folders_in_texts_do_not_count()
    ensures { (handed : Handed) → (text : Bytes)
        → stripped_of text_places handed.basedirs text
        ≡ stripped_of text_places handed.basedirs handed.preprocessor_output
        → parts_handed (record handed { preprocessor_output = text }) ≡ parts_handed handed }
{}
