//! Laws of keys. Calls of them do nothing.

ghost use Rattle.std.specs.Prelude.{◌≡◌, ◌↔◌, None, is_some};
ghost use Rattle.ckeys_records.specs.Meaning.{Meaning};
ghost use Rattle.rustkeys.specs.Calls.{RustCall, key_fault_of};
ghost use Rattle.rustkeys.specs.Fresh.{ComesOfWords, dep_info_text_of, emits_dep_info};
ghost use Rattle.rustkeys.specs.Records.{AreDistinct, IsTold, RustRecord, key_of, record_shape};

use ckeys_base::{HashState, texts_tell_digests};
use rustc_compiler::digests_are_formed;
use rustc_options::words_in_order_are_a_set;
use rustc_parts::bytes_and_shape_tell_parts;

/// Under distinct digests keys with their shapes are equal exactly if the records are, whose digests of toolchains and static
/// libraries are digits and whose materials can be counted in 64 bits.
pub fn rustc_keys_tell_records<H: HashState>()
    ensures { (one other : RustRecord) → IsTold H.digest_of one → IsTold H.digest_of other
        → AreDistinct H.digest_of one other
        → ((key_of H.digest_of one ≡ key_of H.digest_of other)
        × (record_shape H.digest_of one ≡ record_shape H.digest_of other))
        ↔ (one ≡ other) }
{
    texts_tell_digests::<H>();
    digests_are_formed::<H>();
    bytes_and_shape_tell_parts();
}

/// Of a request of words whose call has no fault a text on dependencies is given exactly where they emit it.
pub fn dep_info_is_told_where_emitted()
    ensures { (meaning : Meaning) (call : RustCall) → ComesOfWords call.question.asks
        → key_fault_of meaning call ≡ None
        → is_some (dep_info_text_of meaning call) ≡ emits_dep_info call.question.asks }
{
    words_in_order_are_a_set();
}
