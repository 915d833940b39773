//! What an include record is kept under.

ghost use Rattle.std.specs.Prelude.{◌≡◌, ◌↔◌, ◌++◌, true, IfOk, IfSome, map, string_bytes};
ghost use Rattle.std.specs.Ordering.{ordering_then};
ghost use Rattle.std.specs.declared.cmp.Ordering.TheVariants.{Equal};
ghost use Rattle.ckeys_include_records.specs.Identity.{IdentityFits, identity_of};
ghost use Rattle.ckeys_include_records.specs.Sights.{SightsFit, seen_by, sights_of};
ghost use Rattle.ckeys_include_records.specs.Telling.{entry_key_over};
ghost use Rattle.ckeys_include_records.specs.declared.entry_key.EntryKey.{EntryKey};

use crate::asker::Asker;
use crate::sights::{SeenInput, preprocessor_cache_entry_hash_key};
use base_files::OsBytes;
use ckeys_base::HashState;
use std::alloc::{AllocError, Global};
use std::hash::Hash;

/// What a call's include record is kept under: the digest of who asks, and that of what the preprocessor would be
/// given, both as text of two hexadecimal digits a byte.
#[derive(Clone, Debug, Drop, PartialEq, Eq, PartialOrd, Ord, Hash)]
pub struct EntryKey {
    pub identity: OsBytes,
    pub key: OsBytes,
}

/// Keys are equal exactly if their fields are.
pub fn entry_keys_are_their_fields()
    ensures { (one other : EntryKey) →
        (⟦<EntryKey as PartialEq>⟧.eq one other ≡ true) ↔ (one ≡ other) }
{}

/// Keys are distinguished by their order exactly if their fields are. They are ordered by the identity, then the key, and what is hashed of
/// one is what is hashed of these, in this order.
pub fn entry_keys_are_ordered_by_their_fields()
    ensures tied { (one other : EntryKey) →
        (⟦<EntryKey as Ord>⟧.cmp one other ≡ Equal) ↔ (one ≡ other) }
    ensures ordered { (one other : EntryKey) → ⟦<EntryKey as Ord>⟧.cmp one other
        ≡ ordering_then (⟦<OsBytes as Ord>⟧.cmp one.identity other.identity)
        (⟦<OsBytes as Ord>⟧.cmp one.key other.key) }
    ensures hashed { (key : EntryKey) → ⟦<EntryKey as Hash>⟧.hash_input key
        ≡ ⟦<OsBytes as Hash>⟧.hash_input key.identity ++ ⟦<OsBytes as Hash>⟧.hash_input key.key }
{
    entry_keys_are_their_fields();
    ties_are_equal::<EntryKey>();
}

/// What an order doesn't distinguish is equal.
fn ties_are_equal<K: Ord>()
    ensures { (one other : K) → (K.cmp one other ≡ Equal) ↔ (K.eq one other ≡ true) }
{}

/// The entry key of who asks, with these digests of extra files, over this input. `None` exactly where the input asks for the
/// time, or for a day that the calendar doesn't have.
pub fn entry_key<H: HashState>(
    alloc: Global,
    asker: &Asker,
    extra: &[String],
    input: &SeenInput,
) -> Result<Option<EntryKey>, AllocError>
    ensures key { let digests = map string_bytes extra.now in
        IfOk result (λ key.
        key ≡ entry_key_over H.digest_of (identity_of asker.now) digests (seen_by input.now)) }
    ensures identity { IfOk result (λ key. IfSome key (λ _. IdentityFits (identity_of asker.now))) }
    ensures sights { let digests = map string_bytes extra.now in
        let sights = sights_of H.digest_of (identity_of asker.now) digests (seen_by input.now) in
        IfOk result (λ key. IfSome key (λ _. SightsFit sights)) }
{
    let Some(key) = preprocessor_cache_entry_hash_key::<H>(alloc, asker, extra, input)? else {
        return Ok(None);
    };
    let identity = asker.identity::<H>(alloc)?;
    Ok(Some(EntryKey {
        identity: OsBytes::from_vec(identity.into_bytes()),
        key: OsBytes::from_vec(key.into_bytes()),
    }))
}
