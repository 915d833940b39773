//! Laws of keys over include records. Calls of them do nothing.

ghost use Rattle.std.specs.Prelude.{◌≡◌, ℕ, List, [], ◌∷◌, ◌++◌};
ghost use Rattle.base_files.specs.Bytes.{Bytes};
ghost use Rattle.ckeys.specs.Calls.{PrintedCall};
ghost use Rattle.ckeys.specs.Entries.{AreTrue, EntryInvariant, EntryPremises, Held, asking};
ghost use Rattle.ckeys.specs.EntryTurns.{EntryTurn};
ghost use Rattle.ckeys_records.specs.Folders.{Settings};
ghost use Rattle.ckeys_include_records.specs.declared.entry_key.EntryKey.{EntryKey};
ghost use Rattle.ckeys_include_records.specs.Records.{Record};
ghost use Rattle.ckeys_base.specs.Shelf.{Shelf};

use ckeys_base::{HashState, texts_tell_digests};
use ckeys_include_records::entry_keys_tell_calls;

/// What the include records of earlier calls say is true of this call, where digests are distinct and texts are printed again; and
/// each call leaves records of which that can be said again, with no premise.
pub fn records_are_true<H: HashState>()
    ensures agree { (settings : Settings) (earlier : List PrintedCall) (p : PrintedCall)
        (held : Held)
        → p.call.settings ≡ settings → EntryInvariant H.digest_of settings earlier held
        → EntryPremises H.digest_of (earlier ++ asking p) → AreTrue H.digest_of p held }
    ensures stay { (settings : Settings) (earlier : List PrintedCall) (p : PrintedCall)
        (old new : Shelf EntryKey Record) (before after : ℕ)
        → p.call.settings ≡ settings → EntryTurn H.digest_of p old new before after
        → EntryInvariant H.digest_of settings earlier old.held
        → EntryInvariant H.digest_of settings (earlier ++ asking p) new.held }
{
    texts_tell_digests::<H>();
    entry_keys_tell_calls::<H>();
}

/// What is assumed of calls that have entry keys can be met: any one call meets it, under a digest that distinguishes all strings.
pub fn entry_premises_can_be_met()
    ensures { (p : PrintedCall) → EntryPremises (λ bytes. bytes) (p ∷ []) }
{}
