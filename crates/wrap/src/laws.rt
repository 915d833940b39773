//! Laws over runs. Calls of them do nothing.

ghost use Rattle.std.specs.Prelude.{◌≡◌, ◌↔◌, ◌∷◌, ◌++◌, [], ℕ, ℤ, true, false, List, Option, None, Some, Result, Ok, codes, is_some, length};
ghost use Rattle.base_files.specs.Tree.{Tree};
ghost use Rattle.ckeys_include_records.specs.Records.{Record};
ghost use Rattle.ckeys_include_records.specs.declared.entry_key.EntryKey.{EntryKey};
ghost use Rattle.base_files.specs.declared.files.Metadata.{Metadata};
ghost use Rattle.ckeys_time_macros.specs.Days.{ZoneRule};
ghost use Rattle.ckeys.specs.Entries.{EntryInvariant, HasMatch, Held, entry_key_by, has_entry_key, includes_by};
ghost use Rattle.wrap.specs.DirectExample.{call_on, header_include, first_byte_digest, printed_text, record_on, text_key_on, two_moments};
ghost use Rattle.ckeys.specs.Calls.{KeyCall};
ghost use Rattle.ckeys_records.specs.Meaning.{Meaning};
ghost use Rattle.base_files.specs.Bytes.{Bytes, ticked};
ghost use Rattle.ckeys_base.specs.Shelf.{IsEmpty, Shelf};
ghost use Rattle.wrap_keys.specs.CallRecords.{AreDistinct, CallRecord, IsTold, key_of, record_shape};
ghost use Rattle.wrap_keys.specs.Account.{Account, Pairs, Work, account_at, direct_calls, rust_work_at, work_at};
ghost use Rattle.wrap.specs.SameCalls.{AreSameButForCfgs, AreSameWithoutFolders};
ghost use Rattle.ckeys_records.specs.Folders.{Settings};
ghost use Rattle.rustkeys.specs.Calls.{RustCall};
ghost use Rattle.rustkeys.specs.Fresh.{ComesOfWords, emits_dep_info};
ghost use Rattle.wrap_keys.specs.Asking.{EntriesTurn, RecordsAreTrue, Shelves};
ghost use Rattle.wrap_base.specs.declared.request.Request.{Request};
ghost use Rattle.wrap_fingerprints.specs.Fingerprints.{fingerprint_of};
ghost use Rattle.wrap_keys.specs.Sizes.{is_within};
ghost use Rattle.wrap_keys.specs.StoreKeys.{HasRecord, Premises, SameRecord, store_key_of, store_key_with};
ghost use Rattle.wrap_keys.specs.Turn.{FreshTurn, PutsBy};
ghost use Rattle.wrap_keys.specs.Whole.{BothRun, IsFresh, IsFreshWithin, Run, SameOutputs, Served, accounts_of};
ghost use Rattle.ckeys_records.specs.declared.fault.Fault.{Fault};
ghost use Rattle.wrap_base.specs.declared.answer.Answer.{Answer};
ghost use Rattle.wrap_base.specs.declared.answer.Answer.TheVariants.{Outputs};
ghost use Rattle.wrap_base.specs.declared.answer.How.TheVariants.{Fresh};
ghost use Rattle.wrap_base.specs.declared.answer.Output.{Output};
ghost use Rattle.wrap_base.specs.declared.store_key.StoreKey.{StoreKey};
ghost use Rattle.wrap.specs.Example.{compile_of, telling_digest, two_compiles};

use ckeys::records_are_true;
use ckeys_base::HashState;
use ckeys_records::keys_tell_records;
use rustc_texts::cfg_places_do_not_count;
use rustkeys::{dep_info_is_told_where_emitted, rustc_keys_tell_records};
use wrap_fingerprints::fingerprints_tell_records;

/// Two runs of one list of calls, over stores that forget and refuse as they like, give equal outputs wherever both answer
/// with outputs, and equal texts on dependencies beside them, whatever the limits are on what they keep.
pub fn two_runs_agree<H: HashState>()
    ensures { (max_kept other : Option ℕ) (one two : List Served)
        (one_old one_new two_old two_new : Shelf StoreKey Pairs)
        → Run H.digest_of max_kept one_old one one_new
        → Run H.digest_of other two_old two two_new
        → IsEmpty one_old → IsEmpty two_old → accounts_of one ≡ accounts_of two
        → Premises H.digest_of (accounts_of one) → SameOutputs one two }
{
    call_keys_tell_records::<H>();
}

/// Likewise of two runs over both stores, from empty ones: their include records may give keys or forget as they like.
pub fn two_direct_runs_agree<H: HashState>()
    ensures { (settings : Settings) (max_kept other : Option ℕ) (one two : List Served)
        (one_old one_new two_old two_new : Shelves)
        → BothRun H.digest_of max_kept settings one_old one one_new
        → BothRun H.digest_of other settings two_old two two_new → IsEmpty one_old.entries
        → IsEmpty two_old.entries → IsEmpty one_old.objects → IsEmpty two_old.objects
        → accounts_of one ≡ accounts_of two → Premises H.digest_of (accounts_of one)
        → SameOutputs one two }
{
    call_keys_tell_records::<H>();
    records_are_true::<H>();
}

/// Where no include records are kept, those that a store may hold are true of each call, so that all that `serve` says of such
/// holds with no premise; and no call changes that store.
pub fn records_that_are_not_kept_change_nothing<H: HashState>()
    ensures are_true { (meaning : Meaning) (tree : Tree) (settings : Settings) (request : Request)
        (held : Held)
        → settings.direct ≡ false
        → RecordsAreTrue H.digest_of (account_at meaning tree settings request) held }
    ensures untouched { (meaning : Meaning) (tree : Tree) (settings : Settings) (request : Request)
        (old new : Shelf EntryKey Record) (printed printed_new : ℕ)
        → settings.direct ≡ false
        → EntriesTurn H.digest_of (account_at meaning tree settings request) old new printed
        printed_new
        → new ≡ old }
{}

/// What include records of earlier calls say is true of the next one, whatever its compiler means: where digests are distinct and texts
/// are printed again, which what is assumed of whole runs says too.
pub fn records_of_earlier_calls_are_true<H: HashState>()
    ensures { (meaning : Meaning) (tree : Tree) (settings : Settings) (request : Request)
        (held : Held) (earlier : List Account)
        → EntryInvariant H.digest_of settings (direct_calls earlier) held
        → Premises H.digest_of (earlier ++ account_at meaning tree settings request ∷ [])
        → RecordsAreTrue H.digest_of (account_at meaning tree settings request) held }
{
    records_are_true::<H>();
}

/// Under distinct digests keys with their shapes are equal exactly if the records are, of whichever families.
pub fn call_keys_tell_records<H: HashState>()
    ensures { (one other : CallRecord) → IsTold H.digest_of one → IsTold H.digest_of other
        → AreDistinct H.digest_of one other
        → ((key_of H.digest_of one ≡ key_of H.digest_of other)
        × (record_shape H.digest_of one ≡ record_shape H.digest_of other))
        ↔ (one ≡ other) }
{
    keys_tell_records::<H>();
    rustc_keys_tell_records::<H>();
}

/// Under distinct digests store keys are equal exactly if the records are, names of outputs with their marks included.
pub fn store_keys_tell_records<H: HashState>()
    ensures { (one other : Work) → IsTold H.digest_of one.rec → IsTold H.digest_of other.rec
        → AreDistinct H.digest_of one.rec other.rec
        → (store_key_of H.digest_of one ≡ store_key_of H.digest_of other) ↔ SameRecord one other }
{
    call_keys_tell_records::<H>();
}

/// Under distinct digests the fingerprints of two calls are equal exactly if their store keys are.
pub fn fingerprints_tell_store_keys<H: HashState>()
    ensures { (one other : Work) → IsTold H.digest_of one.rec → IsTold H.digest_of other.rec
        → AreDistinct H.digest_of one.rec other.rec
        → (fingerprint_of H.digest_of one ≡ fingerprint_of H.digest_of other)
        ↔ (store_key_of H.digest_of one ≡ store_key_of H.digest_of other) }
{
    store_keys_tell_records::<H>();
    fingerprints_tell_records::<H>();
}

/// Where there is no limit, each result is within it: a fresh answer comes with exactly one put, its pair is held then unless something
/// was dropped or refused, and at most one fresh answer of a record means just that.
pub fn no_limit_is_passed_by_none<H: HashState>()
    ensures within { (size : ℕ) → is_within None size ≡ true }
    ensures put { (outputs : List Output) (dep_info : Option Bytes)
        (old new : Shelf StoreKey Pairs)
        → PutsBy None (Ok (Outputs outputs Fresh dep_info)) old new
        ↔ (new.puts ≡ ticked old.puts) }
    ensures holds { (text_key : Bytes) (w : Work) (old new : Shelf StoreKey Pairs)
        (before after : ℕ) (pairs : Pairs)
        → FreshTurn H.digest_of None text_key w old new before after pairs
        → new.kept ≡ true → new.held (store_key_with H.digest_of w text_key) ≡ Some pairs }
    ensures once { (result : Result Answer Fault)
        → IsFreshWithin None result ↔ IsFresh result }
{}

/// What is assumed of runs can be met: two calls whose records differ meet it under a digest of 32 bytes.
pub fn premises_can_be_met()
    ensures met { Premises telling_digest two_compiles }
    ensures differ { (compile_of (codes "int x;")).rec ≡ (compile_of (codes "int y;")).rec → ⊥ }
    ensures long { (bytes : Bytes) → length (telling_digest bytes) ≡ 32 }
{}

/// What is assumed of runs can be met with `direct` on: a call at two moments meets it under digests of 32 bytes. It has an
/// entry key; of its text the header is recorded; and where that is recorded under the first moment's entry key, it matches at the second.
pub fn premises_can_be_met_over_records()
    ensures met { (about : Metadata) (zone : ZoneRule) (one other : ℤ) →
        Premises first_byte_digest (two_moments about zone one other) }
    ensures asks { (about : Metadata) (zone : ZoneRule) (moment : ℤ) →
        has_entry_key (call_on about zone moment) ≡ true }
    ensures recorded { (about : Metadata) (zone : ZoneRule) (moment : ℤ) →
        includes_by first_byte_digest (call_on about zone moment) printed_text
        ≡ Some (header_include about zone ∷ []) }
    ensures found { (about : Metadata) (zone : ZoneRule) (one other : ℤ) (held : Held)
        → held (entry_key_by first_byte_digest (call_on about zone one))
        ≡ Some (record_on about zone one)
        → HasMatch first_byte_digest (call_on about zone other) held (text_key_on about zone one) }
    ensures long { (bytes : Bytes) → length (first_byte_digest bytes) ≡ 32 }
{}

/// Two calls that are the same without the folders of their configurations, wherever they run and whatever their files are
/// called, have one store key.
pub fn folders_do_not_count_in_store_keys()
    ensures { (digest_of : Bytes → Bytes) (meaning : Meaning) (one other : KeyCall)
        → AreSameWithoutFolders meaning one other
        → store_key_of digest_of (work_at meaning one)
        ≡ store_key_of digest_of (work_at meaning other) }
{}

/// It doesn't count where the options `--cfg` of a request to rustc are, nor in which order: two calls that differ in that alone, and
/// that rustc answers alike, have one store key.
pub fn cfg_places_do_not_count_in_store_keys()
    ensures { (digest_of : Bytes → Bytes) (meaning : Meaning) (one other : RustCall)
        → AreSameButForCfgs meaning one other
        → store_key_of digest_of (rust_work_at meaning one)
        ≡ store_key_of digest_of (rust_work_at meaning other) }
{
    cfg_places_do_not_count();
}

/// The text on dependencies that `serve` answers beside the outputs of a request to rustc is there exactly where the request's words
/// emit it.
pub fn dep_info_is_answered_where_emitted()
    ensures { (meaning : Meaning) (call : RustCall) → ComesOfWords call.question.asks
        → HasRecord (rust_work_at meaning call)
        → is_some (rust_work_at meaning call).dep_info ≡ emits_dep_info call.question.asks }
{
    dep_info_is_told_where_emitted();
}
