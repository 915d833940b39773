//! Laws of sessions over the scripted tool. Calls of them do nothing.

ghost use Rattle.std.specs.Prelude.{◌≡◌, All, List};
ghost use Rattle.base_files.specs.Bytes.{Bytes};
ghost use Rattle.base_files.specs.Tree.{Tree};
ghost use Rattle.ckeys.specs.Entries.{AreReprinted};
ghost use Rattle.ckeys_records.specs.Folders.{Settings};
ghost use Rattle.ckeys_records.specs.Keys.{Distinct};
ghost use Rattle.sccache_scenarios.specs.ScriptedCalls.{HasSafeSource, IsGivenBy, IsMadeOfRecord, IsScripted, IsScriptedCall};
ghost use Rattle.wrap.specs.Account.{Account, Work, direct_calls, worked};
ghost use Rattle.wrap.specs.StoreKeys.{HasRecord, IsHashedIn, Premises, SameRecord};
ghost use Rattle.wrap.specs.Whole.{accounts_at};
ghost use Rattle.wrap_base.specs.Commands.{named_by};
ghost use Rattle.wrap_base.specs.declared.call.Call.{Call};
ghost use Rattle.wrap_base.specs.declared.request.Request.{Request};

use base_files::Files;
use cmdlines::{commands_read_as_wanted, inputs_are_safe, requests_have_a_known_language};
use wrap_base::Tool;

/// Over the scripted tool, whose folders are the configuration's, the fresh outcome of a call that has a record is made of
/// that record alone, whatever rustc reports: so equal records have equal fresh outcomes, under one configuration or two, by one
/// tool or two, wherever the calls run.
pub fn records_fix_scripted_outcomes()
    ensures made { (settings : Settings) (w : Work) → IsScripted settings (worked w)
        → HasRecord w → IsMadeOfRecord w }
    ensures equal { (one other : Settings) (a b : Work)
        → IsScripted one (worked a) → IsScripted other (worked b)
        → HasRecord a → HasRecord b → SameRecord a b → a.fresh ≡ b.fresh }
    // Only an option of Msvc gives an input that can't be put where it's written.
    ensures safe { (tree : Tree) (request : Request)
        → (IsGivenBy (named_by request.compiler) tree request → ⊥)
        → HasSafeSource tree request }
{
    // Laws, which cost nothing: what follows from them is said above.
    commands_read_as_wanted();
    requests_have_a_known_language();
    inputs_are_safe();
}

/// What is assumed of outcomes is met by any run over the scripted tool: all that is left to assume is that digests are
/// distinct and, for calls that have entry keys, that texts are printed again.
pub fn scripted_runs_meet_their_premise<F: Files, T: Tool>()
    ensures accounts { (digest_of : Bytes → Bytes) (settings : Settings) (run : List Account)
        → All (IsScripted settings) run
        → Distinct digest_of (IsHashedIn digest_of run) → AreReprinted (direct_calls run)
        → Premises digest_of run }
    ensures calls { (digest_of : Bytes → Bytes) (settings : Settings) (calls : List (Call F T))
        → let run = accounts_at settings F.Files T.Preprocessor calls in
        All (IsScriptedCall settings F.Files T.Preprocessor) calls
        → Distinct digest_of (IsHashedIn digest_of run) → AreReprinted (direct_calls run)
        → Premises digest_of run }
{
    records_fix_scripted_outcomes();
}
