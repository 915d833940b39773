//! One call of a session over recorded answers: what it answers holds of every world that gives them.

ghost use Rattle.std.specs.Prelude.{◌≡◌, List, [], ◌∷◌, ◌++◌, OnOk, OnErr, IsErrOf};
ghost use Rattle.base_files.specs.Views.{FilesFail};
ghost use Rattle.ckeys_records.specs.Meaning.{Meaning};
ghost use Rattle.ckeys_records.specs.Views.{ToolFails};
ghost use Rattle.wrap.specs.Account.{Account, account_at};
ghost use Rattle.wrap.specs.Answers.{Answers, GoesOn, SaysBy};
ghost use Rattle.wrap.specs.Asking.{AskedTurn, RecordsAreTrue, shelves_of};
ghost use Rattle.wrap.specs.StoreKeys.{Invariant, Premises};
ghost use Rattle.wrap_replay.specs.Beside.{TellsOwnDependencies};
ghost use Rattle.wrap_replay_base.specs.Recorded.{recorded};
ghost use Rattle.wrap_replay.specs.Worlds.{GivesTo};

use wrap::{
    Answer, EntryKey, Fault, Files, HashState, Pairs, Preprocessor, PreprocessorCacheEntry,
    Request, Session, Store, StoreKey, store_keys_tell_records,
};
use wrap_replay_base::ReplayTool;

/// Answers one request by recorded answers. A fault of the tool in a step comes with the command that it lacks.
///
/// The tool knows no more than what was recorded, so that where an output is kept the compile's outcome is unknown to it. What is
/// said is therefore said of every world that gives the recorded answers, whatever else that compiler means.
pub fn replayed<
    H: HashState,
    E: Store<EntryKey, PreprocessorCacheEntry> + Drop,
    O: Store<StoreKey, Pairs> + Drop,
    F: Files,
>(
    session: &mut Session<H, E, O>,
    request: &Request,
    files: &mut F,
    tool: &mut ReplayTool,
) -> Result<Answer, Fault>
    // Outputs are those that the world's compiler gives afresh, if what the store holds is of earlier calls in that world.
    ensures outputs { (world : Meaning) → let tree = F.tree files.old in
        let a = account_at world tree session.old.settings request.now in
        GivesTo tool.old.text tool.old.outputs tool.old.rustc request.now tree world
        → RecordsAreTrue H.digest_of a (E.shelf session.old.entries).held
        → (earlier : List Account)
        → Invariant H.digest_of earlier (O.shelf session.old.objects).held
        → Premises H.digest_of (earlier ++ a ∷ []) → Answers a result }

    // They come with what that world's rustc reports of dependencies, for this request's own targets, where it asks for it.
    ensures dep_info { (world : Meaning) → let tree = F.tree files.old in
        GivesTo tool.old.text tool.old.outputs tool.old.rustc request.now tree world
        → TellsOwnDependencies (account_at world tree session.old.settings request.now) result }

    // And what it holds then is of them and of this call.
    ensures invariant { (world : Meaning) → let tree = F.tree files.old in
        let a = account_at world tree session.old.settings request.now in
        GivesTo tool.old.text tool.old.outputs tool.old.rustc request.now tree world
        → RecordsAreTrue H.digest_of a (E.shelf session.old.entries).held
        → (earlier : List Account)
        → Invariant H.digest_of earlier (O.shelf session.old.objects).held
        → Invariant H.digest_of (earlier ++ a ∷ []) (O.shelf session.new.objects).held }

    // It is passed through exactly where the verdict says, unless memory was refused first; a fault has its cause.
    ensures says { let a = account_at (recorded tool.old.text tool.old.outputs tool.old.rustc)
        (F.tree files.old) session.old.settings request.now in
        SaysBy GoesOn a (FilesFail F.Files files.old files.new)
        (ToolFails ⟦<ReplayTool as Preprocessor>⟧ tool.old tool.new) result }

    // Under which key it asks the store of outputs, what it does to that, and where outputs come from.
    ensures asked { let tools = ⟦<ReplayTool as Preprocessor>⟧ in
        let a = account_at (recorded tool.old.text tool.old.outputs tool.old.rustc)
        (F.tree files.old) session.old.settings request.now in
        AskedTurn H.digest_of session.old.max_kept a
        (shelves_of (E.shelf session.old.entries) (O.shelf session.old.objects))
        (shelves_of (E.shelf session.new.entries) (O.shelf session.new.objects))
        (tools.preprocessed tool.old) (tools.preprocessed tool.new) (tools.compiled tool.old)
        (tools.compiled tool.new) result }

    // What was recorded means what it did.
    ensures meaning { recorded tool.new.text tool.new.outputs tool.new.rustc
        ≡ recorded tool.old.text tool.old.outputs tool.old.rustc }

    ensures settings { (session.new.settings ≡ session.old.settings)
        × (session.new.max_kept ≡ session.old.max_kept) }
    ensures tree { F.tree files.new ≡ F.tree files.old }
{
    store_keys_tell_records::<H>();
    session.serve(request, files, tool)
}
