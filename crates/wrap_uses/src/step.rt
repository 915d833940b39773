//! One step of a build, asked of a session: what it gives, and what it costs.

ghost use Rattle.std.specs.Prelude.{◌≡◌, false, List, [], ◌∷◌, ◌++◌, IfOk};
ghost use Rattle.wrap.specs.Account.{Account, account_at};
ghost use Rattle.wrap.specs.StoreKeys.{Invariant, Premises};
ghost use Rattle.wrap_uses.specs.Steps.{Costs, GivesFresh, came_to};

use wrap::{
    Answer, EntryKey, Fault, Files, HashState, How, Listed, Output, Pairs, PreprocessorCacheEntry,
    Reason, Request, Session, Store, StoreKey, Tool,
};

/// What came of a step.
#[derive(Drop)]
pub enum Outcome {
    /// The build runs the compiler itself.
    RunItYourself(Reason),
    /// The outputs, from a store.
    Kept(Listed<Output>),
    /// The outputs, from one compile.
    Made(Listed<Output>),
}

/// What comes of a step that is answered so.
fn outcome_of(answer: Answer) -> Outcome
    ensures { result ≡ came_to answer }
{
    match answer {
        Answer::Pass(reason) => Outcome::RunItYourself(reason),
        Answer::Outputs {
            map,
            how,
            dep_info: _,
        } => match how {
            How::Direct => Outcome::Kept(map),
            How::Stored => Outcome::Kept(map),
            How::Fresh => Outcome::Made(map),
        },
    }
}

/// Asks a session for one step's outputs. Where the build is to run the compiler itself, the reason is given.
pub fn run_step<
    H: HashState,
    E: Store<EntryKey, PreprocessorCacheEntry> + Drop,
    O: Store<StoreKey, Pairs> + Drop,
    F: Files,
    T: Tool,
>(
    session: &mut Session<H, E, O>,
    request: &Request,
    files: &mut F,
    tool: &mut T,
) -> Result<Outcome, Fault>
    // No compile runs for what is kept or left to the build, and exactly one for what is made, whatever the stores hold.
    ensures costs { IfOk result (λ o. Costs o (T.compiled tool.old) (T.compiled tool.new)) }

    // Without include records, outputs are those that the compiler gives afresh.
    ensures right { let a = account_at (T.meaning tool.old) (F.tree files.old)
        session.old.settings request.now in
        session.old.settings.direct ≡ false → (earlier : List Account)
        → Invariant H.digest_of earlier (O.shelf session.old.objects).held
        → Premises H.digest_of (earlier ++ a ∷ []) → IfOk result (λ o. GivesFresh a o) }
{
    let answer = session.serve(request, files, tool)?;
    Ok(outcome_of(answer))
}
