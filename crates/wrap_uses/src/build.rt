//! A build: its steps are asked in order, and none is run whose outputs are kept.

ghost use Rattle.std.specs.Prelude.{◌≡◌, true, IfOk};
ghost use Rattle.ckeys.specs.Entries.{EntryPremises};
ghost use Rattle.wrap.specs.Account.{direct_calls};
ghost use Rattle.wrap.specs.StoreKeys.{Premises};
ghost use Rattle.wrap.specs.Whole.{OneFresh, accounts_at, served_at};
ghost use Rattle.wrap_uses.specs.Builds.{SkippedAreMade};

use std::alloc::{AllocError, Global};
use wrap::{Answer, Call, Config, Fault, Files, HashState, MapStore, Session, Store, Tool};

/// What the steps of a build were answered, in order, and whether all that was to be kept is.
#[derive(Drop)]
pub struct Build {
    pub answers: Vec<Result<Answer, Fault>>,
    pub kept_all: bool,
}

/// Runs a build's steps, each on its own files and by its own tool, over stores of its own that are empty at first. Room for
/// the answers is taken before the first step.
pub fn run_steps<H: HashState, F: Files, T: Tool>(
    alloc: Global,
    config: Config,
    calls: &mut [Call<F, T>],
) -> Result<Build, AllocError>
    // A step that is skipped has the outputs that it would have made.
    ensures skipped { Premises H.digest_of (accounts_at config.keys F.Files T.Preprocessor calls.old)
        → IfOk result (λ build. SkippedAreMade
        (served_at config.keys F.Files T.Preprocessor calls.old calls.new build.answers.items)) }

    // Where all is kept, no two steps of one record are run whose outputs are within the limit.
    ensures once { (config.keys.direct ≡ true → EntryPremises H.digest_of
        (direct_calls (accounts_at config.keys F.Files T.Preprocessor calls.old)))
        → IfOk result (λ build. build.kept_all ≡ true → OneFresh config.max_kept
        (served_at config.keys F.Files T.Preprocessor calls.old calls.new build.answers.items)) }
{
    let entries = MapStore::new(alloc);
    let objects = MapStore::new(alloc);
    let mut session = Session::<H, _, _>::new(alloc, config, entries, objects);
    let answers = session.serve_all(calls)?;
    let kept_all = session.objects().kept_all();
    Ok(Build { answers, kept_all })
}
