//! A list of requests, answered over stores of its own, of which the one of outputs has a limit.

ghost use Rattle.std.specs.Prelude.{◌≡◌, length, IfOk, OnErr};
ghost use Rattle.wrap.specs.StoreKeys.{Premises};
ghost use Rattle.wrap.specs.Whole.{AllAnswer, accounts_at, served_at};

use std::alloc::{AllocError, Global};
use std::num::NonZeroUsize;
use wrap::{Answer, Call, Config, Fault, Files, HashState, LruStore, MapStore, Session, Tool};

/// Answers calls in order, over stores that are empty at first and of which the one of outputs keeps so many pairs at most.
pub fn answer_within<H: HashState, F: Files, T: Tool>(
    alloc: Global,
    config: Config,
    room: NonZeroUsize,
    calls: &mut [Call<F, T>],
) -> Result<Vec<Result<Answer, Fault>>, AllocError>
    // As many answers come as calls were given.
    ensures as_many { IfOk result (λ answers. length answers.items ≡ length calls.old) }

    // However little room there is, all outputs are those that the compilers give afresh on each call's files.
    ensures right { Premises H.digest_of (accounts_at config.keys F.Files T.Preprocessor calls.old)
        → IfOk result (λ answers.
        AllAnswer (served_at config.keys F.Files T.Preprocessor calls.old calls.new answers.items)) }

    // Where memory is refused, nothing was asked.
    ensures untouched { OnErr result (calls.new ≡ calls.old) }
{
    let entries = MapStore::new(alloc);
    let objects = LruStore::new(alloc, room)?;
    let mut session = Session::<H, _, _>::new(alloc, config, entries, objects);
    let answers = session.serve_all(calls)?;
    Ok(answers)
}
