//! Requests to a C compiler: the verdict on one, its key, and what it is answered.

ghost use Rattle.std.specs.Prelude.{◌≡◌, IfErr};
ghost use Rattle.base_files.specs.Views.{FilesFail};
ghost use Rattle.ckeys_records.specs.Views.{ToolFails};
ghost use Rattle.ckeys_records.specs.Untouched.{Untouched};
ghost use Rattle.wrap_keys.specs.Account.{account_named};
ghost use Rattle.wrap_keys.specs.Early.{IsAskedEarly, OfPassed};
ghost use Rattle.wrap_keys.specs.Answers.{EarlyCause, GoesOn, OnPass, Says, SaysBy};
ghost use Rattle.wrap_keys.specs.Asking.{AskedTurn, EntriesTurn, RecordsAreTrue, shelves_of};
ghost use Rattle.wrap_base.specs.Commands.{by_c, found_of};

use crate::answering::answer_prepared;
use crate::prepared::prepare;
use base_files::Files;
use ckeys::{EntryKey, PreprocessorCacheEntry};
use ckeys_base::{HashState, Store};
use ckeys_records::Fault;
use std::alloc::Global;
use wrap_base::store_key::{Pairs, StoreKey};
use wrap_base::{Answer, AnyC, Config, Request, Tool};
use wrap_keys::{Verdict, judge};

/// Answers a request to this C compiler: it is passed through, or it gets what the store holds under its key or what one compile
/// makes, or there is a fault.
pub fn c_turn<
    H: HashState,
    E: Store<EntryKey, PreprocessorCacheEntry>,
    O: Store<StoreKey, Pairs>,
    F: Files,
    T: Tool,
>(
    alloc: Global,
    config: &Config,
    entries: &mut E,
    objects: &mut O,
    compiler: AnyC<'_>,
    request: &Request,
    files: &mut F,
    tool: &mut T,
) -> Result<Answer, Fault>
    ensures says { let a = account_named (T.meaning tool.old) (F.tree files.old) config.now.keys
        request.now (by_c (found_of compiler.entry)) in
        SaysBy GoesOn a (FilesFail F.Files files.old files.new)
        (ToolFails T.Preprocessor tool.old tool.new) result }
    ensures goes_on { let a = account_named (T.meaning tool.old) (F.tree files.old) config.now.keys
        request.now (by_c (found_of compiler.entry)) in
        RecordsAreTrue H.digest_of a (E.shelf entries.old).held
        → Says a (FilesFail F.Files files.old files.new)
        (ToolFails T.Preprocessor tool.old tool.new) result }
    ensures passed { let a = account_named (T.meaning tool.old) (F.tree files.old) config.now.keys
        request.now (by_c (found_of compiler.entry)) in
        let asked = IsAskedEarly (by_c (found_of compiler.entry)) request.now (F.tree files.old) in
        IfErr result (λ fault. OfPassed a (EarlyCause asked fault)) }
    ensures quiet { OnPass result
        ((T.preprocessed tool.new ≡ T.preprocessed tool.old)
        × (T.compiled tool.new ≡ T.compiled tool.old) × (T.failed tool.new ≡ T.failed tool.old)) }
    ensures asked { let a = account_named (T.meaning tool.old) (F.tree files.old) config.now.keys
        request.now (by_c (found_of compiler.entry)) in
        AskedTurn H.digest_of config.now.max_kept a
        (shelves_of (E.shelf entries.old) (O.shelf objects.old))
        (shelves_of (E.shelf entries.new) (O.shelf objects.new)) (T.preprocessed tool.old)
        (T.preprocessed tool.new) (T.compiled tool.old) (T.compiled tool.new) result }
    ensures entries { let a = account_named (T.meaning tool.old) (F.tree files.old) config.now.keys
        request.now (by_c (found_of compiler.entry)) in
        EntriesTurn H.digest_of a (E.shelf entries.old) (E.shelf entries.new)
        (T.preprocessed tool.old) (T.preprocessed tool.new) }
    ensures untouched { Untouched T.Preprocessor F.Files
        tool.old files.old tool.new files.new result }
{
    match judge(alloc, compiler, request, files)? {
        Verdict::Passes(reason) => Ok(Answer::Pass(reason)),
        Verdict::Asks(plan) => {
            match prepare::<H, E, F, T>(
                alloc,
                compiler,
                request,
                &plan,
                &config.keys,
                entries,
                files,
                tool,
            ) {
                Ok(prepared) => {
                    let answer = answer_prepared(
                        alloc,
                        config.max_kept,
                        objects,
                        prepared,
                        files,
                        tool,
                    );
                    drop(plan);
                    answer
                }
                Err(fault) => {
                    drop(plan);
                    Err(fault)
                }
            }
        }
    }
}
