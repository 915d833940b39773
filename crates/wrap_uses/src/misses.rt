//! A report on misses: in which part a request differs from an earlier one, whose fingerprint was kept.

ghost use Rattle.std.specs.Prelude.{◌≡◌, IfOk};
ghost use Rattle.wrap.specs.Account.{Work, account_at};
ghost use Rattle.wrap.specs.Fingerprints.{IsFingerprintOf};
ghost use Rattle.wrap_uses.specs.Misses.{Explains};

use wrap::{
    EntryKey, Fault, Files, Fingerprint, HashState, Pairs, Part, PreprocessorCacheEntry, Reason,
    Request, Session, Store, StoreKey, Tool, explain, fingerprints_tell_store_keys,
};

/// The first part in which a request differs from the one of that fingerprint, or why it is passed through. The stores aren't asked, and
/// nothing is compiled.
pub fn why_missed<
    H: HashState,
    E: Store<EntryKey, PreprocessorCacheEntry> + Drop,
    O: Store<StoreKey, Pairs> + Drop,
    F: Files,
    T: Tool,
>(
    session: &Session<H, E, O>,
    request: &Request,
    files: &mut F,
    tool: &mut T,
    earlier: &Fingerprint,
) -> Result<Result<Option<Part>, Reason>, Fault>
    // Under distinct digests nothing differs exactly where both requests have one key.
    ensures told { let a = account_at (T.meaning tool.old) (F.tree files.old)
        session.now.settings request.now in
        (before : Work) → IsFingerprintOf H.digest_of before earlier.now
        → IfOk result (Explains H.digest_of a before) }
    ensures compiles { T.compiled tool.new ≡ T.compiled tool.old }
{
    fingerprints_tell_store_keys::<H>();
    match session.fingerprint(request, files, tool)? {
        Ok(made) => Ok(Ok(explain(&made, earlier))),
        Err(reason) => Ok(Err(reason)),
    }
}
