//! A request that is prepared: all that is known of it before the store of outputs is asked.

ghost use Rattle.std.specs.Prelude.{◌≡◌, true, false, Some, IfOk, IfErr};
ghost use Rattle.base_files.specs.Views.{FilesFail};
ghost use Rattle.ckeys.specs.Calls.{PrintedCall, needs_preprocessing, printed_call};
ghost use Rattle.ckeys_records.specs.Faults.{KeyCause};
ghost use Rattle.ckeys.specs.EntryTurns.{KeyFine, KeyRecorded, KeyRuns, PutsNone, RunsUntilKey};
ghost use Rattle.ckeys_records.specs.Views.{ToolFails};
ghost use Rattle.ckeys_records.specs.Untouched.{Untouched};
ghost use Rattle.wrap_keys.specs.Account.{call_at, work_at, worked};
ghost use Rattle.wrap_keys.specs.Asking.{EntriesTurn, OnUnkeyed, StopsEarly, WorkKeyFrom};
ghost use Rattle.wrap_keys.specs.Plans.{IsPlanOf};
ghost use Rattle.wrap.specs.Prepared.{IsPrepared};
ghost use Rattle.wrap_base.specs.Commands.{found_of};

use base_files::{Files, OsBytes};
use ckeys::{EntryKey, PreprocessorCacheEntry};
use ckeys_base::{HashState, Store};
use ckeys_records::{Fault, KeyConfig, stripped_words_lack_the_end};
use cmdlines_base::{ArtifactDescriptor, SingleCompileCommand};
use cmdlines_tables::CCompilerKind;
use std::alloc::Global;
use wrap_base::store_key::{Family, Shape, StoreKey};
use wrap_base::{AnyC, Request, Tool};
use wrap_keys::{Plan, output_names, place_of};

/// A request with its key, the outputs that it wants, and the command that makes them.
#[derive(Drop)]
pub struct Prepared<'a> {
    pub key: StoreKey,
    /// Whether an include record gave the key.
    pub from_record: bool,
    pub outputs: &'a [(OsBytes, ArtifactDescriptor)],
    pub command: &'a SingleCompileCommand,
    /// To which C compiler the command is, or to rustc.
    pub kind: Option<CCompilerKind>,
    /// When it is asked, in seconds since 1970-01-01 UTC.
    pub moment: i64,
    /// The text on dependencies for its own targets, where rustc is asked for one.
    pub dep_info: Option<OsBytes>,
}

/// Prepares a request to this C compiler that asks for this: makes its key, from an include record where one fits.
pub fn prepare<'a, H: HashState, E: Store<EntryKey, PreprocessorCacheEntry>, F: Files, T: Tool>(
    alloc: Global,
    compiler: AnyC<'_>,
    request: &Request,
    plan: &'a Plan,
    config: &KeyConfig,
    entries: &mut E,
    files: &mut F,
    tool: &mut T,
) -> Result<Prepared<'a>, Fault>
    requires plan { IsPlanOf (found_of compiler) request.now plan.now }
    ensures prepared { let w = work_at (T.meaning tool.old)
        (call_at (found_of compiler.entry) request.now (F.tree files.old) config.now plan.now.parsed) in
        IfOk result (IsPrepared H.digest_of (T.meaning tool.new) (F.tree files.new) w) }
    ensures from { let w = work_at (T.meaning tool.old)
        (call_at (found_of compiler.entry) request.now (F.tree files.old) config.now plan.now.parsed) in
        IfOk result
        (λ p. WorkKeyFrom H.digest_of w (E.shelf entries.old).held p.from_record p.key.digest) }
    ensures fine { let printed = printed_call (T.meaning tool.old)
        (call_at (found_of compiler.entry) request.now (F.tree files.old) config.now plan.now.parsed) in
        IfOk result (λ p. KeyFine printed p.from_record) }
    ensures cause { let w = work_at (T.meaning tool.old)
        (call_at (found_of compiler.entry) request.now (F.tree files.old) config.now plan.now.parsed) in
        IfErr result
        (KeyCause w.fault (FilesFail F.Files files.old files.new)
        (ToolFails T.Preprocessor tool.old tool.new)) }
    ensures entries { let w = work_at (T.meaning tool.old)
        (call_at (found_of compiler.entry) request.now (F.tree files.old) config.now plan.now.parsed) in
        EntriesTurn H.digest_of (worked w) (E.shelf entries.old) (E.shelf entries.new)
        (T.preprocessed tool.old) (T.preprocessed tool.new) }
    ensures recorded { let w = work_at (T.meaning tool.old)
        (call_at (found_of compiler.entry) request.now (F.tree files.old) config.now plan.now.parsed) in
        IfOk result
        (λ p. (printed : PrintedCall) → w.direct ≡ Some printed
        → KeyRecorded H.digest_of printed (E.shelf entries.old) (E.shelf entries.new)
        p.from_record p.key.digest) }
    ensures unput { OnUnkeyed result (PutsNone (E.shelf entries.old) (E.shelf entries.new)) }
    ensures early { let w = work_at (T.meaning tool.old)
        (call_at (found_of compiler.entry) request.now (F.tree files.old) config.now plan.now.parsed) in
        StopsEarly w (T.preprocessed tool.old) (T.preprocessed tool.new) }
    ensures runs { needs_preprocessing plan.now.parsed.language ≡ true
        → IfOk result
        (λ p. KeyRuns p.from_record (T.preprocessed tool.old) (T.preprocessed tool.new)) }
    ensures until { needs_preprocessing plan.now.parsed.language ≡ true →
        IfErr result (RunsUntilKey (T.preprocessed tool.old) (T.preprocessed tool.new)) }
    ensures idle { needs_preprocessing plan.now.parsed.language ≡ false →
        T.preprocessed tool.new ≡ T.preprocessed tool.old }
    ensures untouched { Untouched T.Preprocessor F.Files
        tool.old files.old tool.new files.new result }
    ensures compiles { T.compiled tool.new ≡ T.compiled tool.old }
{
    // A law, which costs nothing: words of which none holds the byte that ends one can be distinguished without the folders too.
    stripped_words_lack_the_end();
    let hasher = compiler.hasher(&plan.parsed);
    let place = place_of(request, config);
    let (digest, shape, from_record) = hasher.generate_hash_key::<H, E, F, T>(
        alloc, &place, entries, files, tool,
    )?;
    let outputs = plan.parsed.outputs.as_slice();
    let names = output_names(alloc, outputs)?;
    let key = StoreKey {
        family: Family::C,
        shape: Shape::C(shape),
        names,
        digest: OsBytes::from_vec(digest.into_bytes()),
    };
    Ok(Prepared {
        key,
        from_record,
        outputs,
        command: &plan.compile,
        kind: Some(compiler.found.kind()),
        moment: request.moment,
        dep_info: None,
    })
}
