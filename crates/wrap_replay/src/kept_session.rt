//! One answer of a session over what a disk keeps, by what was recorded.

ghost use Rattle.std.specs.Prelude.{◌≡◌, List, [], ◌∷◌, ◌++◌, Option};
ghost use Rattle.base_files.specs.Views.{FilesFail};
ghost use Rattle.ckeys_records.specs.Meaning.{Meaning};
ghost use Rattle.ckeys_records.specs.Views.{ToolFails};
ghost use Rattle.ckeys_include_records.specs.declared.entry_key.EntryKey.{EntryKey};
ghost use Rattle.ckeys_include_records.specs.Records.{Record};
ghost use Rattle.wrap_replay.specs.Beside.{TellsOwnDependencies};
ghost use Rattle.wrap_replay.specs.Kept.{Holds, IsOfEarlier, RecordIsOfEarlier};
ghost use Rattle.wrap_replay_base.specs.Recorded.{recorded};
ghost use Rattle.wrap_replay.specs.Worlds.{GivesTo};
ghost use Rattle.wrap.specs.Account.{Account, Pairs, account_at};
ghost use Rattle.wrap.specs.Answers.{Answers, GoesOn, SaysBy};
ghost use Rattle.wrap.specs.Asking.{AskedTurn, shelves_of};
ghost use Rattle.wrap.specs.StoreKeys.{Premises};
ghost use Rattle.wrap_base.specs.MapStores.{shelf_of};
ghost use Rattle.wrap_base.specs.declared.store_key.StoreKey.{StoreKey};

use crate::asked_store::AskedStore;
use crate::replayed::replayed;
use crate::watched_records::WatchedRecords;
use base_snapshots::SnapshotFiles;
use ckeys_include_records::entry_key::entry_keys_are_their_fields;
use std::alloc::Global;
use wrap::{
    Answer, Config, EntryKey, Fault, Files, HashState, MapStore, Pairs, Preprocessor,
    PreprocessorCacheEntry, Request, Session, Store, StoreKey, records_of_earlier_calls_are_true,
};
use wrap_base::store_key::keys_are_their_fields;
use wrap_replay_base::ReplayTool;

/// The stores of an answer.
pub type Entries = WatchedRecords<MapStore<EntryKey, PreprocessorCacheEntry>>;

pub type Objects = AskedStore<MapStore<StoreKey, Pairs>>;

/// What was answered, and the session, whose stores report for which keys they were asked, and which record was put.
#[derive(Drop)]
pub struct SessionAnswer<H> {
    pub answer: Result<Answer, Fault>,
    pub session: Session<H, Entries, Objects>,
}

/// A store of what a disk keeps, if it keeps anything, and of nothing else.
fn store_over(alloc: Global, entry: Option<(StoreKey, Pairs)>) -> MapStore<StoreKey, Pairs>
    ensures { Holds entry (shelf_of ⟦<StoreKey as PartialEq>⟧.eq result) }
{
    keys_are_their_fields();
    let mut store = MapStore::new(alloc);
    match entry {
        Some((key, pairs)) => {
            let _ = store.put(key, pairs);
            store
        }
        None => store,
    }
}

/// A store of the include record that a disk keeps, if it keeps one, and of nothing else.
fn records_over(
    alloc: Global,
    record_kept: Option<(EntryKey, PreprocessorCacheEntry)>,
) -> MapStore<EntryKey, PreprocessorCacheEntry>
    ensures { Holds record_kept (shelf_of ⟦<EntryKey as PartialEq>⟧.eq result) }
{
    entry_keys_are_their_fields();
    let mut store = MapStore::new(alloc);
    match record_kept {
        Some((key, held)) => {
            let _ = store.put(key, held);
            store
        }
        None => store,
    }
}

/// A session over stores of what a disk keeps.
pub fn session_over<H: HashState>(
    alloc: Global,
    config: Config,
    record_kept: Option<(EntryKey, PreprocessorCacheEntry)>,
    entry: Option<(StoreKey, Pairs)>,
) -> Session<H, Entries, Objects>
    ensures settings { (result.settings ≡ config.keys) × (result.max_kept ≡ config.max_kept) }
    // What is kept under the key asked for is found, then, and nothing else is.
    ensures records { Holds record_kept
        (shelf_of ⟦<EntryKey as PartialEq>⟧.eq result.entries.inner) }
    ensures outputs { Holds entry (shelf_of ⟦<StoreKey as PartialEq>⟧.eq result.objects.inner) }
{
    let entries = WatchedRecords::new(records_over(alloc, record_kept));
    let objects = AskedStore::new(alloc, store_over(alloc, entry));
    Session::new(alloc, config, entries, objects)
}

/// Answers the request by what was recorded of its compiler and its files, and by what that session's stores hold.
pub fn answered<H: HashState>(
    session: Session<H, Entries, Objects>,
    request: &Request,
    files: &mut SnapshotFiles,
    tool: &mut ReplayTool,
) -> SessionAnswer<H>
    // In each world that gives what was recorded, outputs are those that its compiler gives afresh, if the stores hold what a disk keeps, and
    // that is of earlier calls there: outputs, and in direct mode the results of the include record.
    ensures outputs { (world : Meaning) → let tree = ⟦<SnapshotFiles as Files>⟧.tree files.old in
        let a = account_at world tree session.settings request.now in
        GivesTo tool.old.text tool.old.outputs tool.old.rustc request.now tree world
        → (record_kept : Option (EntryKey × Record)) (entry : Option (StoreKey × Pairs))
        → Holds record_kept (shelf_of ⟦<EntryKey as PartialEq>⟧.eq session.entries.inner)
        → Holds entry (shelf_of ⟦<StoreKey as PartialEq>⟧.eq session.objects.inner)
        → (earlier : List Account)
        → RecordIsOfEarlier H.digest_of session.settings earlier record_kept
        → IsOfEarlier H.digest_of earlier entry
        → Premises H.digest_of (earlier ++ a ∷ [])
        → Answers a result.answer }

    // They come with what that world's rustc reports of dependencies, for this request's own targets, where it asks for it.
    ensures dep_info { (world : Meaning) → let tree = ⟦<SnapshotFiles as Files>⟧.tree files.old in
        GivesTo tool.old.text tool.old.outputs tool.old.rustc request.now tree world
        → TellsOwnDependencies (account_at world tree session.settings request.now) result.answer }

    // Under which key it asks the session's own stores, and where outputs come from.
    ensures asked { let tools = ⟦<ReplayTool as Preprocessor>⟧ in
        let a = account_at (recorded tool.old.text tool.old.outputs tool.old.rustc)
        (⟦<SnapshotFiles as Files>⟧.tree files.old) session.settings request.now in
        AskedTurn H.digest_of session.max_kept a
        (shelves_of (shelf_of ⟦<EntryKey as PartialEq>⟧.eq session.entries.inner)
        (shelf_of ⟦<StoreKey as PartialEq>⟧.eq session.objects.inner))
        (shelves_of (shelf_of ⟦<EntryKey as PartialEq>⟧.eq result.session.entries.inner)
        (shelf_of ⟦<StoreKey as PartialEq>⟧.eq result.session.objects.inner))
        (tools.preprocessed tool.old) (tools.preprocessed tool.new) (tools.compiled tool.old)
        (tools.compiled tool.new) result.answer }

    // It is passed through exactly where the verdict says, unless memory was refused first; a fault has its cause.
    ensures says { let a = account_at (recorded tool.old.text tool.old.outputs tool.old.rustc)
        (⟦<SnapshotFiles as Files>⟧.tree files.old) session.settings request.now in
        SaysBy GoesOn a (FilesFail ⟦<SnapshotFiles as Files>⟧ files.old files.new)
        (ToolFails ⟦<ReplayTool as Preprocessor>⟧ tool.old tool.new) result.answer }

    // What was recorded means what it did.
    ensures meaning { recorded tool.new.text tool.new.outputs tool.new.rustc
        ≡ recorded tool.old.text tool.old.outputs tool.old.rustc }
{
    records_of_earlier_calls_are_true::<H>();
    let mut session = session;
    let answer = replayed(&mut session, request, files, tool);
    SessionAnswer { answer, session }
}
