//! Keys of many calls, over one store of include records.

ghost use Rattle.std.specs.Prelude.{◌≡◌, List, ◌++◌, length, IfOk, OnOk, OnErr};
ghost use Rattle.std.specs.List.{zip};
ghost use Rattle.ckeys_base.specs.Shelf.{IsEmpty};
ghost use Rattle.ckeys.specs.Calls.{PrintedCall};
ghost use Rattle.ckeys.specs.Entries.{EntryInvariant, EntryPremises};
ghost use Rattle.ckeys.specs.HashCalls.{AreKeyed, AreOwnKeys, KeyRun, asking_among, call_view, printed_all};

use crate::compiler_impl::CCompilerImpl;
use crate::hasher::CCompilerHasher;
use crate::place::CallPlace;
use base_files::{Files, OsBytes};
use ckeys_base::{HashState, Store};
use ckeys_include_records::PreprocessorCacheEntry;
use ckeys_include_records::entry_key::EntryKey;
use ckeys_records::shape::CShape;
use ckeys_records::{Fault, KeyConfig, Preprocessor};
use std::alloc::{AllocError, Global};

/// A request, where and when it is asked, the files that are there then, and the tool that runs its preprocessor.
#[derive(Drop)]
pub struct HashCall<'a, I, F, T> {
    pub hasher: CCompilerHasher<'a, I>,
    pub dir: &'a OsBytes,
    pub env: &'a [(OsBytes, OsBytes)],
    pub moment: i64,
    pub files: F,
    pub tool: T,
}

impl<'a, I, F, T> HashCall<'a, I, F, T> {
    /// Where and when it is asked.
    fn place<'b>(&self, config: &'b KeyConfig) -> CallPlace<'b>
    where
        'a: 'b,
        ensures dir { result.dir.now ≡ self.now.dir.now }
        ensures env { result.env.now ≡ self.now.env.now }
        ensures moment { result.moment ≡ self.now.moment }
        ensures config { result.config.now ≡ config.now }
    {
        CallPlace {
            dir: self.dir,
            env: self.env,
            moment: self.moment,
            config,
        }
    }
}

/// The keys of these calls under one configuration, each asked in order by `generate_hash_key` on its own files and by its own
/// tool: what a call leaves among the records can give the keys of those after it. A fault is that of its own call, and the
/// calls after it are asked too.
///
/// Room for the answers is taken first, and where that is refused no call is asked.
pub fn hash_keys<
    H: HashState,
    I: CCompilerImpl + Drop,
    E: Store<EntryKey, PreprocessorCacheEntry>,
    F: Files + Drop,
    T: Preprocessor + Drop,
>(
    alloc: Global,
    calls: &mut [HashCall<I, F, T>],
    config: &KeyConfig,
    entries: &mut E,
) -> Result<Vec<Result<(String, CShape, bool), Fault>>, AllocError>
    ensures length { IfOk result (λ answers. length answers.items ≡ length calls.old) }
    // Each answer is one call's, in order, as `generate_hash_key` says.
    ensures keyed { let view = call_view I.CCompilerImpl F.Files T.Preprocessor in
        IfOk result (λ answers. AreKeyed H.digest_of view config.now
        calls.old calls.new answers.items) }
    // Over one store: where each key comes from, and what each call does to the records.
    ensures run { let view = call_view I.CCompilerImpl F.Files T.Preprocessor in
        IfOk result (λ answers. KeyRun H.digest_of view config.now (E.shelf entries.old)
        (zip (zip calls.old calls.new) answers.items) (E.shelf entries.new)) }
    // Whatever list of earlier calls meets the invariant of the records, that list followed by these calls meets it at the end.
    ensures records { let view = call_view I.CCompilerImpl F.Files T.Preprocessor in
        let asked = asking_among (printed_all view config.now calls.old) in
        (earlier : List PrintedCall) →
        EntryInvariant H.digest_of config.now earlier (E.shelf entries.old).held →
        OnOk result
        (EntryInvariant H.digest_of config.now (earlier ++ asked) (E.shelf entries.new).held) }
    // Then, where digests are distinct and texts are printed again, each key is the call's own, wherever it came from.
    ensures own { let view = call_view I.CCompilerImpl F.Files T.Preprocessor in
        let printed = printed_all view config.now calls.old in
        (earlier : List PrintedCall) →
        EntryInvariant H.digest_of config.now earlier (E.shelf entries.old).held →
        EntryPremises H.digest_of (earlier ++ asking_among printed) →
        IfOk result (λ answers. AreOwnKeys H.digest_of printed answers.items) }
    // So it is from an empty store.
    ensures from_empty { let view = call_view I.CCompilerImpl F.Files T.Preprocessor in
        let printed = printed_all view config.now calls.old in
        IsEmpty (E.shelf entries.old) →
        EntryPremises H.digest_of (asking_among printed) →
        IfOk result (λ answers. AreOwnKeys H.digest_of printed answers.items) }
    ensures unchanged { OnErr result
        ((calls.new ≡ calls.old) × (E.shelf entries.new ≡ E.shelf entries.old)) }
{
    let mut answers = Vec::with_capacity(alloc, calls.len())?;
    for call in calls.iter_mut() {
        let place = call.place(config);
        let answer = call
            .hasher
            .generate_hash_key::<H, E, F, T>(
                alloc,
                &place,
                entries,
                &mut call.files,
                &mut call.tool,
            );
        answers.push_reserved(answer);
    }
    Ok(answers)
}
