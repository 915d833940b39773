//! The session that answers requests.

ghost use Rattle.std.specs.Prelude.{◌≡◌, true, false, length, IfOk, IfErr, OnErr};
ghost use Rattle.base_files.specs.Views.{FilesFail};
ghost use Rattle.ckeys_base.specs.Shelf.{Clears, IsEmpty};
ghost use Rattle.ckeys_records.specs.Views.{ToolFails};
ghost use Rattle.ckeys_records.specs.Untouched.{Untouched};
ghost use Rattle.wrap_keys.specs.Account.{account_at};
ghost use Rattle.wrap_keys.specs.Answers.{EarlyCause, GoesOn, OnPass, Says, SaysBy};
ghost use Rattle.wrap_keys.specs.Asking.{AskedTurn, EntriesTurn, RecordsAreTrue, RunsOf, shelves_of};
ghost use Rattle.wrap_keys.specs.Early.{IsAskedEarly, OfPassed};
ghost use Rattle.wrap_base.specs.Commands.{named_by};
ghost use Rattle.wrap_keys.specs.RustVerdicts.{is_rust_no_text};
ghost use Rattle.wrap_keys.specs.StoreKeys.{Premises};
ghost use Rattle.wrap_fingerprints.specs.Telling.{OnReason, Tells};
ghost use Rattle.wrap_keys.specs.Whole.{AllAnswer, Each, IsAnswered, OneFresh, Run, SaysOwn, SessionRun, accounts_at, served_at};
ghost use Rattle.wrap.specs.Serving.{BeginTrue, IsTurn, KeepsHistories, KeepsHistory, account_of, call_of};
ghost use Rattle.wrap.specs.Sessions.{held_by};

use crate::c_calls::c_turn;
use crate::laws::call_keys_tell_records;
use crate::rust_calls::rust_turn;
use base_files::Files;
use ckeys::{EntryKey, PreprocessorCacheEntry, records_are_true};
use ckeys_base::{HashState, Store};
use ckeys_records::Fault;
use std::alloc::{AllocError, Global};
use std::marker::{Model, PhantomData};
use wrap_base::store_key::{Pairs, StoreKey};
use wrap_base::{Answer, Call, Config, Named, Reason, Request, Tool};
use wrap_fingerprints::{Fingerprint, request_fingerprint};

/// Answers requests under one configuration, from a store of include records and one of what was compiled, by one hash
/// function. Contracts see what the configuration fixes, and the stores.
#[derive(Drop)]
pub struct Session<H, E, O> {
    alloc: Global,
    config: Config,
    entries: E,
    objects: O,
    hash: PhantomData<H>,
}

impl<H, E, O> Model for Session<H, E, O> {
    ghost use Rattle.wrap.specs.Sessions.{Held, held_by};

    ghost Value = { Held E O };

    ghost view = { λ a. held_by a.config a.entries a.objects };
}

impl<
    H: HashState,
    E: Store<EntryKey, PreprocessorCacheEntry> + Drop,
    O: Store<StoreKey, Pairs> + Drop,
> Session<H, E, O> {
    /// A session under that configuration over these stores, whose calls take their memory from the allocator.
    pub fn new(alloc: Global, config: Config, entries: E, objects: O) -> Session<H, E, O>
        ensures { result ≡ held_by config entries objects }
    {
        Session {
            alloc,
            config,
            entries,
            objects,
            hash: PhantomData,
        }
    }

    /// The configuration.
    pub fn config(&self) -> &Config
        ensures keys { result.now.keys ≡ self.now.settings }
        ensures limit { result.now.max_kept ≡ self.now.max_kept }
    {
        &self.config
    }

    /// The store of include records.
    pub fn entries(&self) -> &E
        ensures { result.now ≡ self.now.entries }
    {
        &self.entries
    }

    /// The store of outputs.
    pub fn objects(&self) -> &O
        ensures { result.now ≡ self.now.objects }
    {
        &self.objects
    }

    /// Drops all that the stores hold.
    pub fn forget_all(&mut self)
        ensures entries { Clears (E.shelf self.old.entries) (E.shelf self.new.entries) }
        ensures objects { Clears (O.shelf self.old.objects) (O.shelf self.new.objects) }
        ensures settings { (self.new.settings ≡ self.old.settings)
            × (self.new.max_kept ≡ self.old.max_kept) }
    {
        self.entries.forget_all();
        self.objects.forget_all();
    }

    /// Of what the key of a request is made, on these files by that tool, or why it is passed through. The stores aren't asked, and
    /// nothing is compiled: of include records none is used, so that a text is printed.
    ///
    /// Refused as `serve` is before a compile.
    pub fn fingerprint<F: Files, T: Tool>(
        &self,
        request: &Request,
        files: &mut F,
        tool: &mut T,
    ) -> Result<Result<Fingerprint, Reason>, Fault>
        // The parts are those of the request's record, with digests for files' contents; it is passed through exactly where the
        // verdict says, unless memory was refused first; a fault has its cause.
        ensures tells { let a = account_at (T.meaning tool.old) (F.tree files.old) self.now.settings
            request.now in
            Tells H.digest_of a (FilesFail F.Files files.old files.new)
            (ToolFails T.Preprocessor tool.old tool.new) result }
        // A pass moves no tick.
        ensures quiet { OnReason result
            ((T.preprocessed tool.new ≡ T.preprocessed tool.old)
            × (T.failed tool.new ≡ T.failed tool.old)) }
        // A request to rustc that isn't UTF-8 touches no file.
        ensures no_text { is_rust_no_text (named_by request.now.compiler) request.now ≡ true
            → files.new ≡ files.old }
        // The text is printed once where there is one to print, and rustc asked twice; before a fault as far as the call came.
        ensures runs { let a = account_at (T.meaning tool.old) (F.tree files.old) self.now.settings
            request.now in
            RunsOf a false result (T.preprocessed tool.old) (T.preprocessed tool.new) }
        ensures compiles { T.compiled tool.new ≡ T.compiled tool.old }
        // Files and meaning stay as they are, and no I/O error occurred unless a fault reports it.
        ensures untouched { Untouched T.Preprocessor F.Files
            tool.old files.old tool.new files.new result }
    {
        request_fingerprint::<H, F, T>(self.alloc, &self.config.keys, request, files, tool)
    }

    /// Answers one request on these files by that tool: it is passed through, or it gets the outputs that its compiler
    /// gives afresh, from the store or by one compile, or there is a fault.
    pub fn serve<F: Files, T: Tool>(
        &mut self,
        request: &Request,
        files: &mut F,
        tool: &mut T,
    ) -> Result<Answer, Fault>
        // It is passed through exactly where the verdict says, unless memory was refused first; a fault has its cause; a request to
        // rustc that isn't UTF-8 touches no file; and what the files hold and what the compiler means are as they were.
        ensures answered { IsAnswered self.old.settings F.Files T.Preprocessor
            (call_of request.now files.old tool.old)
            (call_of request.now files.new tool.new) result }

        // Under which key it asks the store of outputs, what it does to both stores, and how often a compiler ran for it.
        ensures turn { IsTurn self.old.settings F.Files T.Preprocessor H.digest_of self.old.max_kept
            (shelves_of (E.shelf self.old.entries) (O.shelf self.old.objects))
            (shelves_of (E.shelf self.new.entries) (O.shelf self.new.objects))
            (call_of request.now files.old tool.old)
            (call_of request.now files.new tool.new) result }

        // Where the records are true of it, outputs mean that the call has no fault before the store is asked.
        ensures goes_on { let a = account_of self.old.settings F.Files T.Preprocessor
            (call_of request.now files.old tool.old) in
            RecordsAreTrue H.digest_of a (E.shelf self.old.entries).held
            → Says a (FilesFail F.Files files.old files.new)
            (ToolFails T.Preprocessor tool.old tool.new) result }

        // Whatever calls were served before, the stores hold what is of those and of this one, and its outputs are fresh ones.
        ensures history { let a = account_of self.old.settings F.Files T.Preprocessor
            (call_of request.now files.old tool.old) in
            KeepsHistory H.digest_of self.old.settings a
            (shelves_of (E.shelf self.old.entries) (O.shelf self.old.objects))
            (shelves_of (E.shelf self.new.entries) (O.shelf self.new.objects)) result }

        ensures settings { (self.new.settings ≡ self.old.settings)
            × (self.new.max_kept ≡ self.old.max_kept) }
    {
        call_keys_tell_records::<H>();
        records_are_true::<H>();
        self.turn(request, files, tool)
    }

    /// Answers calls in order, each on its own files by its own tool. Room for the answers is taken first.
    pub fn serve_all<F: Files, T: Tool>(
        &mut self,
        calls: &mut [Call<F, T>],
    ) -> Result<Vec<Result<Answer, Fault>>, AllocError>
        ensures length { IfOk result (λ answers. length answers.items ≡ length calls.old) }

        // Each answer is one call's, in order, as `serve` says; and nothing else is done to the stores.
        ensures run { let served = served_at self.old.settings F.Files T.Preprocessor
            calls.old calls.new in
            IfOk result (λ answers. SessionRun H.digest_of self.old.max_kept self.old.settings
            (shelves_of (E.shelf self.old.entries) (O.shelf self.old.objects))
            (served answers.items)
            (shelves_of (E.shelf self.new.entries) (O.shelf self.new.objects))) }

        // Where the records begin as true ones, each call is one over the store of outputs alone, under its own key.
        ensures own { let served = served_at self.old.settings F.Files T.Preprocessor
            calls.old calls.new in
            BeginTrue self.old.settings F.Files T.Preprocessor H.digest_of
            (E.shelf self.old.entries) calls.old
            → IfOk result (λ answers. Run H.digest_of self.old.max_kept
            (O.shelf self.old.objects) (served answers.items) (O.shelf self.new.objects)) }

        // Each is passed through exactly where the verdict says, and a fault has its cause, as `serve` says.
        ensures says { IfOk result
            (λ answers. Each (IsAnswered self.old.settings F.Files T.Preprocessor)
            calls.old calls.new answers.items) }

        // Then outputs and faults of a compile mean that the call has no fault before the store is asked.
        ensures goes_on { BeginTrue self.old.settings F.Files T.Preprocessor H.digest_of
            (E.shelf self.old.entries) calls.old
            → IfOk result (λ answers. Each (SaysOwn self.old.settings F.Files T.Preprocessor)
            calls.old calls.new answers.items) }

        // Whatever calls were served before, the stores hold what is of those and of these, and the outputs of these are fresh ones.
        ensures history { let served = served_at self.old.settings F.Files T.Preprocessor
            calls.old calls.new in
            IfOk result (λ answers. KeepsHistories H.digest_of self.old.settings
            (accounts_at self.old.settings F.Files T.Preprocessor calls.old) (served answers.items)
            (shelves_of (E.shelf self.old.entries) (O.shelf self.old.objects))
            (shelves_of (E.shelf self.new.entries) (O.shelf self.new.objects))) }

        // From empty stores all outputs are those that the compilers give afresh on each call's files.
        ensures outputs { let served = served_at self.old.settings F.Files T.Preprocessor
            calls.old calls.new in
            (self.old.settings.direct ≡ true → IsEmpty (E.shelf self.old.entries))
            → IsEmpty (O.shelf self.old.objects)
            → Premises H.digest_of
            (accounts_at self.old.settings F.Files T.Preprocessor calls.old)
            → IfOk result (λ answers. AllAnswer (served answers.items)) }

        // With nothing forgotten or refused, equal records get at most one fresh answer, where their outputs are no larger than the limit.
        ensures once { let served = served_at self.old.settings F.Files T.Preprocessor
            calls.old calls.new in
            BeginTrue self.old.settings F.Files T.Preprocessor H.digest_of
            (E.shelf self.old.entries) calls.old
            → (O.shelf self.new.objects).kept ≡ true
            → IfOk result (λ answers. OneFresh self.old.max_kept (served answers.items)) }

        ensures settings { (self.new.settings ≡ self.old.settings)
            × (self.new.max_kept ≡ self.old.max_kept) }
        ensures unchanged { OnErr result
            ((calls.new ≡ calls.old) × (E.shelf self.new.entries ≡ E.shelf self.old.entries)
            × (O.shelf self.new.objects ≡ O.shelf self.old.objects)) }
    {
        call_keys_tell_records::<H>();
        records_are_true::<H>();
        self.run_all(calls)
    }

    fn run_all<F: Files, T: Tool>(
        &mut self,
        calls: &mut [Call<F, T>],
    ) -> Result<Vec<Result<Answer, Fault>>, AllocError>
        ensures length { IfOk result (λ answers. length answers.items ≡ length calls.old) }
        ensures run { IfOk result
            (λ answers. SessionRun H.digest_of self.old.max_kept self.old.settings
            (shelves_of (E.shelf self.old.entries) (O.shelf self.old.objects))
            (served_at self.old.settings F.Files T.Preprocessor calls.old calls.new answers.items)
            (shelves_of (E.shelf self.new.entries) (O.shelf self.new.objects))) }
        ensures says { IfOk result
            (λ answers. Each (IsAnswered self.old.settings F.Files T.Preprocessor)
            calls.old calls.new answers.items) }
        ensures settings { (self.new.settings ≡ self.old.settings)
            × (self.new.max_kept ≡ self.old.max_kept) }
        ensures unchanged { OnErr result
            ((calls.new ≡ calls.old) × (E.shelf self.new.entries ≡ E.shelf self.old.entries)
            × (O.shelf self.new.objects ≡ O.shelf self.old.objects)) }
    {
        let mut answers = Vec::with_capacity(self.alloc, calls.len())?;
        for call in calls.iter_mut() {
            let answer = self.serve(&call.request, &mut call.files, &mut call.tool);
            answers.push_reserved(answer);
        }
        Ok(answers)
    }

    fn turn<F: Files, T: Tool>(
        &mut self,
        request: &Request,
        files: &mut F,
        tool: &mut T,
    ) -> Result<Answer, Fault>
        ensures says { let a = account_at (T.meaning tool.old) (F.tree files.old) self.old.settings
            request.now in
            SaysBy GoesOn a (FilesFail F.Files files.old files.new)
            (ToolFails T.Preprocessor tool.old tool.new) result }
        ensures goes_on { let a = account_at (T.meaning tool.old) (F.tree files.old)
            self.old.settings request.now in
            RecordsAreTrue H.digest_of a (E.shelf self.old.entries).held
            → Says a (FilesFail F.Files files.old files.new)
            (ToolFails T.Preprocessor tool.old tool.new) result }
        ensures passed { let a = account_at (T.meaning tool.old) (F.tree files.old)
            self.old.settings request.now in
            let asked = IsAskedEarly (named_by request.now.compiler) request.now (F.tree files.old) in
            IfErr result (λ fault. OfPassed a (EarlyCause asked fault)) }
        ensures quiet { OnPass result
            ((T.preprocessed tool.new ≡ T.preprocessed tool.old)
            × (T.compiled tool.new ≡ T.compiled tool.old) × (T.failed tool.new ≡ T.failed tool.old)) }
        ensures no_text { is_rust_no_text (named_by request.now.compiler) request.now ≡ true
            → files.new ≡ files.old }
        ensures asked { let a = account_at (T.meaning tool.old) (F.tree files.old) self.old.settings
            request.now in
            AskedTurn H.digest_of self.old.max_kept a
            (shelves_of (E.shelf self.old.entries) (O.shelf self.old.objects))
            (shelves_of (E.shelf self.new.entries) (O.shelf self.new.objects))
            (T.preprocessed tool.old) (T.preprocessed tool.new) (T.compiled tool.old)
            (T.compiled tool.new) result }
        ensures entries { let a = account_at (T.meaning tool.old) (F.tree files.old)
            self.old.settings request.now in
            EntriesTurn H.digest_of a (E.shelf self.old.entries) (E.shelf self.new.entries)
            (T.preprocessed tool.old) (T.preprocessed tool.new) }
        ensures settings { (self.new.settings ≡ self.old.settings)
            × (self.new.max_kept ≡ self.old.max_kept) }
        ensures untouched { Untouched T.Preprocessor F.Files
            tool.old files.old tool.new files.new result }
    {
        match request.compiler.named() {
            Named::C(compiler) => c_turn::<H, E, O, F, T>(
                self.alloc,
                &self.config,
                &mut self.entries,
                &mut self.objects,
                compiler,
                request,
                files,
                tool,
            ),
            Named::Rustc(rust) => {
                let objects = &mut self.objects;
                rust_turn::<H, O, F, T>(
                    self.alloc,
                    self.config.max_kept,
                    objects,
                    rust,
                    request,
                    files,
                    tool,
                )
            }
        }
    }
}
