//! The key of a call: of a request that asks for something, on the files that are there when it is asked.

ghost use Rattle.std.specs.Prelude.{◌≡◌, false, true, List, ◌++◌, None, Some, filter, map, string_bytes, IfOk, IfErr, OnOk, OnErr};
ghost use Rattle.std.specs.List.{AllByRecursion};
ghost use Rattle.base_files.specs.Bytes.{Bytes, ticked};
ghost use Rattle.ckeys_base.specs.Shelf.{Asks};
ghost use Rattle.base_files.specs.Path.{join};
ghost use Rattle.base_files.specs.Views.{FilesFail};
ghost use Rattle.ckeys.specs.Calls.{early_fault_of, key_fault_of, PrintedCall, needs_preprocessing, printed_call, record_by, record_of, text_fault_by, text_fault_of, text_of};
ghost use Rattle.ckeys_records.specs.Faults.{FileCause, KeyCause};
ghost use Rattle.ckeys.specs.Entries.{EntryInvariant, EntryPremises, IsFramed, asking, entry_key_of, has_entry_key};
ghost use Rattle.ckeys.specs.EntryTurns.{EntryTurn, IsGreatestFrom, IsGreatestKnown, IsKnown, Keeps, KeyFine, KeyFrom, KeyRecorded, KeyRuns, PutsNone, RunsUntilKey, TextFine};
ghost use Rattle.ckeys.specs.Surroundings.{recorded_of};
ghost use Rattle.ckeys_records.specs.Keys.{key_of, record_shape};
ghost use Rattle.ckeys.specs.Hashers.{AreExtra, call_by, handed_by, looked_at};
ghost use Rattle.ckeys_records.specs.Material.{material_of, shape_of};
ghost use Rattle.ckeys_records.specs.Params.{handed_of, is_cached, parts_handed};
ghost use Rattle.ckeys_records.specs.Records.{FitsLength};
ghost use Rattle.ckeys_records.specs.Views.{ToolFails};
ghost use Rattle.ckeys_records.specs.Untouched.{FilesUntouched, Untouched};
ghost use Rattle.ckeys_base.specs.Hex.{hex_of};

use crate::compiler_impl::CCompilerImpl;
use crate::entry::includes_for;
use crate::known::Known;
use crate::laws::records_are_true;
use crate::needed::{extra_hashes, needed_contents};
use crate::place::CallPlace;
use base_files::{Files, OsBytes};
use ckeys_base::{HashState, Store};
use ckeys_include_records::entry_key::{EntryKey, entry_keys_are_their_fields};
use ckeys_include_records::{KeyText, PreprocessorCacheEntry};
use ckeys_records::shape::CShape;
use ckeys_records::{Fault, HashKeyParams, Preprocessor, Step, ToolFail, tell_lengths};
use cmdlines_tables::ParsedArguments;
use cmdlines_tables::language::Language;
use std::alloc::{AllocError, Global};

/// What a request asks for, and of which compiler.
#[derive(Debug, Drop, PartialEq, Eq)]
#[derive_where(Clone)]
pub struct CCompilerHasher<'a, I> {
    pub compiler: &'a I,
    pub executable: &'a OsBytes,
    /// The digest that represents the compiler.
    pub executable_digest: &'a str,
    pub parsed: &'a ParsedArguments,
}

/// A text, its key and its shape.
#[derive(Drop)]
struct TextKey {
    text: OsBytes,
    key: String,
    shape: CShape,
}

/// Whether an input in this language goes through the preprocessor.
pub fn needs_c_preprocessing(language: Language) -> bool
    ensures { result ≡ needs_preprocessing language }
{
    match language {
        Language::C | Language::Cxx | Language::AssemblerToPreprocess => true,
        Language::CPreprocessed
        | Language::CxxPreprocessed
        | Language::Assembler
        | Language::Rust => false,
    }
}

impl<'a, I: CCompilerImpl + Drop> CCompilerHasher<'a, I> {
    /// The text: what the preprocessor prints, or the input itself where its language isn't preprocessed.
    pub(crate) fn text<F: Files, T: Preprocessor>(
        &self,
        alloc: Global,
        place: &CallPlace,
        files: &mut F,
        tool: &mut T,
    ) -> Result<OsBytes, Fault>
        ensures text { let call = call_by I.kind_of I.traits self.now place.now (F.tree files.old)
            in
            IfOk result (λ text. text ≡ text_of (T.meaning tool.old) call) }
        ensures fine { let call = call_by I.kind_of I.traits self.now place.now (F.tree files.old)
            in
            OnOk result (text_fault_of (T.meaning tool.old) call ≡ None) }
        ensures cause { let call = call_by I.kind_of I.traits self.now place.now (F.tree files.old)
            in
            IfErr result
            (KeyCause (text_fault_of (T.meaning tool.old) call)
            (FilesFail F.Files files.old files.new)
            (ToolFails T.Preprocessor tool.old tool.new)) }
        ensures untouched { Untouched T.Preprocessor F.Files
            tool.old files.old tool.new files.new result }
        ensures idle { needs_preprocessing self.now.parsed.now.language ≡ false
            → (T.preprocessed tool.new ≡ T.preprocessed tool.old)
            × (T.failed tool.new ≡ T.failed tool.old) }
        ensures runs { needs_preprocessing self.now.parsed.now.language ≡ true
            → OnOk result (T.preprocessed tool.new ≡ ticked (T.preprocessed tool.old)) }
        ensures until { needs_preprocessing self.now.parsed.now.language ≡ true →
            IfErr result (RunsUntilKey (T.preprocessed tool.old) (T.preprocessed tool.new)) }
        ensures compiles { T.compiled tool.new ≡ T.compiled tool.old }
    {
        if !needs_c_preprocessing(self.parsed.language) {
            return needed_contents(alloc, place.dir, &self.parsed.input, files);
        }
        match self.compiler.preprocess(
            alloc,
            self.executable,
            self.parsed,
            place.dir,
            place.env,
            place.moment,
            files,
            tool,
        ) {
            Ok(printed) if printed.status == 0 => Ok(printed.text),
            Ok(printed) => Err(Fault::PreprocessFailed(printed.status)),
            Err(ToolFail::Memory) => Err(Fault::Memory),
            Err(ToolFail::Device) => Err(Fault::Tool(Step::Preprocess)),
        }
    }

    /// What is handed in for the key of this request, with these digests of extra files and this text.
    fn params<'b>(
        &'b self,
        place: &CallPlace<'b>,
        extra: &'b [String],
        text: &'b [u8],
    ) -> HashKeyParams<'b>
        ensures { handed_of result
            ≡ handed_by I.traits self.now place.now.env.now place.now.config.now.basedirs
            (map string_bytes extra.now) text.now }
    {
        let digest = self.executable_digest;
        let words = self.parsed.common_args.as_slice();
        HashKeyParams::new(digest, self.parsed.language, words, text)
            .with_arch_args(self.parsed.arch_args.as_slice())
            .with_extra_hashes(extra)
            .with_env_vars(place.env)
            .with_plusplus(self.compiler.plusplus())
            .with_basedirs(place.config.basedirs())
            .with_assembler_digest(self.compiler.assembler_digest())
    }

    /// The key of this request with these digests of extra files and this text.
    fn key_by<H: HashState>(
        &self,
        alloc: Global,
        place: &CallPlace,
        extra: &[String],
        text: &[u8],
    ) -> Result<(String, CShape), AllocError>
        ensures key { let handed = handed_by I.traits self.now place.now.env.now
            place.now.config.now.basedirs (map string_bytes extra.now) text.now in
            IfOk result
            (λ made. string_bytes made.0 ≡ hex_of (H.digest_of (material_of (parts_handed handed)))) }
        ensures shape { let handed = handed_by I.traits self.now place.now.env.now
            place.now.config.now.basedirs (map string_bytes extra.now) text.now in
            IfOk result (λ made. made.1 ≡ shape_of (parts_handed handed)) }
        ensures fit { OnOk result (AllByRecursion FitsLength (filter is_cached place.now.env.now)) }
    {
        self.params(place, extra, text).compute::<H>(alloc)
    }

    /// The key of this text, and its shape.
    fn text_key<H: HashState, F: Files, T: Preprocessor>(
        &self,
        alloc: Global,
        place: &CallPlace,
        extra: &[String],
        files: &mut F,
        tool: &mut T,
    ) -> Result<TextKey, Fault>
        requires extra { let call = call_by I.kind_of I.traits self.now place.now (F.tree files.now)
            in
            AreExtra H.digest_of call (map string_bytes extra.now) }
        ensures text { let call = call_by I.kind_of I.traits self.now place.now (F.tree files.old)
            in
            IfOk result (λ made. made.text ≡ text_of (T.meaning tool.old) call) }
        ensures key { let call = call_by I.kind_of I.traits self.now place.now (F.tree files.old) in
            IfOk result
            (λ made. string_bytes made.key
            ≡ key_of H.digest_of (record_of (T.meaning tool.old) call)) }
        ensures shape { let call = call_by I.kind_of I.traits self.now place.now (F.tree files.old)
            in
            IfOk result
            (λ made. made.shape ≡ record_shape H.digest_of (record_of (T.meaning tool.old) call)) }
        ensures fit { OnOk result (AllByRecursion FitsLength (filter is_cached place.now.env.now)) }
        ensures fine { let call = call_by I.kind_of I.traits self.now place.now (F.tree files.old)
            in
            OnOk result (text_fault_of (T.meaning tool.old) call ≡ None) }
        ensures cause { let call = call_by I.kind_of I.traits self.now place.now (F.tree files.old)
            in
            IfErr result
            (KeyCause (text_fault_of (T.meaning tool.old) call)
            (FilesFail F.Files files.old files.new)
            (ToolFails T.Preprocessor tool.old tool.new)) }
        ensures untouched { Untouched T.Preprocessor F.Files
            tool.old files.old tool.new files.new result }
        ensures idle { needs_preprocessing self.now.parsed.now.language ≡ false
            → (T.preprocessed tool.new ≡ T.preprocessed tool.old)
            × (T.failed tool.new ≡ T.failed tool.old) }
        ensures runs { needs_preprocessing self.now.parsed.now.language ≡ true
            → OnOk result (T.preprocessed tool.new ≡ ticked (T.preprocessed tool.old)) }
        ensures until { needs_preprocessing self.now.parsed.now.language ≡ true →
            IfErr result (RunsUntilKey (T.preprocessed tool.old) (T.preprocessed tool.new)) }
        ensures compiles { T.compiled tool.new ≡ T.compiled tool.old }
    {
        let text = self.text(alloc, place, files, tool)?;
        let (key, shape) = self.key_by::<H>(alloc, place, extra, text.as_bytes())?;
        Ok(TextKey { text, key, shape })
    }

    /// The shape of this request's key, which no text changes.
    fn shape(
        &self,
        alloc: Global,
        place: &CallPlace,
        extra: &[String],
    ) -> Result<CShape, AllocError>
        ensures shape { (text : Bytes)
            → let handed = handed_by I.traits self.now place.now.env.now
            place.now.config.now.basedirs (map string_bytes extra.now) text in
            IfOk result (λ shape. shape ≡ shape_of (parts_handed handed)) }
    {
        self.params(place, extra, &[]).shape(alloc)
    }

    /// The key of this request, which has this entry key: that of a matching result under it, or else that of its text, which
    /// is recorded then.
    fn recorded_key<
        H: HashState,
        E: Store<EntryKey, PreprocessorCacheEntry>,
        F: Files,
        T: Preprocessor,
    >(
        &self,
        alloc: Global,
        place: &CallPlace,
        extra: &[String],
        entry_key: EntryKey,
        entries: &mut E,
        files: &mut F,
        tool: &mut T,
    ) -> Result<(String, CShape, bool), Fault>
        requires extra { let call = call_by I.kind_of I.traits self.now place.now (F.tree files.now)
            in
            AreExtra H.digest_of call (map string_bytes extra.now) }
        requires entry { let call = call_by I.kind_of I.traits self.now place.now (F.tree files.now)
            in
            entry_key_of H.digest_of call ≡ Some entry_key }
        requires framed { let call = call_by I.kind_of I.traits self.now place.now
            (F.tree files.now) in
            IsFramed H.digest_of call }
        ensures key { let p = printed_call (T.meaning tool.old)
            (call_by I.kind_of I.traits self.now place.now (F.tree files.old)) in
            IfOk result
            (λ made. KeyFrom H.digest_of p (E.shelf entries.old).held made.2 (string_bytes made.0)) }
        ensures greatest { let p = printed_call (T.meaning tool.old)
            (call_by I.kind_of I.traits self.now place.now (F.tree files.old)) in
            IfOk result (λ made. IsGreatestFrom H.digest_of p (E.shelf entries.old).held made.2
            (string_bytes made.0)) }
        ensures shape { let call = call_by I.kind_of I.traits self.now place.now (F.tree files.old)
            in
            IfOk result
            (λ made. made.1 ≡ record_shape H.digest_of (record_of (T.meaning tool.old) call)) }
        ensures fit { OnOk result (AllByRecursion FitsLength (filter is_cached place.now.env.now)) }
        ensures fine { let p = printed_call (T.meaning tool.old)
            (call_by I.kind_of I.traits self.now place.now (F.tree files.old)) in
            IfOk result (λ made. TextFine p made.2) }
        ensures cause { let p = printed_call (T.meaning tool.old)
            (call_by I.kind_of I.traits self.now place.now (F.tree files.old)) in
            IfErr result
            (KeyCause (text_fault_by p) (FilesFail F.Files files.old files.new)
            (ToolFails T.Preprocessor tool.old tool.new)) }
        ensures entries { let p = printed_call (T.meaning tool.old)
            (call_by I.kind_of I.traits self.now place.now (F.tree files.old)) in
            EntryTurn H.digest_of p (E.shelf entries.old) (E.shelf entries.new)
            (T.preprocessed tool.old) (T.preprocessed tool.new) }
        ensures recorded { let p = printed_call (T.meaning tool.old)
            (call_by I.kind_of I.traits self.now place.now (F.tree files.old)) in
            IfOk result
            (λ made. KeyRecorded H.digest_of p (E.shelf entries.old) (E.shelf entries.new) made.2
            (string_bytes made.0)) }
        ensures unput { OnErr result (PutsNone (E.shelf entries.old) (E.shelf entries.new)) }
        ensures runs { IfOk result
            (λ made. KeyRuns made.2 (T.preprocessed tool.old) (T.preprocessed tool.new)) }
        ensures until { IfErr result
            (RunsUntilKey (T.preprocessed tool.old) (T.preprocessed tool.new)) }
        ensures untouched { Untouched T.Preprocessor F.Files
            tool.old files.old tool.new files.new result }
        ensures compiles { T.compiled tool.new ≡ T.compiled tool.old }
    {
        // A law, which costs nothing: what follows from it is said above.
        entry_keys_are_their_fields();
        match look_up::<H, E, F>(alloc, place, &entry_key, entries, files)? {
            Known::Found(key) => {
                tell_lengths(place.env);
                let shape = self.shape(alloc, place, extra)?;
                Ok((key.into_string(), shape, true))
            }
            Known::Missed(record) => {
                let made = self.text_key::<H, F, T>(alloc, place, extra, files, tool)?;
                let input = &self.parsed.input;
                keep::<H, E, F>(
                    alloc, place, input, &made, entry_key, record, entries, files,
                )?;
                Ok((made.key, made.shape, false))
            }
        }
    }

    /// The key of this request in that directory, under these variables, at that moment, on these files: the digest of
    /// its record's material, as text, and its shape; and whether the key came of an include record of an earlier call, which is
    /// asked for where the configuration keeps them.
    ///
    /// Refused with `Read` where an extra file or an input that is read isn't there or an I/O error occurs on it, with
    /// `PreprocessFailed` where the preprocessor's status isn't 0, and with `Tool` where it has an I/O error.
    pub fn generate_hash_key<
        H: HashState,
        E: Store<EntryKey, PreprocessorCacheEntry>,
        F: Files,
        T: Preprocessor,
    >(
        &self,
        alloc: Global,
        place: &CallPlace,
        entries: &mut E,
        files: &mut F,
        tool: &mut T,
    ) -> Result<(String, CShape, bool), Fault>
        // Where the key comes from: a matching result under the call's entry key, or the call's text.
        ensures key { let p = printed_call (T.meaning tool.old)
            (call_by I.kind_of I.traits self.now place.now (F.tree files.old)) in
            IfOk result
            (λ made. KeyFrom H.digest_of p (E.shelf entries.old).held made.2 (string_bytes made.0)) }
        // From a record it is that of the greatest matching result.
        ensures greatest { let p = printed_call (T.meaning tool.old)
            (call_by I.kind_of I.traits self.now place.now (F.tree files.old)) in
            IfOk result (λ made. IsGreatestFrom H.digest_of p (E.shelf entries.old).held made.2
            (string_bytes made.0)) }
        ensures shape { let call = call_by I.kind_of I.traits self.now place.now (F.tree files.old)
            in
            IfOk result
            (λ made. made.1 ≡ record_shape H.digest_of (record_of (T.meaning tool.old) call)) }
        // The lengths of the variables that count fit, which the law on keys and records asks for.
        ensures fit { OnOk result (AllByRecursion FitsLength (filter is_cached place.now.env.now)) }
        ensures fine { let p = printed_call (T.meaning tool.old)
            (call_by I.kind_of I.traits self.now place.now (F.tree files.old)) in
            IfOk result (λ made. KeyFine p made.2) }
        ensures cause { let call = call_by I.kind_of I.traits self.now place.now (F.tree files.old)
            in
            IfErr result
            (KeyCause (key_fault_of (T.meaning tool.old) call)
            (FilesFail F.Files files.old files.new)
            (ToolFails T.Preprocessor tool.old tool.new)) }
        // What the call does to the include records, and to the preprocessor's tick.
        ensures entries { let p = printed_call (T.meaning tool.old)
            (call_by I.kind_of I.traits self.now place.now (F.tree files.old)) in
            EntryTurn H.digest_of p (E.shelf entries.old) (E.shelf entries.new)
            (T.preprocessed tool.old) (T.preprocessed tool.new) }
        ensures recorded { let p = printed_call (T.meaning tool.old)
            (call_by I.kind_of I.traits self.now place.now (F.tree files.old)) in
            IfOk result
            (λ made. KeyRecorded H.digest_of p (E.shelf entries.old) (E.shelf entries.new) made.2
            (string_bytes made.0)) }
        ensures unput { OnErr result (PutsNone (E.shelf entries.old) (E.shelf entries.new)) }
        // Whatever list of earlier calls meets the invariant of the records, that list followed by this call meets it at the end.
        ensures records { let p = printed_call (T.meaning tool.old)
            (call_by I.kind_of I.traits self.now place.now (F.tree files.old)) in
            (earlier : List PrintedCall)
            → EntryInvariant H.digest_of place.now.config.now earlier (E.shelf entries.old).held
            → EntryInvariant H.digest_of place.now.config.now (earlier ++ asking p)
            (E.shelf entries.new).held }
        // Then, where digests are distinct and texts are printed again, the key is the call's own, wherever it came from.
        ensures own { let p = printed_call (T.meaning tool.old)
            (call_by I.kind_of I.traits self.now place.now (F.tree files.old)) in
            (earlier : List PrintedCall)
            → EntryInvariant H.digest_of place.now.config.now earlier (E.shelf entries.old).held
            → EntryPremises H.digest_of (earlier ++ asking p)
            → IfOk result (λ made. string_bytes made.0 ≡ key_of H.digest_of (record_by p)) }
        // A call that has no entry key gets the key of its text.
        ensures plain { let call = call_by I.kind_of I.traits self.now place.now (F.tree files.old)
            in
            has_entry_key call ≡ false → IfOk result (λ made. made.2 ≡ false) }
        ensures untouched { Untouched T.Preprocessor F.Files
            tool.old files.old tool.new files.new result }
        ensures idle { needs_preprocessing self.now.parsed.now.language ≡ false
            → (T.preprocessed tool.new ≡ T.preprocessed tool.old)
            × (T.failed tool.new ≡ T.failed tool.old) }
        ensures runs { needs_preprocessing self.now.parsed.now.language ≡ true
            → IfOk result
            (λ made. KeyRuns made.2 (T.preprocessed tool.old) (T.preprocessed tool.new)) }
        // How often the preprocessor ran before a fault.
        ensures until { needs_preprocessing self.now.parsed.now.language ≡ true →
            IfErr result (RunsUntilKey (T.preprocessed tool.old) (T.preprocessed tool.new)) }
        // Where an extra file isn't there, or an input that is read for its include record, the preprocessor isn't started.
        ensures early { let call = call_by I.kind_of I.traits self.now place.now (F.tree files.old)
            in
            (early_fault_of call ≡ None → ⊥)
            → T.preprocessed tool.new ≡ T.preprocessed tool.old }
        ensures compiles { T.compiled tool.new ≡ T.compiled tool.old }
    {
        records_are_true::<H>();
        self.key_at::<H, E, F, T>(alloc, place, entries, files, tool)
    }

    /// The key of this request, as `generate_hash_key` says.
    fn key_at<H: HashState, E: Store<EntryKey, PreprocessorCacheEntry>, F: Files, T: Preprocessor>(
        &self,
        alloc: Global,
        place: &CallPlace,
        entries: &mut E,
        files: &mut F,
        tool: &mut T,
    ) -> Result<(String, CShape, bool), Fault>
        ensures key { let p = printed_call (T.meaning tool.old)
            (call_by I.kind_of I.traits self.now place.now (F.tree files.old)) in
            IfOk result
            (λ made. KeyFrom H.digest_of p (E.shelf entries.old).held made.2 (string_bytes made.0)) }
        ensures greatest { let p = printed_call (T.meaning tool.old)
            (call_by I.kind_of I.traits self.now place.now (F.tree files.old)) in
            IfOk result (λ made. IsGreatestFrom H.digest_of p (E.shelf entries.old).held made.2
            (string_bytes made.0)) }
        ensures shape { let call = call_by I.kind_of I.traits self.now place.now (F.tree files.old)
            in
            IfOk result
            (λ made. made.1 ≡ record_shape H.digest_of (record_of (T.meaning tool.old) call)) }
        ensures fit { OnOk result (AllByRecursion FitsLength (filter is_cached place.now.env.now)) }
        ensures fine { let p = printed_call (T.meaning tool.old)
            (call_by I.kind_of I.traits self.now place.now (F.tree files.old)) in
            IfOk result (λ made. KeyFine p made.2) }
        ensures cause { let call = call_by I.kind_of I.traits self.now place.now (F.tree files.old)
            in
            IfErr result
            (KeyCause (key_fault_of (T.meaning tool.old) call)
            (FilesFail F.Files files.old files.new)
            (ToolFails T.Preprocessor tool.old tool.new)) }
        ensures entries { let p = printed_call (T.meaning tool.old)
            (call_by I.kind_of I.traits self.now place.now (F.tree files.old)) in
            EntryTurn H.digest_of p (E.shelf entries.old) (E.shelf entries.new)
            (T.preprocessed tool.old) (T.preprocessed tool.new) }
        ensures recorded { let p = printed_call (T.meaning tool.old)
            (call_by I.kind_of I.traits self.now place.now (F.tree files.old)) in
            IfOk result
            (λ made. KeyRecorded H.digest_of p (E.shelf entries.old) (E.shelf entries.new) made.2
            (string_bytes made.0)) }
        ensures unput { OnErr result (PutsNone (E.shelf entries.old) (E.shelf entries.new)) }
        ensures untouched { Untouched T.Preprocessor F.Files
            tool.old files.old tool.new files.new result }
        ensures idle { needs_preprocessing self.now.parsed.now.language ≡ false
            → (T.preprocessed tool.new ≡ T.preprocessed tool.old)
            × (T.failed tool.new ≡ T.failed tool.old) }
        ensures runs { needs_preprocessing self.now.parsed.now.language ≡ true
            → IfOk result
            (λ made. KeyRuns made.2 (T.preprocessed tool.old) (T.preprocessed tool.new)) }
        ensures until { needs_preprocessing self.now.parsed.now.language ≡ true →
            IfErr result (RunsUntilKey (T.preprocessed tool.old) (T.preprocessed tool.new)) }
        ensures early { let call = call_by I.kind_of I.traits self.now place.now (F.tree files.old)
            in
            (early_fault_of call ≡ None → ⊥)
            → T.preprocessed tool.new ≡ T.preprocessed tool.old }
        ensures compiles { T.compiled tool.new ≡ T.compiled tool.old }
    {
        let names = self.parsed.extra_hash_files.as_slice();
        let extra = extra_hashes::<H, F>(alloc, place.dir, names, files)?;
        let extra = extra.as_slice();
        let entry_key = self.entry_key::<H, F>(alloc, place, extra, files)?;
        let Some(entry_key) = entry_key else {
            let made = self.text_key::<H, F, T>(alloc, place, extra, files, tool)?;
            return Ok((made.key, made.shape, false));
        };
        self.recorded_key::<H, E, F, T>(alloc, place, extra, entry_key, entries, files, tool)
    }
}

/// What lies under the entry key gives: the key of a result whose files are as they were, or nothing, and then what is there.
fn look_up<H: HashState, E: Store<EntryKey, PreprocessorCacheEntry>, F: Files>(
    alloc: Global,
    place: &CallPlace,
    key: &EntryKey,
    entries: &mut E,
    files: &mut F,
) -> Result<Known, Fault>
    ensures asks { Asks (E.shelf entries.old) (E.shelf entries.new) key.now
        ((E.shelf entries.new).held key.now) }
    ensures found { IfOk result
        (IsKnown H.digest_of (looked_at place.now (F.tree files.old))
        ((E.shelf entries.new).held key.now)) }
    ensures greatest { IfOk result
        (IsGreatestKnown H.digest_of (looked_at place.now (F.tree files.old))
        ((E.shelf entries.new).held key.now)) }
    ensures unput { PutsNone (E.shelf entries.old) (E.shelf entries.new) }
    ensures cause { IfErr result
        (FileCause None (FilesFail F.Files files.old files.new)) }
    ensures untouched { FilesUntouched F.Files files.old files.new result }
{
    match entries.get(key) {
        Some(record) => {
            let zone = place.config.zone();
            let moment = place.moment;
            match record.lookup_result_digest::<H, F>(alloc, place.dir, moment, zone, files)? {
                Some(key) => Ok(Known::Found(key)),
                None => Ok(Known::Missed(record.clone()?)),
            }
        }
        None => Ok(Known::Missed(PreprocessorCacheEntry::new(alloc))),
    }
}

/// Puts a text's key and the files that it names beside what was known, where the text is recorded.
fn keep<H: HashState, E: Store<EntryKey, PreprocessorCacheEntry>, F: Files>(
    alloc: Global,
    place: &CallPlace,
    input: &OsBytes,
    made: &TextKey,
    key: EntryKey,
    known: PreprocessorCacheEntry,
    entries: &mut E,
    files: &mut F,
) -> Result<(), Fault>
    ensures keeps { OnOk result
        (Keeps ⟦<EntryKey as PartialEq>⟧.eq key known.results (string_bytes made.now.key)
        (recorded_of (looked_at place.now (F.tree files.old)) H.digest_of
        (join place.now.dir.now input.now) made.now.text)
        (E.shelf entries.old) (E.shelf entries.new)) }
    ensures unkept { OnErr result (E.shelf entries.new ≡ E.shelf entries.old) }
    ensures cause { IfErr result
        (FileCause None (FilesFail F.Files files.old files.new)) }
    ensures untouched { FilesUntouched F.Files files.old files.new result }
{
    if let Some(includes) = includes_for::<H, F>(alloc, &made.text, input, place, files)? {
        let text_key = KeyText::new(String::from_str(alloc, made.key.as_str())?);
        let mut record = known;
        record.add_result(text_key, includes)?;
        let _ = entries.put(key, record);
    }
    Ok(())
}
