//! All that rustc and the files report before a request has its key, in the order in which they are asked.

ghost use Rattle.std.specs.Prelude.{◌≡◌, ℤ, None, string_bytes, IfOk, IfErr, OnOk};
ghost use Rattle.std.specs.List.{AllByRecursion};
ghost use Rattle.base_files.specs.Bytes.{ticked};
ghost use Rattle.base_files.specs.Views.{FilesFail};
ghost use Rattle.ckeys_records.specs.Faults.{KeyCause};
ghost use Rattle.ckeys_records.specs.Meaning.{text_in};
ghost use Rattle.ckeys_records.specs.Causes.{no_step};
ghost use Rattle.ckeys_records.specs.Meaning.{AtMostOnce};
ghost use Rattle.ckeys_records.specs.Views.{ToolFails};
ghost use Rattle.ckeys_records.specs.Untouched.{FilesUntouched, Untouched};
ghost use Rattle.rustc_parts.specs.Formed.{IsDigest, digest_digits};
ghost use Rattle.rustkeys.specs.Calls.{dep_info_fault_of, files_fault_of, key_fault_with, sources_fault_of};
ghost use Rattle.rustkeys.specs.Questions.{answers_of, dep_info_of, digested, question_of, sources_in};
ghost use Rattle.rustkeys.specs.Collected.{AreFilesOf, IsCollected, file_digests};
ghost use Rattle.rustkeys.specs.Runs.{AtMostFor, AtMostTwice, ticked_for};

use crate::archives::archive_digests;
use crate::digests::{needed_digests, needed_in, needed_where_named};
use crate::ordered_lists::sources_in;
use crate::place::RustPlace;
use base_files::{Files, Listed, OsBytes};
use ckeys_base::HashState;
use ckeys_records::{Fault, RustcAnswers};
use std::alloc::Global;

/// The text in which rustc reports what the crate depends on, and the digests of its sources.
#[derive(Drop)]
pub(crate) struct Sources {
    pub text: String,
    pub digests: Listed<OsBytes>,
}

/// The digests of other files: of the crates that are named, of static libraries, of the target's file, and of the
/// profile that code generation uses.
#[derive(Drop)]
pub(crate) struct OtherFiles {
    pub externs: Listed<OsBytes>,
    pub archives: Listed<OsBytes>,
    pub target: Option<OsBytes>,
    pub profile: Option<OsBytes>,
}

/// All of it, with the text in which rustc reports the names of what it writes.
#[derive(Drop)]
pub(crate) struct Collected {
    pub sources: Sources,
    pub names: String,
    pub files: OtherFiles,
}

impl<'a> RustPlace<'a> {
    /// The digests of the sources that a text on dependencies names.
    fn sources<H: HashState, F: Files>(
        &self,
        alloc: Global,
        text: &str,
        files: &mut F,
    ) -> Result<Listed<OsBytes>, Fault>
        ensures digests { let paths = sources_in self.now.dir.now text.now in
            IfOk result (λ digests. digests ≡ file_digests H.digest_of (F.tree files.old) paths) }
        ensures fine { let fault = sources_fault_of (F.tree files.old) self.now.dir.now text.now in
            OnOk result (fault ≡ None) }
        ensures cause { let fault = sources_fault_of (F.tree files.old) self.now.dir.now text.now in
            IfErr result (KeyCause fault (FilesFail F.Files files.old files.new)
            no_step) }
        ensures untouched { FilesUntouched F.Files files.old files.new result }
    {
        let paths = sources_in(alloc, self.dir, text)?;
        needed_digests::<H, F>(alloc, paths.as_slice(), files)
    }

    /// What rustc reports of dependencies, with the digests of the sources.
    fn dep_info<H: HashState, F: Files, A: RustcAnswers>(
        &self,
        alloc: Global,
        files: &mut F,
        answers: &mut A,
    ) -> Result<Sources, Fault>
        ensures text { (moment : ℤ) → let q = question_of self.now (F.tree files.old) moment in
            let text = text_in (dep_info_of (A.meaning answers.old) q).contents in
            IfOk result (λ sources. string_bytes sources.text ≡ text) }
        ensures digests { IfOk result (λ sources. sources.digests
            ≡ file_digests H.digest_of (F.tree files.old)
            (sources_in self.now.dir.now (string_bytes sources.text))) }
        ensures fine { (moment : ℤ) → let q = question_of self.now (F.tree files.old) moment in
            let made = dep_info_of (A.meaning answers.old) q in
            OnOk result (dep_info_fault_of q made ≡ None) }
        ensures cause { (moment : ℤ) → let q = question_of self.now (F.tree files.old) moment in
            let made = dep_info_of (A.meaning answers.old) q in
            IfErr result (KeyCause (dep_info_fault_of q made)
            (FilesFail F.Files files.old files.new)
            (ToolFails A.Preprocessor answers.old answers.new)) }
        ensures untouched { Untouched A.Preprocessor F.Files
            answers.old files.old answers.new files.new result }
        ensures runs { OnOk result (A.preprocessed answers.new ≡ ticked (A.preprocessed answers.old)) }
        ensures once { AtMostOnce (A.preprocessed answers.old) (A.preprocessed answers.new) }
        ensures archives { A.archived answers.new ≡ A.archived answers.old }
        ensures compiles { A.compiled answers.new ≡ A.compiled answers.old }
    {
        let text = self.dep_info_text(alloc, files, answers)?;
        let digests = self.sources::<H, F>(alloc, text.as_str(), files)?;
        Ok(Sources { text, digests })
    }

    /// The digests of the other files.
    fn other_files<H: HashState, F: Files, A: RustcAnswers>(
        &self,
        alloc: Global,
        files: &mut F,
        answers: &mut A,
    ) -> Result<OtherFiles, Fault>
        ensures digests { (moment : ℤ) → let q = question_of self.now (F.tree files.old) moment in
            let archives = digested (A.meaning answers.old) q.scene q.asks.staticlibs in
            IfOk result (AreFilesOf H.digest_of q archives) }
        ensures formed { IfOk result
            (λ found. AllByRecursion (IsDigest digest_digits) found.archives) }
        ensures fine { (moment : ℤ) → let q = question_of self.now (F.tree files.old) moment in
            let archives = digested (A.meaning answers.old) q.scene q.asks.staticlibs in
            OnOk result (files_fault_of q archives ≡ None) }
        ensures cause { (moment : ℤ) → let q = question_of self.now (F.tree files.old) moment in
            let archives = digested (A.meaning answers.old) q.scene q.asks.staticlibs in
            IfErr result (KeyCause (files_fault_of q archives)
            (FilesFail F.Files files.old files.new)
            (ToolFails A.Preprocessor answers.old answers.new)) }
        ensures untouched { Untouched A.Preprocessor F.Files
            answers.old files.old answers.new files.new result }
        ensures runs { A.preprocessed answers.new ≡ A.preprocessed answers.old }
        ensures archives { OnOk result (A.archived answers.new
            ≡ ticked_for self.now.parsed.now.staticlibs (A.archived answers.old)) }
        ensures once_each { AtMostFor self.now.parsed.now.staticlibs
            (A.archived answers.old) (A.archived answers.new) }
        ensures compiles { A.compiled answers.new ≡ A.compiled answers.old }
    {
        let externs = needed_in::<H, F>(alloc, self.dir, self.parsed.externs.as_slice(), files)?;
        let archives = archive_digests(alloc, self.parsed.staticlibs.as_slice(), files, answers)?;
        let target = needed_where_named::<H, F>(alloc, self.dir, &self.parsed.target_json, files)?;
        let profile = needed_where_named::<H, F>(alloc, self.dir, &self.parsed.profile_use, files)?;
        Ok(OtherFiles {
            externs,
            archives,
            target,
            profile,
        })
    }

    /// All that is reported before a request has its key: what rustc reports of dependencies, the sources, the names of what it writes, and
    /// then the other files.
    #[tactic(auto, using(crate::proofs::RunLemmas::once_at_most, crate::proofs::RunLemmas::once_more))]
    pub(crate) fn collect<H: HashState, F: Files, A: RustcAnswers>(
        &self,
        alloc: Global,
        files: &mut F,
        answers: &mut A,
    ) -> Result<Collected, Fault>
        ensures found { (moment : ℤ) → let q = question_of self.now (F.tree files.old) moment in
            let told = answers_of (A.meaning answers.old) q in
            IfOk result (IsCollected H.digest_of q told) }
        ensures formed { IfOk result
            (λ found. AllByRecursion (IsDigest digest_digits) found.files.archives) }
        ensures fine { (moment : ℤ) → let q = question_of self.now (F.tree files.old) moment in
            let told = answers_of (A.meaning answers.old) q in
            OnOk result (key_fault_with q told ≡ None) }
        ensures cause { (moment : ℤ) → let q = question_of self.now (F.tree files.old) moment in
            let told = answers_of (A.meaning answers.old) q in
            IfErr result (KeyCause (key_fault_with q told)
            (FilesFail F.Files files.old files.new)
            (ToolFails A.Preprocessor answers.old answers.new)) }
        ensures untouched { Untouched A.Preprocessor F.Files
            answers.old files.old answers.new files.new result }
        ensures runs { OnOk result
            (A.preprocessed answers.new ≡ ticked (ticked (A.preprocessed answers.old))) }
        ensures twice { AtMostTwice (A.preprocessed answers.old) (A.preprocessed answers.new) }
        ensures early { (moment : ℤ) → let q = question_of self.now (F.tree files.old) moment in
            let made = dep_info_of (A.meaning answers.old) q in
            (dep_info_fault_of q made ≡ None → ⊥)
            → AtMostOnce (A.preprocessed answers.old) (A.preprocessed answers.new) }
        ensures archives { OnOk result (A.archived answers.new
            ≡ ticked_for self.now.parsed.now.staticlibs (A.archived answers.old)) }
        ensures once_each { AtMostFor self.now.parsed.now.staticlibs
            (A.archived answers.old) (A.archived answers.new) }
        ensures compiles { A.compiled answers.new ≡ A.compiled answers.old }
    {
        let sources = self.dep_info::<H, F, A>(alloc, files, answers)?;
        let names = self.file_names_text(alloc, files, answers)?;
        let files = self.other_files::<H, F, A>(alloc, files, answers)?;
        Ok(Collected {
            sources,
            names,
            files,
        })
    }
}
