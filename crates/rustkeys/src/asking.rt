//! What rustc is asked before a request has its key, a step at a time.

ghost use Rattle.std.specs.Prelude.{◌≡◌, ℤ, [], ◌∷◌, Some, None, true, map, string_bytes, IfOk, IfErr, OnOk, IsErrOf};
ghost use Rattle.base_files.specs.Bytes.{ticked};
ghost use Rattle.ckeys_records.specs.Faults.{KeyCause};
ghost use Rattle.ckeys_records.specs.Meaning.{text_in};
ghost use Rattle.ckeys_records.specs.Causes.{no_file, no_step};
ghost use Rattle.ckeys_records.specs.Meaning.{AtMostOnce};
ghost use Rattle.ckeys_records.specs.Meaning.{made_of};
ghost use Rattle.ckeys_records.specs.Views.{ToolFails};
ghost use Rattle.ckeys_records.specs.Untouched.{Untouched};
ghost use Rattle.rustkeys.specs.Calls.{answer_fault_of, utf8_fault_of};
ghost use Rattle.rustkeys.specs.Questions.{dep_info_of, file_names_of, question_of};

use crate::place::RustPlace;
use base_files::{Files, OsBytes};
use ckeys_records::{Fault, Printed, RustcAnswers, Step, ToolFail};
use cmdlines_tables::command_at;
use rustc_texts::{dep_info_words, file_names_words};
use std::alloc::Global;

/// The text of an answer, which is UTF-8.
#[tactic(auto, using(crate::proofs::TextLemmas::utf8_fine, crate::proofs::TextLemmas::utf8_fault))]
fn utf8_text(bytes: OsBytes, step: Step) -> Result<String, Fault>
    ensures text { IfOk result (λ text. string_bytes text ≡ bytes) }
    ensures fine { OnOk result (utf8_fault_of step bytes ≡ None) }
    ensures cause { IfErr result (KeyCause (utf8_fault_of step bytes) no_file no_step) }
    ensures memory { IsErrOf result Fault.Memory → ⊥ }
{
    match String::from_utf8(bytes.into_vec()) {
        Ok(text) => Ok(text),
        Err(_) => Err(Fault::AnswerNotUtf8(step)),
    }
}

/// The text of an answer, whose status is 0 and which is UTF-8.
fn answered_text(printed: Printed, step: Step) -> Result<String, Fault>
    ensures text { IfOk result (λ text. string_bytes text ≡ printed.text) }
    ensures fine { let made = made_of printed.status (Some printed.text ∷ []) in
        OnOk result (answer_fault_of step made ≡ None) }
    ensures cause { let made = made_of printed.status (Some printed.text ∷ []) in
        IfErr result (KeyCause (answer_fault_of step made) no_file no_step) }
    ensures memory { IsErrOf result Fault.Memory → ⊥ }
{
    if printed.status != 0 {
        return Err(Fault::PreprocessFailed(printed.status));
    }
    utf8_text(printed.text, step)
}

impl<'a> RustPlace<'a> {
    /// Asks rustc what the crate depends on.
    fn ask_dep_info<F: Files, A: RustcAnswers>(
        &self,
        alloc: Global,
        files: &mut F,
        answers: &mut A,
    ) -> Result<Printed, Fault>
        ensures answer { (moment : ℤ) → let q = question_of self.now (F.tree files.old) moment in
            IfOk result (λ p. made_of p.status (Some p.text ∷ [])
            ≡ dep_info_of (A.meaning answers.old) q) }
        ensures cause { IfErr result
            (KeyCause None no_file (ToolFails A.Preprocessor answers.old answers.new)) }
        ensures untouched { Untouched A.Preprocessor F.Files
            answers.old files.old answers.new files.new result }
        ensures runs { OnOk result (A.preprocessed answers.new ≡ ticked (A.preprocessed answers.old)) }
        ensures once { AtMostOnce (A.preprocessed answers.old) (A.preprocessed answers.new) }
        ensures archives { A.archived answers.new ≡ A.archived answers.old }
        ensures compiles { A.compiled answers.new ≡ A.compiled answers.old }
    {
        let words = dep_info_words(alloc, self.parsed)?;
        let command = command_at(alloc, self.executable, words, self.env, self.dir)?;
        let printed = answers.dep_info(alloc, &command, files);
        drop(command);
        match printed {
            Ok(printed) => Ok(printed),
            Err(ToolFail::Memory) => Err(Fault::Memory),
            Err(ToolFail::Device) => Err(Fault::Tool(Step::DepInfo)),
        }
    }

    /// Asks rustc for the names of what it writes.
    fn ask_file_names<F: Files, A: RustcAnswers>(
        &self,
        alloc: Global,
        files: &mut F,
        answers: &mut A,
    ) -> Result<Printed, Fault>
        ensures answer { (moment : ℤ) → let q = question_of self.now (F.tree files.old) moment in
            IfOk result (λ p. made_of p.status (Some p.text ∷ [])
            ≡ file_names_of (A.meaning answers.old) q) }
        ensures cause { IfErr result
            (KeyCause None no_file (ToolFails A.Preprocessor answers.old answers.new)) }
        ensures untouched { Untouched A.Preprocessor F.Files
            answers.old files.old answers.new files.new result }
        ensures runs { OnOk result (A.preprocessed answers.new ≡ ticked (A.preprocessed answers.old)) }
        ensures once { AtMostOnce (A.preprocessed answers.old) (A.preprocessed answers.new) }
        ensures archives { A.archived answers.new ≡ A.archived answers.old }
        ensures compiles { A.compiled answers.new ≡ A.compiled answers.old }
    {
        let words = file_names_words(alloc, self.parsed)?;
        let command = command_at(alloc, self.executable, words, self.env, self.dir)?;
        let printed = answers.file_names(alloc, &command, files);
        drop(command);
        match printed {
            Ok(printed) => Ok(printed),
            Err(ToolFail::Memory) => Err(Fault::Memory),
            Err(ToolFail::Device) => Err(Fault::Tool(Step::FileNames)),
        }
    }

    /// The text in which rustc reports what the crate depends on.
    pub(crate) fn dep_info_text<F: Files, A: RustcAnswers>(
        &self,
        alloc: Global,
        files: &mut F,
        answers: &mut A,
    ) -> Result<String, Fault>
        ensures text { (moment : ℤ) → let q = question_of self.now (F.tree files.old) moment in
            let made = dep_info_of (A.meaning answers.old) q in
            IfOk result (λ text. string_bytes text ≡ text_in made.contents) }
        ensures fine { (moment : ℤ) → let q = question_of self.now (F.tree files.old) moment in
            let made = dep_info_of (A.meaning answers.old) q in
            OnOk result (answer_fault_of Step.DepInfo made ≡ None) }
        ensures cause { (moment : ℤ) → let q = question_of self.now (F.tree files.old) moment in
            let made = dep_info_of (A.meaning answers.old) q in
            IfErr result (KeyCause (answer_fault_of Step.DepInfo made) no_file
            (ToolFails A.Preprocessor answers.old answers.new)) }
        ensures untouched { Untouched A.Preprocessor F.Files
            answers.old files.old answers.new files.new result }
        ensures runs { OnOk result (A.preprocessed answers.new ≡ ticked (A.preprocessed answers.old)) }
        ensures once { AtMostOnce (A.preprocessed answers.old) (A.preprocessed answers.new) }
        ensures archives { A.archived answers.new ≡ A.archived answers.old }
        ensures compiles { A.compiled answers.new ≡ A.compiled answers.old }
    {
        let printed = self.ask_dep_info(alloc, files, answers)?;
        answered_text(printed, Step::DepInfo)
    }

    /// The text in which rustc reports the names of what it writes.
    pub(crate) fn file_names_text<F: Files, A: RustcAnswers>(
        &self,
        alloc: Global,
        files: &mut F,
        answers: &mut A,
    ) -> Result<String, Fault>
        ensures text { (moment : ℤ) → let q = question_of self.now (F.tree files.old) moment in
            let made = file_names_of (A.meaning answers.old) q in
            IfOk result (λ text. string_bytes text ≡ text_in made.contents) }
        ensures fine { (moment : ℤ) → let q = question_of self.now (F.tree files.old) moment in
            let made = file_names_of (A.meaning answers.old) q in
            OnOk result (answer_fault_of Step.FileNames made ≡ None) }
        ensures cause { (moment : ℤ) → let q = question_of self.now (F.tree files.old) moment in
            let made = file_names_of (A.meaning answers.old) q in
            IfErr result (KeyCause (answer_fault_of Step.FileNames made) no_file
            (ToolFails A.Preprocessor answers.old answers.new)) }
        ensures untouched { Untouched A.Preprocessor F.Files
            answers.old files.old answers.new files.new result }
        ensures runs { OnOk result (A.preprocessed answers.new ≡ ticked (A.preprocessed answers.old)) }
        ensures once { AtMostOnce (A.preprocessed answers.old) (A.preprocessed answers.new) }
        ensures archives { A.archived answers.new ≡ A.archived answers.old }
        ensures compiles { A.compiled answers.new ≡ A.compiled answers.old }
    {
        let printed = self.ask_file_names(alloc, files, answers)?;
        answered_text(printed, Step::FileNames)
    }
}
