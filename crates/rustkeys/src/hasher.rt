//! The key of a request to rustc, on the files that are there when it is asked.

ghost use Rattle.std.specs.Prelude.{◌≡◌, ℤ, None, is_some, string_bytes, IfOk, IfErr, OnOk, OnErr};
ghost use Rattle.std.specs.List.{AllByRecursion};
ghost use Rattle.std.specs.Str.Lossy.{utf8_lossy};
ghost use Rattle.base_files.specs.Bytes.{ticked};
ghost use Rattle.base_files.specs.Views.{FilesFail};
ghost use Rattle.ckeys_records.specs.Faults.{KeyCause};
ghost use Rattle.ckeys_records.specs.Meaning.{AtMostOnce};
ghost use Rattle.ckeys_records.specs.Views.{ToolFails};
ghost use Rattle.ckeys_records.specs.Untouched.{Untouched};
ghost use Rattle.cmdlines_tables.specs.Small.{command_at};
ghost use Rattle.rustc_parts.specs.Formed.{IsDigest, digest_digits};
ghost use Rattle.rustc_texts.specs.Words.{compile_words};
ghost use Rattle.rustc_options.specs.Asks.{asks_in};
ghost use Rattle.rustkeys.specs.Calls.{dep_info_fault_of, key_fault_of, record_of};
ghost use Rattle.rustkeys.specs.Fresh.{ComesOfWords, call_outputs, dep_info_text_of, emits_dep_info};
ghost use Rattle.rustkeys.specs.Hashers.{call_of, known_in, known_of};
ghost use Rattle.rustkeys.specs.Questions.{compile_env_of, dep_info_of, question_of};
ghost use Rattle.rustkeys.specs.Records.{IsTold, key_of, parts_of, record_shape};
ghost use Rattle.rustkeys.specs.Runs.{AtMostFor, AtMostTwice, ticked_for};

use crate::compilation::RustCompilation;
use crate::finishing::keyed_compilation;
use crate::place::{KnownRust, RustPlace};
use base_files::{Files, Lossy, OsBytes};
use ckeys_base::HashState;
use ckeys_records::{Fault, RustcAnswers};
use cmdlines_base::ColorMode;
use cmdlines_tables::language::Language;
use rustc_compiler::Rust;
use rustc_options::parsed::ParsedArguments;
use rustc_options::words_in_order_are_a_set;
use rustc_parts::parts::RShape;
use std::alloc::{AllocError, Global};

/// What a request asks for, and of which rustc.
#[derive(Clone, Debug, Drop, PartialEq, Eq)]
pub struct RustHasher<'a> {
    pub compiler: &'a Rust,
    pub parsed: &'a ParsedArguments,
}

/// What counts of a compiler, whose toolchain's digests have the form that they have in keys.
fn known(rust: &Rust) -> KnownRust<'_>
    ensures known { known_in result ≡ known_of rust.now }
    ensures formed { AllByRecursion (IsDigest digest_digits) rust.now.toolchain }
{
    KnownRust {
        toolchain: rust.toolchain_digests(),
        version: rust.version(),
        archive: rust.archive(),
    }
}

impl<'a> RustHasher<'a> {
    /// Whether messages are coloured.
    pub fn color_mode(&self) -> ColorMode
        ensures { result ≡ self.now.parsed.now.color_mode }
    {
        self.parsed.color_mode
    }

    /// The crate's name, for printing: U+FFFD replaces what isn't UTF-8.
    pub fn output_pretty(&self, alloc: Global) -> Result<String, AllocError>
        ensures { IfOk result
            (λ name. string_bytes name ≡ utf8_lossy self.now.parsed.now.crate_name) }
    {
        let bytes = self.parsed.crate_name.as_bytes();
        Lossy { bytes }.text(alloc)
    }

    /// The language.
    pub fn language(&self) -> Language
        ensures { result ≡ Language.Rust }
    {
        Language::Rust
    }

    /// Where the request is asked.
    fn place<'b>(&'b self, dir: &'b OsBytes, env: &'b [(OsBytes, OsBytes)]) -> RustPlace<'b>
        ensures executable { result.executable.now ≡ self.now.compiler.now.executable }
        ensures parsed { result.parsed.now ≡ self.now.parsed.now }
        ensures dir { result.dir.now ≡ dir.entry.now }
        ensures env { result.env.now ≡ env.entry.now }
    {
        RustPlace {
            executable: self.compiler.executable(),
            parsed: self.parsed,
            dir,
            env,
        }
    }

    /// The key of this request in that directory, under these variables, on these files: the compile that it represents, the digest
    /// of its record's material as text, its shape, and the text on dependencies for its own targets, where that is asked for.
    ///
    /// Refused, by the first that comes in this order: with `PreprocessFailed` where rustc ends with another status than 0, asked
    /// for dependencies, with `AnswerNotUtf8`, with `NoRule`, with `Read` of a source that isn't there; the same of the names of
    /// outputs; with `Read` of a crate that is named, with `BadDigest` of a static library, with `Read` of the target's file,
    /// then of the profile. `Read` and `Tool` also report an I/O error.
    pub fn generate_hash_key<H: HashState, F: Files, A: RustcAnswers>(
        &self,
        alloc: Global,
        dir: &OsBytes,
        env: &[(OsBytes, OsBytes)],
        files: &mut F,
        answers: &mut A,
    ) -> Result<(RustCompilation, String, RShape, Option<OsBytes>), Fault>
        ensures key { (moment : ℤ)
            → let c = call_of self.now dir.now env.now (F.tree files.old) moment in
            let r = record_of (A.meaning answers.old) c in
            IfOk result (λ made. string_bytes made.1 ≡ key_of H.digest_of r) }
        ensures shape { (moment : ℤ)
            → let c = call_of self.now dir.now env.now (F.tree files.old) moment in
            let r = record_of (A.meaning answers.old) c in
            IfOk result (λ made. made.2 ≡ record_shape H.digest_of r) }
        ensures parts { (moment : ℤ)
            → let c = call_of self.now dir.now env.now (F.tree files.old) moment in
            let r = record_of (A.meaning answers.old) c in
            IfOk result (λ made. made.0.parts ≡ parts_of H.digest_of r) }
        ensures outputs { (moment : ℤ)
            → let c = call_of self.now dir.now env.now (F.tree files.old) moment in
            IfOk result (λ made. made.0.outputs ≡ call_outputs (A.meaning answers.old) c) }
        ensures command { let words = compile_words (asks_in self.now.parsed.now) in
            let executable = self.now.compiler.now.executable in
            IfOk result (λ made. made.0.command
            ≡ command_at executable words (compile_env_of env.now) dir.now) }
        ensures dep_info { (moment : ℤ)
            → let c = call_of self.now dir.now env.now (F.tree files.old) moment in
            IfOk result (λ made. made.3 ≡ dep_info_text_of (A.meaning answers.old) c) }
        // A call without a fault has a rule, so that text is there exactly where it's asked for: for a request of words, where they emit it.
        ensures asked { IfOk result
            (λ made. is_some made.3 ≡ is_some self.now.parsed.now.dep_info) }
        ensures emitted { let asks = asks_in self.now.parsed.now in ComesOfWords asks
            → IfOk result (λ made. is_some made.3 ≡ emits_dep_info asks) }
        // Its digests are digits, and what is hashed can be counted, which the law on keys and records asks for.
        ensures told { (moment : ℤ)
            → let c = call_of self.now dir.now env.now (F.tree files.old) moment in
            let r = record_of (A.meaning answers.old) c in
            OnOk result (IsTold H.digest_of r) }
        ensures fine { (moment : ℤ)
            → let c = call_of self.now dir.now env.now (F.tree files.old) moment in
            OnOk result (key_fault_of (A.meaning answers.old) c ≡ None) }
        ensures cause { (moment : ℤ)
            → let c = call_of self.now dir.now env.now (F.tree files.old) moment in
            IfErr result (KeyCause (key_fault_of (A.meaning answers.old) c)
            (FilesFail F.Files files.old files.new)
            (ToolFails A.Preprocessor answers.old answers.new)) }
        ensures untouched { Untouched A.Preprocessor F.Files
            answers.old files.old answers.new files.new result }
        ensures runs { OnOk result
            (A.preprocessed answers.new ≡ ticked (ticked (A.preprocessed answers.old))) }
        // How often rustc was asked before a fault.
        ensures until { OnErr result
            (AtMostTwice (A.preprocessed answers.old) (A.preprocessed answers.new)) }
        // Where what it reports of dependencies is at fault, or a source, it isn't asked for names.
        ensures early { (moment : ℤ)
            → let q = (call_of self.now dir.now env.now (F.tree files.old) moment).question in
            let made = dep_info_of (A.meaning answers.old) q in
            (dep_info_fault_of q made ≡ None → ⊥)
            → AtMostOnce (A.preprocessed answers.old) (A.preprocessed answers.new) }
        // The digest of each static library is asked for once, and before a fault once at most.
        ensures archives { OnOk result (A.archived answers.new
            ≡ ticked_for self.now.parsed.now.staticlibs (A.archived answers.old)) }
        ensures once_each { AtMostFor self.now.parsed.now.staticlibs
            (A.archived answers.old) (A.archived answers.new) }
        ensures compiles { A.compiled answers.new ≡ A.compiled answers.old }
    {
        // A law, which costs nothing: what follows from it is said above.
        words_in_order_are_a_set();
        let known = known(self.compiler);
        let place = self.place(dir, env);
        let found = place.collect::<H, F, A>(alloc, files, answers)?;
        Ok(keyed_compilation::<H>(alloc, &known, &place, found)?)
    }
}
