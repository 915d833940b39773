//! What the words of entries come to, by the public parse of each compiler.

ghost use Rattle.std.specs.Prelude.{◌≡◌, IfOk};
ghost use Rattle.cmdlines.specs.Commands.{HasObjectIn};
ghost use Rattle.cmdlines.specs.Opening.{opened_words};
ghost use Rattle.cmdlines.specs.Parsing.{decision_of, parse_of};
ghost use Rattle.sccache_recorded_builds.specs.Outcomes.{outcome_in, outcome_of};

use crate::entry::Entry;
use crate::executables::EntryCompiler;
use base_files::{Files, OsBytes};
use cmdlines::{AnyFoundCompiler, EachKind};
use cmdlines_base::CompilerArguments;
use cmdlines_response_files::ParseFault;
use cmdlines_tables::{CCompilerKind, ParsedArguments};
use rustc_options::parsed as rust;
use rustkeys_base::parse;
use std::alloc::{AllocError, Global};

/// What the words of an entry come to.
#[derive(Drop)]
pub enum Decided {
    /// By a C compiler of this kind.
    C(CCompilerKind, CompilerArguments<ParsedArguments>),
    Rustc(CompilerArguments<rust::ParsedArguments>),
    /// The executable is none that is known.
    Unknown,
}

/// The C compilers, of which nothing more is known.
#[derive(Drop)]
pub struct Compilers {
    each: EachKind,
}

impl Compilers {
    /// Makes the tables of all of them.
    pub fn new(alloc: Global) -> Result<Compilers, AllocError> {
        let each = EachKind::new(alloc)?;
        Ok(Compilers { each })
    }

    /// The one of that kind.
    pub fn of(&self, kind: CCompilerKind) -> &AnyFoundCompiler
        ensures { result.now.kind ≡ kind }
    {
        self.each.of(kind)
    }

    /// What words come to by a compiler of that kind.
    pub(crate) fn parse<F: Files>(
        &self,
        alloc: Global,
        kind: CCompilerKind,
        words: &[OsBytes],
        dir: &OsBytes,
        files: &mut F,
    ) -> Result<CompilerArguments<ParsedArguments>, ParseFault>
        ensures decision { IfOk result
            (λ answer. decision_of answer
            ≡ parse_of kind (opened_words kind dir.now (F.tree files.old) words.now)) }
        ensures object { IfOk result (λ answer. HasObjectIn (decision_of answer)) }
        ensures tree { F.tree files.new ≡ F.tree files.old }
    {
        self.of(kind).parse_arguments(alloc, words, dir, files)
    }

    /// What the words of an entry come to.
    pub fn decide<F: Files>(
        &self,
        alloc: Global,
        entry: &Entry,
        files: &mut F,
    ) -> Result<Decided, ParseFault>
        ensures outcome { IfOk result
            (λ decided. outcome_in decided ≡ outcome_of (F.tree files.old) entry.now) }
        ensures tree { F.tree files.new ≡ F.tree files.old }
    {
        let words = entry.words.as_slice();
        match entry.compiler {
            None => Ok(Decided::Unknown),
            Some(EntryCompiler::C(kind)) => {
                let answer = self.parse(alloc, kind, words, &entry.dir, files)?;
                Ok(Decided::C(kind, answer))
            }
            Some(EntryCompiler::Rustc) => {
                let answer = parse::parse_arguments(alloc, words, &entry.dir, files)?;
                Ok(Decided::Rustc(answer))
            }
        }
    }
}
