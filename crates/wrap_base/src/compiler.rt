//! The compiler of a request, whichever it is.

ghost use Rattle.std.specs.Prelude.{◌≡◌, IfOk, string_bytes};
ghost use Rattle.wrap_base.specs.Commands.{c_described, c_of, digest_of, executable_of, kind_of, named_by, named_in, traits_of};

use base_files::OsBytes;
use ckeys::{CCompiler, CCompilerHasher};
use cmdlines::{AnyFoundCompiler, Clang, Diab, FoundCompiler, Gcc, HasKind, Msvc, TaskingVX};
use cmdlines_tables::{CCompilerKind, ParsedArguments};
use rustc_compiler::Rust;
use std::alloc::{AllocError, Global};

/// Which compiler is asked.
#[derive(Debug, Drop)]
pub enum Compiler {
    Gcc(CCompiler<Gcc>),
    Clang(CCompiler<Clang>),
    Diab(CCompiler<Diab>),
    Msvc(CCompiler<Msvc>),
    TaskingVX(CCompiler<TaskingVX>),
    Rust(Rust),
}

/// A C compiler that a request names, lent: of whichever kind, and how it is known.
#[derive(Clone, Copy)]
pub struct AnyC<'a> {
    pub found: &'a AnyFoundCompiler,
    pub executable: &'a OsBytes,
    /// The digest that represents it in keys.
    pub executable_digest: &'a str,
}

/// The compiler of a request by its family, lent.
#[derive(Clone, Copy)]
pub enum Named<'a> {
    C(AnyC<'a>),
    Rustc(&'a Rust),
}

/// The parts of a C compiler of a known kind, with that as a value.
fn lent<K: HasKind>(compiler: &CCompiler<FoundCompiler<K>>) -> AnyC<'_>
    ensures kind { kind_of result ≡ K.kind }
    ensures traits { traits_of result ≡ compiler.now.compiler }
    ensures executable { executable_of result ≡ compiler.now.executable }
    ensures digest { digest_of result ≡ string_bytes compiler.now.executable_digest }
{
    AnyC {
        found: compiler.compiler.found(),
        executable: &compiler.executable,
        executable_digest: compiler.executable_digest.as_str(),
    }
}

/// What is known of a C compiler beside its kind.
#[derive(Drop)]
pub struct CDescription {
    pub plusplus: bool,
    pub version: Option<String>,
    pub assembler_digest: Option<String>,
    pub executable: OsBytes,
    pub executable_digest: String,
}

impl CDescription {
    /// The compiler of a kind that is known here.
    fn found<K: HasKind>(self, alloc: Global) -> Result<CCompiler<FoundCompiler<K>>, AllocError>
        ensures { IfOk result (λ made. c_of K.kind made ≡ c_described K.kind self) }
    {
        let CDescription {
            plusplus,
            version,
            assembler_digest,
            executable,
            executable_digest,
        } = self;
        let compiler = FoundCompiler::new(alloc, plusplus, version, assembler_digest)?;
        Ok(CCompiler::with_digest(compiler, executable, executable_digest))
    }
}

impl Compiler {
    /// The C compiler of that kind of which this is known.
    pub fn of_kind(
        alloc: Global,
        kind: CCompilerKind,
        described: CDescription,
    ) -> Result<Compiler, AllocError>
        ensures { IfOk result (λ made. named_by made ≡ c_described kind described) }
    {
        match kind {
            CCompilerKind::Gcc => Ok(Compiler::Gcc(described.found(alloc)?)),
            CCompilerKind::Clang => Ok(Compiler::Clang(described.found(alloc)?)),
            CCompilerKind::Diab => Ok(Compiler::Diab(described.found(alloc)?)),
            CCompilerKind::Msvc => Ok(Compiler::Msvc(described.found(alloc)?)),
            CCompilerKind::TaskingVX => Ok(Compiler::TaskingVX(described.found(alloc)?)),
        }
    }

    /// The compiler by its family.
    pub fn named(&self) -> Named<'_>
        ensures { named_in result ≡ named_by self.now }
    {
        match self {
            Compiler::Gcc(found) => Named::C(lent(found)),
            Compiler::Clang(found) => Named::C(lent(found)),
            Compiler::Diab(found) => Named::C(lent(found)),
            Compiler::Msvc(found) => Named::C(lent(found)),
            Compiler::TaskingVX(found) => Named::C(lent(found)),
            Compiler::Rust(rust) => Named::Rustc(rust),
        }
    }
}

impl<'c> AnyC<'c> {
    /// What makes the keys of requests to it that ask for this. It takes no memory.
    pub fn hasher<'a>(
        &'a self,
        parsed: &'a ParsedArguments,
    ) -> CCompilerHasher<'a, AnyFoundCompiler>
        ensures compiler { result.compiler.now ≡ self.now.found.now }
        ensures executable { result.executable.now ≡ executable_of self.now }
        ensures digest { result.executable_digest.now ≡ digest_of self.now }
        ensures parsed { result.parsed.now ≡ parsed.now }
    {
        CCompilerHasher {
            compiler: self.found,
            executable: self.executable,
            executable_digest: self.executable_digest,
            parsed,
        }
    }
}
