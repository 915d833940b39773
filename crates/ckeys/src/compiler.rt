//! A C compiler that is found: how it works, where it is, and its digest.

ghost use Rattle.std.specs.Prelude.{◌≡◌, Some, IfOk, IfErr, IsErrOf, string_bytes};
ghost use Rattle.std.specs.Option.{option_map};
ghost use Rattle.base_files.specs.Bytes.{Bytes};
ghost use Rattle.base_files.specs.Tree.{contents_at};
ghost use Rattle.base_files.specs.Views.{FilesFail};
ghost use Rattle.cmdlines.specs.Compilers.{text_in};
ghost use Rattle.ckeys.specs.Compilers.{compiler_digest_of, ExecutableCause, with_version};

use crate::compiler_impl::CCompilerImpl;
use crate::hasher::CCompilerHasher;
use base_files::{FileFail, Files, OsBytes};
use ckeys_base::{Digest, HashState};
use ckeys_records::Fault;
use cmdlines_tables::ParsedArguments;
use std::alloc::{AllocError, Global};

/// A C compiler, its executable and the digest that represents it in keys.
#[derive(Debug, Drop)]
pub struct CCompiler<I> {
    pub compiler: I,
    pub executable: OsBytes,
    pub executable_digest: String,
}

impl<I> CCompiler<I> {
    /// The compiler with a digest that is known.
    pub fn with_digest(compiler: I, executable: OsBytes, digest: String) -> CCompiler<I>
        ensures compiler { result.compiler ≡ compiler }
        ensures executable { result.executable ≡ executable }
        ensures digest { result.executable_digest ≡ digest }
    {
        CCompiler {
            compiler,
            executable,
            executable_digest: digest,
        }
    }

    /// What makes the keys of requests to it that ask for this. It takes no memory.
    pub fn hasher<'a>(&'a self, parsed: &'a ParsedArguments) -> CCompilerHasher<'a, I>
        ensures compiler { result.compiler.now ≡ self.now.compiler }
        ensures executable { result.executable.now ≡ self.now.executable }
        ensures digest { result.executable_digest.now ≡ string_bytes self.now.executable_digest }
        ensures parsed { result.parsed.now ≡ parsed.now }
    {
        CCompilerHasher {
            compiler: &self.compiler,
            executable: &self.executable,
            executable_digest: self.executable_digest.as_str(),
            parsed,
        }
    }
}

impl<I: CCompilerImpl + Drop> CCompiler<I> {
    /// The compiler with the digest of its executable, or, where its version is known, of that digest's text and the
    /// version after it.
    ///
    /// `Read` names the executable, where it isn't there or an I/O error occurred on it.
    pub fn new<H: HashState, F: Files>(
        alloc: Global,
        compiler: I,
        executable: OsBytes,
        files: &mut F,
    ) -> Result<CCompiler<I>, Fault>
        ensures compiler { IfOk result (λ made. made.compiler ≡ compiler) }
        ensures executable { IfOk result (λ made. made.executable ≡ executable) }
        ensures digest { IfOk result
            (λ made. Some (string_bytes made.executable_digest)
            ≡ option_map (compiler_digest_of H.digest_of (I.traits compiler).version)
            (contents_at (F.tree files.old) executable)) }
        ensures cause { IfErr result
            (ExecutableCause (F.tree files.old) executable
            (FilesFail F.Files files.old files.new)) }
        ensures tree { F.tree files.new ≡ F.tree files.old }
        ensures steady { (IsErrOf result (Fault.Read executable) → ⊥)
            → F.failed files.new ≡ F.failed files.old }
    {
        match Digest::<H>::file(alloc, &executable, files) {
            Ok(Some(digest)) => {
                let digest = with_version::<H>(alloc, digest, compiler.version())?;
                Ok(CCompiler::with_digest(compiler, executable, digest))
            }
            Ok(None) | Err(FileFail::Device) => Err(Fault::Read(executable)),
            Err(FileFail::Memory) => Err(Fault::Memory),
        }
    }
}

/// The digest of this text followed by the version; the text alone, where no version is known.
fn with_version<H: HashState>(
    alloc: Global,
    text: String,
    version: Option<&str>,
) -> Result<String, AllocError>
    ensures { IfOk result
        (λ digest. string_bytes digest
        ≡ with_version H.digest_of (option_map text_in version.entry) (string_bytes text)) }
{
    let Some(version) = version else {
        return Ok(text);
    };
    let mut digest: Digest<H> = Digest::new();
    digest.update(text.as_bytes());
    digest.update(version.as_bytes());
    digest.finish(alloc)
}
