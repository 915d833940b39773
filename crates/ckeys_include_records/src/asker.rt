//! Who asks for a compile, and the digest of that.

ghost use Rattle.std.specs.Prelude.{◌≡◌, IfOk, OnOk, string_bytes};
ghost use Rattle.ckeys_base.specs.Hex.{hex_of};
ghost use Rattle.cmdlines_tables.specs.CompilerFacts.{kind_name};
ghost use Rattle.ckeys_include_records.specs.Identity.{IdentityFits, identity_material, identity_of};
ghost use Rattle.ckeys_include_records.specs.Framing.{flag};

use crate::framed_digest::FramedDigest;
use crate::framing::{framed_option, framed_outputs, framed_pairs, framed_words};
use base_files::OsBytes;
use ckeys_base::HashState;
use cmdlines_tables::{CCompilerKind, ParsedArguments};
use std::alloc::{AllocError, Global};

/// Who asks: the compiler as it was found, where it runs, and what its request says.
#[derive(Clone, Copy)]
pub struct Asker<'a> {
    pub kind: CCompilerKind,
    pub executable: &'a OsBytes,
    pub plusplus: bool,
    pub version: Option<&'a str>,
    /// The digest that represents the compiler.
    pub compiler_digest: &'a str,
    pub assembler_digest: Option<&'a str>,
    pub dir: &'a OsBytes,
    /// All variables, in order.
    pub env: &'a [(OsBytes, OsBytes)],
    pub parsed: &'a ParsedArguments,
}

/// The name of a compiler's kind.
fn kind_name(kind: CCompilerKind) -> &'static [u8]
    ensures { result.now ≡ kind_name kind }
{
    kind.name().as_bytes()
}

/// The byte 1 for yes, and 0 for no.
pub(crate) fn flag(is_so: bool) -> &'static [u8]
    ensures { result.now ≡ flag is_so }
{
    if is_so { b"\x01" } else { b"\0" }
}

impl<'a> Asker<'a> {
    /// The identity: the digest, as text, of who asks. Whatever the request says is in it, but for whether outputs
    /// may be left out, and but for what follows from the words.
    pub fn identity<H: HashState>(&self, alloc: Global) -> Result<String, AllocError>
        ensures digest { let material = identity_material (identity_of self.now) in
            IfOk result (λ text. string_bytes text ≡ hex_of (H.digest_of material)) }
        ensures fits { OnOk result (IdentityFits (identity_of self.now)) }
    {
        let parsed = self.parsed;
        let version = framed_option(alloc, self.version)?;
        let assembler_digest = framed_option(alloc, self.assembler_digest)?;
        let env = framed_pairs(alloc, self.env)?;
        let outputs = framed_outputs(alloc, parsed.outputs.as_slice())?;
        let preprocessor_args = framed_words(alloc, parsed.preprocessor_args.as_slice())?;
        let dependency_args = framed_words(alloc, parsed.dependency_args.as_slice())?;
        let unhashed_args = framed_words(alloc, parsed.unhashed_args.as_slice())?;
        let common_args = framed_words(alloc, parsed.common_args.as_slice())?;
        let arch_args = framed_words(alloc, parsed.arch_args.as_slice())?;
        let extra_hash_files = framed_words(alloc, parsed.extra_hash_files.as_slice())?;
        let mut digest: FramedDigest<H> = FramedDigest::new();
        digest.put(kind_name(self.kind));
        digest.put(self.executable.as_bytes());
        digest.put(flag(self.plusplus));
        digest.put(version.as_slice());
        digest.put(self.compiler_digest.as_bytes());
        digest.put(assembler_digest.as_slice());
        digest.put(self.dir.as_bytes());
        digest.put(env.as_slice());
        digest.put(parsed.input.as_bytes());
        digest.put(flag(parsed.double_dash_input));
        digest.put(parsed.language.as_str().as_bytes());
        digest.put(outputs.as_slice());
        digest.put(preprocessor_args.as_slice());
        digest.put(dependency_args.as_slice());
        digest.put(unhashed_args.as_slice());
        digest.put(common_args.as_slice());
        digest.put(arch_args.as_slice());
        digest.put(extra_hash_files.as_slice());
        digest.finish(alloc)
    }
}
