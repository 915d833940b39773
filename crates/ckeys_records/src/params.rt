//! What is hashed of a C request: the parts as they are handed in, without the folders that don't count.

ghost use Rattle.std.specs.Prelude.{◌≡◌, ◌<◌, ◌^◌, [], ◌∷◌, map, filter, length, string_bytes, IfOk, OnOk};
ghost use Rattle.std.specs.List.{AllByRecursion};
ghost use Rattle.std.specs.Option.{option_map};
ghost use Rattle.base_files.specs.Bytes.{Bytes};
ghost use Rattle.ckeys_base.specs.FolderPlaces.{text_places};
ghost use Rattle.ckeys_base.specs.FromTheLeft.{stripped_of};
ghost use Rattle.ckeys_base.specs.Hex.{hex_of};
ghost use Rattle.ckeys_records.specs.Material.{material_of, shape_of, framed, variable_bytes, variables_bytes, joined, words_bytes};
ghost use Rattle.ckeys_records.specs.Records.{FitsLength};
ghost use Rattle.ckeys_records.specs.Params.{handed_alone, handed_of, parts_handed, is_cached, stripped_words, IsFed};

use crate::shape::CShape;
use base_files::{Listed, OsBytes};
use ckeys_base::{Digest, HashState, kept_slices, strip_basedirs_from_arg};
use cmdlines_tables::language::Language;
use std::alloc::{AllocError, Global};

/// The version of the layout of what is hashed.
pub const CACHE_VERSION: &[u8; 2] = b"11";

/// The parts of a key: the compiler's digest, the language, the hashed words and the text; and, where they are handed in,
/// words that name architectures, digests of extra files, the environment, whether the compiler compiles C++, the folders that don't count, and the
/// digest of the assembler.
#[derive(Drop)]
pub struct HashKeyParams<'a> {
    compiler_digest: &'a str,
    language: Language,
    arguments: &'a [OsBytes],
    arch_args: &'a [OsBytes],
    preprocessor_output: &'a [u8],
    extra_hashes: &'a [String],
    env_vars: &'a [(OsBytes, OsBytes)],
    plusplus: bool,
    basedirs: &'a [OsBytes],
    assembler_digest: Option<&'a str>,
}

impl<'a> HashKeyParams<'a> {
    /// The key of these parts alone: no extra files, no variables, no C++, no folders, no assembler.
    pub fn new(
        compiler_digest: &'a str,
        language: Language,
        arguments: &'a [OsBytes],
        preprocessor_output: &'a [u8],
    ) -> HashKeyParams<'a>
        ensures { handed_of result
            ≡ handed_alone compiler_digest.now language arguments.now preprocessor_output.now }
    {
        HashKeyParams {
            compiler_digest,
            language,
            arguments,
            arch_args: &[],
            preprocessor_output,
            extra_hashes: &[],
            env_vars: &[],
            plusplus: false,
            basedirs: &[],
            assembler_digest: None,
        }
    }

    /// With words that name architectures, which are hashed after the others.
    pub fn with_arch_args(self, arch_args: &'a [OsBytes]) -> HashKeyParams<'a>
        ensures { handed_of result ≡ record (handed_of self.entry) { arch_args = arch_args.now } }
    {
        HashKeyParams { arch_args, ..self }
    }

    /// With the digests of extra files.
    pub fn with_extra_hashes(self, extra_hashes: &'a [String]) -> HashKeyParams<'a>
        ensures { handed_of result
            ≡ record (handed_of self.entry) { extra_hashes = map string_bytes extra_hashes.now } }
    {
        HashKeyParams {
            extra_hashes,
            ..self
        }
    }

    /// With the environment, of which the variables that count are hashed.
    pub fn with_env_vars(self, env_vars: &'a [(OsBytes, OsBytes)]) -> HashKeyParams<'a>
        ensures { handed_of result ≡ record (handed_of self.entry) { env_vars = env_vars.now } }
    {
        HashKeyParams { env_vars, ..self }
    }

    /// With whether the compiler compiles C++ by itself.
    pub fn with_plusplus(self, plusplus: bool) -> HashKeyParams<'a>
        ensures { handed_of result ≡ record (handed_of self.entry) { plusplus = plusplus } }
    {
        HashKeyParams { plusplus, ..self }
    }

    /// With the folders that don't count, in words and in the text.
    pub fn with_basedirs(self, basedirs: &'a [OsBytes]) -> HashKeyParams<'a>
        ensures { handed_of result ≡ record (handed_of self.entry) { basedirs = basedirs.now } }
    {
        HashKeyParams { basedirs, ..self }
    }

    /// With the digest of the assembler, or none.
    pub fn with_assembler_digest(self, assembler_digest: Option<&'a str>) -> HashKeyParams<'a>
        ensures { handed_of result
            ≡ record (handed_of self.entry)
            { assembler_digest = option_map (λ digest. digest.now) assembler_digest.entry } }
    {
        HashKeyParams {
            assembler_digest,
            ..self
        }
    }

    /// The key, which is the digest of what is hashed, as text; and what the hashed bytes don't determine.
    pub fn compute<H: HashState>(&self, alloc: Global) -> Result<(String, CShape), AllocError>
        ensures key { IfOk result
            (λ made. string_bytes made.0
            ≡ hex_of (H.digest_of (material_of (parts_handed (handed_of self.now))))) }
        ensures shape { IfOk result (λ made. made.1 ≡ shape_of (parts_handed (handed_of self.now))) }
        // The lengths of variables are written in 8 bytes each, and so can be read back.
        ensures fit { OnOk result
            (AllByRecursion FitsLength (parts_handed (handed_of self.now)).variables) }
    {
        let mut digest: Digest<H> = Digest::new();
        digest.update(self.compiler_digest.as_bytes());
        digest.update(&[u8::from(self.plusplus)]);
        digest.update(CACHE_VERSION);
        digest.update(self.language.as_str().as_bytes());
        self.hash_words(alloc, &mut digest)?;
        hash_texts(&mut digest, self.extra_hashes);
        digest.update(self.assembler_digest.unwrap_or("").as_bytes());
        hash_variables(&mut digest, self.env_vars);
        hash_text(&mut digest, self.preprocessor_output, self.basedirs);
        Ok((digest.finish(alloc)?, self.shape(alloc)?))
    }

    /// Feeds the words to a digest: the list, and then those that name architectures.
    fn hash_words<H: HashState>(
        &self,
        alloc: Global,
        digest: &mut Digest<H>,
    ) -> Result<(), AllocError>
        ensures { OnOk result
            (IsFed H.holds digest.old (words_bytes (parts_handed (handed_of self.now)).words)
            digest.new) }
    {
        hash_arguments(alloc, digest, self.arguments, self.basedirs)?;
        hash_arguments(alloc, digest, self.arch_args, self.basedirs)
    }

    /// What the hashed bytes don't determine.
    pub fn shape(&self, alloc: Global) -> Result<CShape, AllocError>
        ensures { IfOk result (λ shape. shape ≡ shape_of (parts_handed (handed_of self.now))) }
    {
        Ok(CShape {
            language: self.language,
            compiler_digest: self.compiler_digest.len(),
            words: self.arguments.len() + self.arch_args.len(),
            extra_hashes: lengths(alloc, self.extra_hashes)?,
            assembler_digest: self.assembler_digest.map(|digest| digest.len()),
            variables: cached_count(self.env_vars),
        })
    }
}

/// How long each of the texts is.
fn lengths(alloc: Global, texts: &[String]) -> Result<Listed<usize>, AllocError>
    ensures { IfOk result (λ lengths. lengths ≡ map length (map string_bytes texts.now)) }
{
    let mut lengths = Listed::new(alloc);
    for text in texts {
        lengths.push(text.len())?;
    }
    Ok(lengths)
}

/// Feeds words to a digest, each without the folders and with the byte 255 after it.
pub fn hash_arguments<H: HashState>(
    alloc: Global,
    digest: &mut Digest<H>,
    arguments: &[OsBytes],
    basedirs: &[OsBytes],
) -> Result<(), AllocError>
    ensures { OnOk result
        (IsFed H.holds digest.old (words_bytes (stripped_words basedirs.now arguments.now))
        digest.new) }
{
    let mut rest = arguments;
    while let Some((word, others)) = rest.split_first() {
        let stripped = strip_basedirs_from_arg(alloc, word.as_bytes(), basedirs)?;
        digest.update(stripped.as_slice());
        digest.update(&[255]);
        rest = others;
    }
    Ok(())
}

/// Feeds a text without the folders to a digest. It takes no memory, however long the text is.
fn hash_text<H: HashState>(digest: &mut Digest<H>, text: &[u8], basedirs: &[OsBytes])
    ensures { IsFed H.holds digest.old (stripped_of text_places basedirs.now text.now) digest.new }
{
    for slice in kept_slices(text, basedirs) {
        digest.update(slice);
    }
}

/// Feeds texts to a digest.
fn hash_texts<H: HashState>(digest: &mut Digest<H>, texts: &[String])
    ensures { IsFed H.holds digest.old (joined (map string_bytes texts.now)) digest.new }
{
    let mut rest = texts;
    while let Some((text, others)) = rest.split_first() {
        digest.update(text.as_bytes());
        rest = others;
    }
}

/// Whether a variable of this name counts.
pub fn is_cached(name: &[u8]) -> bool
    ensures { (value : Bytes) → result ≡ is_cached (name.now, value) }
{
    name == b"SCCACHE_C_CUSTOM_CACHE_BUSTER".as_slice()
        || name == b"MACOSX_DEPLOYMENT_TARGET".as_slice()
        || name == b"IPHONEOS_DEPLOYMENT_TARGET".as_slice()
}

/// Feeds bytes to a digest, after their length.
fn hash_framed<H: HashState>(digest: &mut Digest<H>, bytes: &[u8])
    ensures fed { IsFed H.holds digest.old (framed bytes.now) digest.new }
    ensures fits { length bytes.now < 2 ^ 64 }
{
    let length = bytes.len() as u64;
    digest.update(&length.to_le_bytes());
    digest.update(bytes);
}

/// Feeds a variable to a digest.
fn hash_variable<H: HashState>(digest: &mut Digest<H>, name: &[u8], value: &[u8])
    ensures fed { IsFed H.holds digest.old (variable_bytes (name.now, value.now)) digest.new }
    ensures fits { FitsLength (name.now, value.now) }
{
    hash_framed(digest, name);
    digest.update(b"=");
    hash_framed(digest, value);
}

/// Feeds the variables that count to a digest.
fn hash_variables<H: HashState>(digest: &mut Digest<H>, variables: &[(OsBytes, OsBytes)])
    ensures fed { IsFed H.holds digest.old (variables_bytes (filter is_cached variables.now))
        digest.new }
    ensures fit { AllByRecursion FitsLength (filter is_cached variables.now) }
{
    let mut rest = variables;
    while let Some((variable, others)) = rest.split_first() {
        hash_cached(digest, &variable.0, &variable.1);
        rest = others;
    }
}

/// Feeds a variable to a digest, where it counts.
fn hash_cached<H: HashState>(digest: &mut Digest<H>, name: &OsBytes, value: &OsBytes)
    ensures fed { IsFed H.holds digest.old
        (variables_bytes (filter is_cached ((name.now, value.now) ∷ []))) digest.new }
    ensures fit { AllByRecursion FitsLength (filter is_cached ((name.now, value.now) ∷ [])) }
{
    if is_cached(name.as_bytes()) {
        hash_variable(digest, name.as_bytes(), value.as_bytes());
    }
}

/// How many of the variables count.
fn cached_count(variables: &[(OsBytes, OsBytes)]) -> usize
    ensures { result ≡ length (filter is_cached variables.now) }
{
    let mut count = 0;
    let mut rest = variables;
    while let Some((variable, others)) = rest.split_first() {
        if is_cached(variable.0.as_bytes()) {
            count += 1;
        }
        rest = others;
    }
    count
}

/// Sees how long the variables that count are.
pub fn tell_lengths(variables: &[(OsBytes, OsBytes)])
    ensures fit { AllByRecursion FitsLength (filter is_cached variables.now) }
{
    let mut rest = variables;
    while let Some((variable, others)) = rest.split_first() {
        tell_cached(&variable.0, &variable.1);
        rest = others;
    }
}

/// Sees how long a variable is, where it counts.
fn tell_cached(name: &OsBytes, value: &OsBytes)
    ensures fit { AllByRecursion FitsLength (filter is_cached ((name.now, value.now) ∷ [])) }
{
    if is_cached(name.as_bytes()) {
        tell_length(name.as_bytes(), value.as_bytes());
    }
}

fn tell_length(name: &[u8], value: &[u8])
    ensures { FitsLength (name.now, value.now) }
{
    let _ = name.len();
    let _ = value.len();
}
