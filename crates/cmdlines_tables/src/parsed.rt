//! What a request asks for, by its words.

ghost use Rattle.std.specs.Prelude.{◌≡◌, ◌&&◌, length, map, nat_lt, string_bytes, IfOk, find};
ghost use Rattle.std.specs.List.{list_any};
ghost use Rattle.std.specs.Option.{option_copied};
ghost use Rattle.cmdlines_tables.specs.Small.{object_name, output_named, object_file_name, pretty_name, archs_of, arch_flag, differs_from};

use crate::language::Language;
use base_files::{Listed, Lossy, OsBytes, file_name};
use cmdlines_base::{ArtifactDescriptor, ColorMode};
use std::alloc::{AllocError, Global};
use std::collections::BTreeSet;

/// Which options about dependency files are given.
#[derive(Clone, Copy, Debug, PartialEq, Eq)]
pub struct DependencyOptions {
    /// One asks for a dependency file.
    pub asked: bool,
    /// One says where it goes.
    pub path: bool,
    /// One names its target.
    pub target: bool,
}

/// The options of a request that can be cached.
#[derive(Clone, Debug, Drop, PartialEq, Eq)]
pub struct ParsedArguments {
    /// The one input, as its word is.
    pub input: OsBytes,
    /// Whether it comes after `--`.
    pub double_dash_input: bool,
    pub language: Language,
    /// Each output with its name, in the order of the names: `dia` where messages for tools are asked for, and `obj`.
    pub outputs: Listed<(OsBytes, ArtifactDescriptor)>,
    /// The options of the preprocessor, as words.
    pub preprocessor_args: Listed<OsBytes>,
    /// The options on dependency files, which the preprocessor writes.
    pub dependency_args: Listed<OsBytes>,
    /// Options that don't show in the object.
    pub unhashed_args: Listed<OsBytes>,
    /// The options that are hashed.
    pub common_args: Listed<OsBytes>,
    /// The options that name architectures, which are hashed too.
    pub arch_args: Listed<OsBytes>,
    /// Files whose content is hashed.
    pub extra_hash_files: Listed<OsBytes>,
    /// Whether messages are coloured, by the last option on it; `Auto` where there is none.
    pub color_mode: ColorMode,
    /// The flag of the first option under which the preprocessor cache can't be asked.
    pub too_hard_for_preprocessor_cache_mode: Option<OsBytes>,
    /// Whether an option whose value may be joined or separate was read with an empty value.
    pub empty_value: bool,
    /// Whether there is an option on colours.
    pub has_color_option: bool,
    /// Which options about dependency files are given.
    pub dependencies: DependencyOptions,
}

/// Whether a word among those on architectures is a name, and not the flag before it.
fn names_arch(word: &[u8]) -> bool
    ensures { result ≡ differs_from arch_flag word.now }
{
    word != b"-arch".as_slice()
}

impl ParsedArguments {
    /// The output named `obj`. It takes no memory.
    pub fn object(&self) -> Option<&ArtifactDescriptor>
        ensures { option_copied result ≡ output_named object_name self.now.outputs }
    {
        let named = self
            .outputs
            .as_slice()
            .iter()
            .find(|output| output.0.as_bytes() == b"obj".as_slice())?;
        Some(&named.1)
    }

    /// The file name of the object as text, where U+FFFD replaces what isn't UTF-8: `Unknown filename` where there
    /// is no such output, or where its path has no file name.
    pub fn output_pretty(&self, alloc: Global) -> Result<String, AllocError>
        ensures { IfOk result (λ text. string_bytes text ≡ pretty_name self.now.outputs) }
    {
        match self.object_file_name() {
            None => String::from_str(alloc, "Unknown filename"),
            Some(bytes) => Lossy { bytes }.text(alloc),
        }
    }

    /// The file name of the object.
    fn object_file_name(&self) -> Option<&[u8]>
        ensures { option_copied result ≡ object_file_name self.now.outputs }
    {
        file_name(self.object()?.path.as_bytes())
    }

    /// The architectures that the options name: each once, in the order in which they appear first.
    pub fn archs(&self, alloc: Global) -> Result<Vec<&[u8]>, AllocError>
        ensures { IfOk result
            (λ archs. map (λ arch. arch.now) archs.items ≡ archs_of self.now.arch_args) }
    {
        let mut seen = BTreeSet::new(alloc);
        let mut archs = Vec::new(alloc);
        let mut rest = self.arch_args.as_slice();
        while let Some((word, more)) = rest.split_first() {
            let word = word.as_bytes();
            if names_arch(word) && seen.insert(word)? {
                archs.push(word)?;
            }
            rest = more;
        }
        Ok(archs)
    }

    /// The first word that names an architecture.
    fn first_arch(&self) -> Option<&OsBytes>
        ensures { option_copied result ≡ find (differs_from arch_flag) self.now.arch_args }
    {
        self.arch_args
            .as_slice()
            .iter()
            .find(|word| names_arch(word.as_bytes()))
    }

    /// Whether a word names another architecture than that one.
    fn names_other(&self, first: &OsBytes) -> bool
        ensures { result
            ≡ list_any (λ word. differs_from arch_flag word && differs_from first.now word)
            self.now.arch_args }
    {
        self.arch_args
            .as_slice()
            .iter()
            .any(|word| names_arch(word.as_bytes()) && word != first)
    }

    /// Whether the options name at least two architectures. It takes no memory.
    pub fn is_multiarch(&self) -> bool
        ensures { result ≡ nat_lt 1 (length (archs_of self.now.arch_args)) }
    {
        match self.first_arch() {
            None => false,
            Some(first) => self.names_other(first),
        }
    }
}
