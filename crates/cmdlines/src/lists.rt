//! The lists of a request, filled argument after argument.

ghost use Rattle.std.specs.Prelude.{◌≡◌, ◌++◌, ◌∷◌, [], OnOk};
ghost use Rattle.cmdlines_base.specs.Printing.{wanted_after};
ghost use Rattle.cmdlines_base.specs.Pieces.{argument_words};
ghost use Rattle.cmdlines_tables.specs.Values.{placed, word_in};
ghost use Rattle.cmdlines.specs.Collecting.{no_lists, lists_with};
ghost use Rattle.cmdlines.specs.Filling.{with_words, with_option_word};

use base_files::{Listed, OsBytes};
use cmdlines_base::{Argument, NormalizedDisposition};
use cmdlines_tables::ArgData;
use cmdlines_tables::kind::{ArgKind, OptionList};
use std::alloc::{AllocError, Global};

/// A word that is an input.
#[derive(Drop)]
pub struct Input {
    pub word: OsBytes,
    /// It comes after `--`.
    pub after_dashes: bool,
}

/// The lists of a request.
#[derive(Drop)]
pub struct Lists {
    pub inputs: Listed<Input>,
    pub preprocessor: Listed<OsBytes>,
    pub dependency: Listed<OsBytes>,
    pub unhashed: Listed<OsBytes>,
    pub common: Listed<OsBytes>,
    pub arch: Listed<OsBytes>,
    /// The architectures alone, without their flags.
    pub architectures: Listed<OsBytes>,
    /// Files whose content the compile depends on.
    pub extra_files: Listed<OsBytes>,
}

impl Lists {
    pub fn new(alloc: Global) -> Lists
        ensures { result ≡ no_lists }
    {
        Lists {
            inputs: Listed::new(alloc),
            preprocessor: Listed::new(alloc),
            dependency: Listed::new(alloc),
            unhashed: Listed::new(alloc),
            common: Listed::new(alloc),
            arch: Listed::new(alloc),
            architectures: Listed::new(alloc),
            extra_files: Listed::new(alloc),
        }
    }

    /// Adds an argument to the lists that it goes to.
    pub(crate) fn take(
        &mut self,
        alloc: Global,
        argument: Argument<ArgData>,
        after_dashes: bool,
    ) -> Result<(), AllocError>
        ensures { OnOk result (self.new ≡ lists_with self.old (placed after_dashes argument ∷ [])) }
    {
        match argument {
            Argument::Raw(word) => self.inputs.push(Input { word, after_dashes }),
            Argument::UnknownFlag(word) => self.common.push(word),
            Argument::Flag(flag, data) => {
                let kind = data.kind();
                self.take_word(alloc, kind, &[])?;
                self.take_option(alloc, kind.list(), &Argument::Flag(flag, data))
            }
            Argument::WithValue(flag, data, disposition) => {
                let kind = data.kind();
                self.take_word(alloc, kind, data.word())?;
                let option = Argument::WithValue(flag, data, disposition);
                self.take_option(alloc, kind.list(), &option.normalize(wanted_after(flag)))
            }
        }
    }

    /// Adds the word of an option where it is the input or an architecture or names a file.
    fn take_word(&mut self, alloc: Global, kind: ArgKind, word: &[u8]) -> Result<(), AllocError>
        ensures { OnOk result (self.new ≡ with_option_word self.old kind word.now) }
    {
        match kind {
            ArgKind::InputC | ArgKind::InputCxx => self.inputs.push(Input {
                word: OsBytes::from_slice(alloc, word)?,
                after_dashes: false,
            }),
            ArgKind::Arch => self.architectures.push(OsBytes::from_slice(alloc, word)?),
            ArgKind::ExtraHashFile => self.extra_files.push(OsBytes::from_slice(alloc, word)?),
            _ => Ok(()),
        }
    }

    /// Adds the words of an option to its list.
    fn take_option(
        &mut self,
        alloc: Global,
        list: OptionList,
        option: &Argument<ArgData>,
    ) -> Result<(), AllocError>
        ensures { OnOk result
            (self.new ≡ with_words self.old list (argument_words word_in option.now)) }
    {
        match list {
            OptionList::Preprocessor => push_words(alloc, &mut self.preprocessor, option),
            OptionList::Dependency => push_words(alloc, &mut self.dependency, option),
            OptionList::Unhashed => push_words(alloc, &mut self.unhashed, option),
            OptionList::Common => push_words(alloc, &mut self.common, option),
            OptionList::Arch => push_words(alloc, &mut self.arch, option),
            OptionList::Nowhere => Ok(()),
        }
    }
}

/// How the value of that flag is written: joined where the flag has two bytes, else apart.
fn wanted_after(flag: &str) -> NormalizedDisposition
    ensures { result ≡ wanted_after flag.now }
{
    if flag.len() == 2 {
        NormalizedDisposition::Concatenated
    } else {
        NormalizedDisposition::Separated
    }
}

/// Adds the words of an option.
fn push_words(
    alloc: Global,
    words: &mut Listed<OsBytes>,
    option: &Argument<ArgData>,
) -> Result<(), AllocError>
    ensures { OnOk result (words.new ≡ words.old ++ argument_words word_in option.now) }
{
    for word in option.iter_os_strings(alloc) {
        words.push(word?)?;
    }
    Ok(())
}
