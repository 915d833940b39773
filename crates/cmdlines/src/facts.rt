//! What the arguments of a request say beside its lists, noted one after another.

ghost use Rattle.std.specs.Prelude.{◌≡◌, ◌∷◌, [], Bool, IfOk, OnOk};
ghost use Rattle.cmdlines_base.specs.Printing.{is_empty_j};
ghost use Rattle.cmdlines_base.specs.Table.{all_entries};
ghost use Rattle.cmdlines_tables.specs.Values.{placed};
ghost use Rattle.cmdlines.specs.Collecting.{no_facts, facts_with};
ghost use Rattle.cmdlines.specs.Wanted.{color_named};
ghost use Rattle.cmdlines_base.specs.Choices.{when, sooner};
ghost use Rattle.cmdlines.specs.Noting.{noted, noted_word};
ghost use Rattle.cmdlines_tables.specs.Kinds.{blocks_preprocessor_cache};

use base_files::OsBytes;
use cmdlines_base::{ArgDisposition, ArgInfo, Argument, ColorMode, SearchableArgInfo};
use cmdlines_tables::kind::ArgKind;
use cmdlines_tables::{ArgData, DependencyOptions};
use std::alloc::{AllocError, Global};

/// What the arguments say beside the lists.
#[derive(Drop)]
pub struct Facts {
    /// One asks for a compile without linking.
    pub compiles: bool,
    /// The last output.
    pub output: Option<OsBytes>,
    /// The last language.
    pub language: Option<OsBytes>,
    /// Where messages for tools go, by the last such option.
    pub diagnostics: Option<OsBytes>,
    /// What the last option on colours says.
    pub color: Option<ColorMode>,
    /// The flag of the first option under which the preprocessor cache can't be asked.
    pub blocker: Option<OsBytes>,
    pub dependencies: DependencyOptions,
    /// An option whose value may be joined or separate was read with an empty value.
    pub empty_value: bool,
}

impl Facts {
    pub fn new() -> Facts
        ensures { result ≡ no_facts }
    {
        let dependencies = DependencyOptions {
            asked: false,
            path: false,
            target: false,
        };
        Facts {
            compiles: false,
            output: None,
            language: None,
            diagnostics: None,
            color: None,
            blocker: None,
            dependencies,
            empty_value: false,
        }
    }
    /// Notes what an argument says. Its place doesn't matter.
    pub(crate) fn note<S: SearchableArgInfo<ArgData>>(
        &mut self,
        alloc: Global,
        table: &S,
        argument: &Argument<ArgData>,
    ) -> Result<(), AllocError>
        ensures { OnOk result
            ((after : Bool)
            → self.new
            ≡ facts_with (all_entries (S.tables table.now)) self.old
            (placed after argument.now ∷ [])) }
    {
        if is_empty_value(table, argument) {
            self.empty_value = true;
        }
        match argument {
            Argument::Raw(_) | Argument::UnknownFlag(_) => Ok(()),
            Argument::Flag(flag, data) => self.note_option(alloc, flag, data.kind(), &[]),
            Argument::WithValue(flag, data, _) => {
                self.note_option(alloc, flag, data.kind(), data.word())
            }
        }
    }

    /// Notes what an option says.
    fn note_option(
        &mut self,
        alloc: Global,
        flag: &'static str,
        kind: ArgKind,
        word: &[u8],
    ) -> Result<(), AllocError>
        ensures { OnOk result (self.new ≡ noted self.old flag.now kind word.now) }
    {
        self.note_blocker(alloc, flag, kind)?;
        self.note_word(alloc, kind, word)
    }

    /// Notes the flag of the first option under which the preprocessor cache can't be asked.
    fn note_blocker(
        &mut self,
        alloc: Global,
        flag: &'static str,
        kind: ArgKind,
    ) -> Result<(), AllocError>
        ensures { OnOk result
            (self.new
            ≡ record self.old
            { blocker = sooner self.old.blocker (when (blocks_preprocessor_cache kind) flag.now) }) }
    {
        if self.blocker.is_none() && kind.blocks_preprocessor_cache() {
            self.blocker = Some(OsBytes::from_slice(alloc, flag.as_bytes())?);
        }
        Ok(())
    }

    /// Notes what an option's word says.
    fn note_word(&mut self, alloc: Global, kind: ArgKind, word: &[u8]) -> Result<(), AllocError>
        ensures { OnOk result (self.new ≡ noted_word self.old kind word.now) }
    {
        match kind {
            ArgKind::DoCompilation => self.compiles = true,
            ArgKind::Output => self.output = Some(OsBytes::from_slice(alloc, word)?),
            ArgKind::Language => self.language = Some(OsBytes::from_slice(alloc, word)?),
            ArgKind::LanguageC | ArgKind::InputC => {
                self.language = Some(OsBytes::from_slice(alloc, b"c")?)
            }
            ArgKind::LanguageCxx | ArgKind::InputCxx => {
                self.language = Some(OsBytes::from_slice(alloc, b"c++")?)
            }
            ArgKind::SerializeDiagnostics => {
                self.diagnostics = Some(OsBytes::from_slice(alloc, word)?)
            }
            ArgKind::DiagnosticsColor => self.color = Some(color_named(word)),
            ArgKind::DiagnosticsColorFlag => self.color = Some(ColorMode::On),
            ArgKind::NoDiagnosticsColorFlag => self.color = Some(ColorMode::Off),
            ArgKind::NeedDepTarget => self.dependencies.asked = true,
            ArgKind::DepArgumentPath => self.dependencies.path = true,
            ArgKind::DepTarget => self.dependencies.target = true,
            ArgKind::TooHard
            | ArgKind::Arch
            | ArgKind::PreprocessorArgument
            | ArgKind::PreprocessorTooHard
            | ArgKind::DepFlag
            | ArgKind::PassThrough
            | ArgKind::ExtraHashFile
            | ArgKind::XClang => {}
        }
        Ok(())
    }
}

/// Whether the value of an option on colours says that messages are coloured.
fn color_named(word: &[u8]) -> ColorMode
    ensures { result ≡ color_named word.now }
{
    if word == b"always".as_slice() {
        ColorMode::On
    } else if word == b"never".as_slice() {
        ColorMode::Off
    } else {
        ColorMode::Auto
    }
}

/// Whether an option whose value may be joined or separate was read with an empty value.
fn is_empty_value<S: SearchableArgInfo<ArgData>>(table: &S, argument: &Argument<ArgData>) -> bool
    ensures { (after : Bool)
        → result ≡ is_empty_j (all_entries (S.tables table.now)) (placed after argument.now) }
{
    let Argument::WithValue(flag, data, _) = argument else {
        return false;
    };
    if !data.word().is_empty() {
        return false;
    }
    match table.search(flag.as_bytes()) {
        Some(ArgInfo::TakeArg(_, _, ArgDisposition::CanBeConcatenated(_)))
        | Some(ArgInfo::TakeArg(_, _, ArgDisposition::CanBeSeparated(_))) => true,
        _ => false,
    }
}
