//! Laws of what a compile gives, and of runs. Calls of them do nothing.

ghost use Rattle.std.specs.Prelude.{◌≡◌, ◌↔◌, List, Option, Result};
ghost use Rattle.base_files.specs.Bytes.{Bytes};
ghost use Rattle.ckeys_records.specs.Folders.{Settings};
ghost use Rattle.ckeys_records.specs.declared.fault.Fault.{Fault};
ghost use Rattle.ckeys_records.specs.declared.output_name.OutputName.{OutputName};
ghost use Rattle.wrap_base.specs.declared.answer.Answer.{Answer};
ghost use Rattle.wrap_base.specs.declared.call.Call.{Call};
ghost use Rattle.wrap_keys.specs.Account.{Account, collected};
ghost use Rattle.wrap_keys.specs.Gathering.{gives};
ghost use Rattle.wrap_keys.specs.Places.{AgreeAtEachPlace, AtEachPlace, calls_beside};
ghost use Rattle.wrap_keys.specs.Whole.{Each, IsAnswered, SameOutputs, Served, Ticks, served};

use base_files::Files;
use wrap_base::Tool;

/// A compile with status 0 gives each output that it made, by name and contents, in the order in which they are asked for, unless one
/// that may not be left out wasn't made: then it gives the name of the first of these.
pub fn compiles_give_what_they_made()
    ensures { (names : List OutputName) (files : List (Option Bytes)) →
        collected names files ≡ gives names files }
{}

/// The calls of a run are what is at each place in the lists of how they begin, how they end and what they answered; what is said
/// of each is said of each place; and the outputs of two runs agree exactly where those at each place do.
pub fn runs_are_said_by_places<F: Files, T: Tool>()
    ensures calls { (begins : List (Account × Ticks)) (ends : List Ticks)
        (results : List (Result Answer Fault)) →
        served begins ends results ≡ calls_beside begins ends results }
    ensures each { (settings : Settings) (begins ends : List (Call F T))
        (results : List (Result Answer Fault)) →
        Each (IsAnswered settings F.Files T.Preprocessor) begins ends results
        ↔ AtEachPlace (IsAnswered settings F.Files T.Preprocessor) begins ends results }
    ensures outputs { (one two : List Served) →
        SameOutputs one two ↔ AgreeAtEachPlace one two }
{}
