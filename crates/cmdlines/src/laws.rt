//! Laws of what words ask for. Calls of them do nothing: whoever parses cites them.

ghost use Rattle.std.specs.Prelude.{List};
ghost use Rattle.base_files.specs.Bytes.{Bytes};
ghost use Rattle.cmdlines.specs.Commands.{HasObjectIn, compile_words, output_path, preprocess_words};
ghost use Rattle.cmdlines.specs.KnownLanguages.{HasKnownLanguageIn};
ghost use Rattle.cmdlines.specs.Parsing.{parse_of, HasSafeInputIn};
ghost use Rattle.cmdlines.specs.ReadBack.{ReadsAsCompile, ReadsAsPreprocess};
ghost use Rattle.cmdlines_tables.specs.declared.parsed.ParsedArguments.{ParsedArguments};
ghost use Rattle.cmdlines_tables.specs.declared.compiler.CCompilerKind.{CCompilerKind};

use cmdlines_base::{items_read_again, items_read_together, words_have_one_reading};
use cmdlines_tables::{ArgData, only_msvc_gives_inputs_by_options, own_words_are_read};

/// Whatever words ask for, its input can be placed where it's written: it is loose, or comes after double dashes that end the
/// options. Only an input that an option of Msvc gave need not.
pub fn inputs_are_safe()
    ensures { (kind : CCompilerKind) (words : List Bytes)
        → HasSafeInputIn kind words (parse_of kind words) }
{
    // A law, which costs nothing: what follows from it is said above.
    only_msvc_gives_inputs_by_options();
}

/// Whatever words ask for, an object is among its outputs.
pub fn requests_have_an_object()
    ensures { (kind : CCompilerKind) (words : List Bytes) → HasObjectIn (parse_of kind words) }
{}

/// Whatever words ask for, their compiler knows its language, which is none of other compilers: it isn't Rust.
pub fn requests_have_a_known_language()
    ensures { (kind : CCompilerKind) (words : List Bytes)
        → HasKnownLanguageIn kind (parse_of kind words) }
{}

/// Both commands of a request are read again as what was wanted, whoever writes their words.
pub fn commands_read_as_wanted()
    ensures compile { (kind : CCompilerKind) (p : ParsedArguments)
        → ReadsAsCompile kind p (compile_words kind p (output_path p)) }
    ensures preprocess { (kind : CCompilerKind) (p : ParsedArguments)
        → ReadsAsPreprocess kind p (preprocess_words kind p) }
{
    // Laws, which cost nothing: what follows from them is said above.
    words_have_one_reading::<ArgData>();
    items_read_again::<ArgData>();
    items_read_together::<ArgData>();
    own_words_are_read();
}
