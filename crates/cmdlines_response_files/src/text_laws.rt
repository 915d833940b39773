//! Laws of response texts. Calls of them do nothing.

ghost use Rattle.std.specs.Prelude.{◌≡◌, ◌<◌, ◌∷◌, ◌++◌, [], List, codes, length};
ghost use Rattle.std.specs.List.{AllByRecursion};
ghost use Rattle.base_files.specs.Bytes.{Bytes};
ghost use Rattle.cmdlines_response_files.specs.Gnu.{IsGnuText};
ghost use Rattle.cmdlines_response_files.specs.Msvc.{IsMsvcText};
ghost use Rattle.cmdlines_response_files.specs.Scanning.{gnu_arguments, msvc_arguments};

/// Each text has exactly one list of arguments by the GNU grammar, and none of them is empty.
pub fn gnu_texts_have_one_reading()
    ensures reads { (text : Bytes) → IsGnuText text (gnu_arguments text) }
    ensures only { (text : Bytes) (arguments : List Bytes) → IsGnuText text arguments
        → arguments ≡ gnu_arguments text }
    ensures full { (text : Bytes)
        → AllByRecursion (λ (argument : Bytes). 0 < length argument) (gnu_arguments text) }
{}

/// Each text has exactly one list of arguments by the MSVC grammar.
pub fn msvc_texts_have_one_reading()
    ensures reads { (text : Bytes) → IsMsvcText text (msvc_arguments text) }
    ensures only { (text : Bytes) (arguments : List Bytes) → IsMsvcText text arguments
        → arguments ≡ msvc_arguments text }
{}

/// By the MSVC grammar quotes with nothing in them are one empty argument, alone and before further ones.
pub fn empty_quotes_are_an_argument()
    ensures alone { msvc_arguments (codes "\"\"") ≡ [] ∷ [] }
    ensures before { (text : Bytes)
        → msvc_arguments (codes "\"\" " ++ text) ≡ [] ∷ msvc_arguments text }
{}
