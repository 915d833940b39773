//! Laws of expansion. Calls of them do nothing.

ghost use Rattle.std.specs.Prelude.{◌≡◌, false, List};
ghost use Rattle.std.specs.List.{list_any};
ghost use Rattle.base_files.specs.Bytes.{Bytes};
ghost use Rattle.base_files.specs.Tree.{Tree};
ghost use Rattle.cmdlines_response_files.specs.Expansion.{DepthIsEnough, IsRecursion, expanded};
ghost use Rattle.cmdlines_response_files.specs.Styles.{names_file};
ghost use Rattle.cmdlines_response_files.specs.declared.style.Style.{Style};

/// Expansion is recursion over the files that aren't open, and no greater depth changes anything.
pub fn expansion_is_recursion()
    ensures recursion { (style : Style) (dir : Bytes) → IsRecursion style dir }
    ensures depth { (style : Style) (dir : Bytes) → DepthIsEnough style dir }
{}

/// Words of which none names a response file stay as they are.
pub fn other_words_stay()
    ensures { (style : Style) (dir : Bytes) (files : Tree) (words : List Bytes)
        → list_any (names_file style) words ≡ false → expanded style dir files words ≡ words }
{}
