//! Laws of lines, texts and names. Calls of them do nothing.

ghost use Rattle.std.specs.Prelude.{◌≡◌, ◌↔◌, Bool, List, None, Option, Some, filter};
ghost use Rattle.std.specs.List.{Contains, IsDistinct, list_any};
ghost use Rattle.std.specs.Str.{bytes_eq};
ghost use Rattle.base_files.specs.Bytes.{Bytes};
ghost use Rattle.base_files.specs.Tree.{Tree};
ghost use Rattle.ckeys_marker_walk.specs.Appearing.{AppearsBefore, IsRefusedOn, NamesFile, StandsBefore};
ghost use Rattle.ckeys_marker_walk.specs.Markers.{IsMarker};
ghost use Rattle.ckeys_marker_walk.specs.Named.{marker_names, named_files_of, once};
ghost use Rattle.ckeys_marker_walk.specs.Scanning.{Sight, sight_in};
ghost use Rattle.ckeys_marker_walk.specs.Spelling.{meant, spelled};
ghost use Rattle.ckeys_marker_walk.specs.Told.{HasMarker, IsRefused, Says};

/// A line is a marker, refuses its text or is plain, exactly as it is found to be, and it is one of these alone. It is a marker of
/// one name at most, and each name has one spelling.
pub fn lines_have_one_reading()
    ensures found { (line : Bytes) → Says line (sight_in line) }
    ensures one { (line : Bytes) (said : Option Sight) → Says line said → said ≡ sight_in line }
    ensures name { (line name other : Bytes) → IsMarker line name →
        IsMarker line other → name ≡ other }
    ensures meant { (name : Bytes) → meant (spelled name) ≡ name }
{}

/// A text has names exactly if nothing refuses it. They are the names of its markers, no two of them equal.
pub fn texts_name_their_markers()
    ensures refused { (text : Bytes) → marker_names text ≡ None → IsRefused text }
    ensures refuses { (text : Bytes) → IsRefused text → marker_names text ≡ None }
    ensures marked { (text : Bytes) (names : List Bytes) → marker_names text ≡ Some names →
        (name : Bytes) → Contains names name → HasMarker text name }
    ensures named { (text : Bytes) (names : List Bytes) → marker_names text ≡ Some names →
        (name : Bytes) → HasMarker text name → Contains names name }
    ensures distinct { (text : Bytes) (names : List Bytes) → marker_names text ≡ Some names →
        IsDistinct bytes_eq names }
{}

/// Names given once: no two of them are equal, each name is there that was there before, and whether names are chosen before or after
/// is the same.
pub fn names_are_given_once()
    ensures distinct { (names : List Bytes) → IsDistinct bytes_eq (once names) }
    ensures chosen { (test : Bytes → Bool) (names : List Bytes) →
        once (filter test names) ≡ filter test (once names) }
    ensures kept { (names : List Bytes) (name : Bytes) →
        list_any (bytes_eq name) (once names) ≡ list_any (bytes_eq name) names }
{}

/// The named files of a text, which a walk gives: it has none exactly where something in it, or a file that it names, refuses it. Else
/// they are the files that its markers name and that count, no two of them equal, in the order in which its lines name them first.
pub fn texts_name_their_files()
    ensures refused { (dir : Bytes) (files : Tree) (input text : Bytes) →
        (named_files_of dir files input text ≡ None) ↔ IsRefusedOn dir files input text }
    ensures named { (dir : Bytes) (files : Tree) (input text : Bytes) (names : List Bytes) →
        named_files_of dir files input text ≡ Some names →
        (name : Bytes) → Contains names name ↔ NamesFile dir files input text name }
    ensures distinct { (dir : Bytes) (files : Tree) (input text : Bytes) (names : List Bytes) →
        named_files_of dir files input text ≡ Some names → IsDistinct bytes_eq names }
    ensures order { (dir : Bytes) (files : Tree) (input text : Bytes) (names : List Bytes) →
        named_files_of dir files input text ≡ Some names →
        (one other : Bytes) → StandsBefore names one other → AppearsBefore text one other }
{}
