//! Laws of what requests to rustc come to. Calls of them do nothing.

ghost use Rattle.std.specs.Prelude.{◌≡◌, ◌∷◌, ◌++◌, Bool, true, false, List, Some, map};
ghost use Rattle.base_files.specs.Bytes.{Bytes};
ghost use Rattle.base_files.specs.Tree.{Tree};
ghost use Rattle.cmdlines_base.specs.Reading.{Item, Reading};
ghost use Rattle.rustc_options.specs.declared.kind.ArgKind.{ArgKind};
ghost use Rattle.rustkeys_base.specs.Deciders.{NoneDecides};
ghost use Rattle.rustkeys_base.specs.Facts.{facts_of};
ghost use Rattle.rustkeys_base.specs.Saying.{token_of};
ghost use Rattle.rustkeys_base.specs.Parsing.{Decision, asks, closing, decides_after, not_parsed, decision_on};

/// The first item that decides does, and one whose value is refused decides too; where none does, words that are cut short do, and
/// else the closing rules. Something is asked for only where no item decides, the words are whole, and the closing rules ask for it.
pub fn first_that_decides_does()
    ensures item { (dir : Bytes) (files : Tree) (earlier later : List (Item ArgKind))
        (item : Item ArgKind)
        → (cut_short : Bool) (decision : Decision) → NoneDecides dir files earlier
        → decides_after dir files earlier item ≡ Some decision
        → decision_on dir files (record { items = earlier ++ item ∷ later; cut_short = cut_short })
        ≡ decision }
    ensures cut_short { (dir : Bytes) (files : Tree) (items : List (Item ArgKind))
        → NoneDecides dir files items
        → decision_on dir files (record { items = items; cut_short = true }) ≡ not_parsed }
    ensures closing { (dir : Bytes) (files : Tree) (items : List (Item ArgKind))
        → NoneDecides dir files items
        → let facts = facts_of (map token_of items) in
        decision_on dir files (record { items = items; cut_short = false }) ≡ closing facts }
    ensures asks { (dir : Bytes) (files : Tree) (r : Reading ArgKind)
        → decision_on dir files r ≡ asks
        → let facts = facts_of (map token_of r.items) in
        NoneDecides dir files r.items × (r.cut_short ≡ false) × (closing facts ≡ asks) }
{}
