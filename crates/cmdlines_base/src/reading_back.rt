//! Laws of words that are written and cut again. No code calls them: whoever writes a command cites them.

ghost use Rattle.std.specs.Prelude.{◌≡◌, List, Bool, true};
ghost use Rattle.base_files.specs.Bytes.{Bytes};
ghost use Rattle.cmdlines_base.specs.Table.{Entry};
ghost use Rattle.cmdlines_base.specs.Reading.{Item, reading};
ghost use Rattle.cmdlines_base.specs.Again.{is_clear, lets_dashes, AllReadAgain, AllReadAgainUnlessEmpty, ReadsTogether};

use crate::value::ArgumentValue;

/// In a clear table each item of a reading, written normally, is read again as an item that is normally written
/// alike, unless it comes after double dashes or is an empty value of an option whose value may be joined or separate.
/// Where double dashes end the options, no entry of the table may fit them.
pub fn items_read_again<T: ArgumentValue>()
    ensures { (dashes : Bool) (table : List (Entry T.Kind)) → is_clear table ≡ true
        → lets_dashes dashes table ≡ true → (words : List Bytes)
        → AllReadAgainUnlessEmpty dashes table (reading dashes table words).items }
{}

/// Items that are read again one by one are read again together, whatever words follow.
pub fn items_read_together<T: ArgumentValue>()
    ensures { (dashes : Bool) (table : List (Entry T.Kind)) (items : List (Item T.Kind))
        → AllReadAgain dashes table items → (rest : List Bytes)
        → ReadsTogether dashes table items rest }
{}
