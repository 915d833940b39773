//! Laws of layouts. Calls of them do nothing.

ghost use Rattle.std.specs.Prelude.{◌≡◌, List};
ghost use Rattle.std.specs.List.{AllByRecursion};
ghost use Rattle.base_files.specs.Bytes.{Bytes};
ghost use Rattle.base_formats.specs.Spelling.{FitsFrame, framed_all};

/// Lists of parts whose lengths fit are determined by their framed bytes.
pub fn framed_parts_are_told()
    ensures { (parts other : List Bytes) → AllByRecursion FitsFrame parts →
        AllByRecursion FitsFrame other → framed_all parts ≡ framed_all other → parts ≡ other }
{}
