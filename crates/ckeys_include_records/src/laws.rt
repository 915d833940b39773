//! A law of include lists. Calls of it do nothing.

ghost use Rattle.std.specs.Prelude.{◌≡◌, List};
ghost use Rattle.base_files.specs.Bytes.{Bytes};
ghost use Rattle.ckeys_include_records.specs.Listing.{list_of};
ghost use Rattle.ckeys_include_records.specs.Surroundings.{Place, includes_of};

/// An include list has what is recorded of each name, in their order; and there is none exactly where the file of a name is missing,
/// or needs a day that the calendar lacks.
pub fn include_lists_are_of_each_name()
    ensures { (digest_of : Bytes → Bytes) (place : Place) (names : List Bytes)
        → includes_of place digest_of names ≡ list_of place digest_of names }
{}
