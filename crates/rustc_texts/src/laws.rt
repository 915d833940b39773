//! Laws of the words of requests, and of the names of what they write. Calls of them do nothing.

ghost use Rattle.std.specs.Prelude.{◌≡◌, Bool, true, false, List, ◌++◌, IsPermutation, codes, map};
ghost use Rattle.std.specs.List.{AllByRecursion, IsDistinct, list_any};
ghost use Rattle.std.specs.Str.{bytes_eq};
ghost use Rattle.base_files.specs.Bytes.{Bytes};
ghost use Rattle.cmdlines_base.specs.Reading.{begins_with_at};
ghost use Rattle.rustc_options.specs.Asks.{RustAsks, Said};
ghost use Rattle.rustc_texts.specs.Outputs.{EndsInOne, has_name, library, metadata, with_metadata};
ghost use Rattle.rustc_texts.specs.Words.{all_words, cfgs_of, compile_words, dep_info_words, file_names_words, kept_of, rest_of};

/// The place of the options `--cfg` doesn't count, nor does their order: arguments that differ in that alone have the same words that
/// count in keys.
pub fn cfg_places_do_not_count()
    ensures { (has_target_file : Bool) (one other : List Said) → rest_of one ≡ rest_of other
        → IsPermutation (cfgs_of one) (cfgs_of other)
        → kept_of has_target_file one ≡ kept_of has_target_file other }
{}

/// Where no word of a request begins with `@`, none of the words of a command that is run for it does, so that none makes rustc open
/// a response file.
pub fn commands_open_nothing()
    ensures compile { (asks : RustAsks)
        → list_any begins_with_at (all_words asks.arguments) ≡ false
        → list_any begins_with_at (compile_words asks) ≡ false }
    ensures dep_info { (asks : RustAsks)
        → list_any begins_with_at (all_words asks.arguments) ≡ false
        → list_any begins_with_at (dep_info_words asks) ≡ false }
    ensures file_names { (asks : RustAsks)
        → list_any begins_with_at (all_words asks.arguments) ≡ false
        → list_any begins_with_at (file_names_words asks) ≡ false }
{}

/// For libraries that have `.rlib` at their ends alone, each once, metadata is that of each, with `.rmeta` in the place of `.rlib`:
/// after all of them where they are linked, and else in their places.
pub fn metadata_is_that_of_each_library()
    ensures after { (emit stems : List Bytes) → has_name emit (codes "metadata") ≡ true
        → has_name emit (codes "link") ≡ true → AllByRecursion EndsInOne stems
        → IsDistinct bytes_eq stems
        → with_metadata emit (map library stems) ≡ map library stems ++ map metadata stems }
    ensures in_place { (emit stems : List Bytes) → has_name emit (codes "metadata") ≡ true
        → has_name emit (codes "link") ≡ false → AllByRecursion EndsInOne stems
        → IsDistinct bytes_eq stems
        → with_metadata emit (map library stems) ≡ map metadata stems }
{}
