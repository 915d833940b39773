//! Laws of the values. No code calls them: whoever prints what was read cites them.

ghost use Rattle.std.specs.Prelude.{◌≡◌, true, ◌++◌, List, None, Some, map, codes};
ghost use Rattle.std.specs.Cmp.Lexicographic.{slice_cmp};
ghost use Rattle.std.specs.List.{list_any};
ghost use Rattle.std.specs.List.Sorted.{IsStrictlySortedBy};
ghost use Rattle.std.specs.Ordering.{nat_cmp};
ghost use Rattle.std.specs.Str.{bytes_eq};
ghost use Rattle.base_files.specs.Bytes.{Bytes};
ghost use Rattle.rustc_options.specs.Splitting.{after_equals};
ghost use Rattle.rustc_options.specs.Data.{data_of, word_of, refusal, prints_its_word, printed_type};
ghost use Rattle.rustc_options.specs.Sets.{between_commas, joined_by_commas, in_order};
ghost use Rattle.rustc_options.specs.declared.kind.ArgKind.{ArgKind};
ghost use Rattle.rustc_options.specs.declared.kind.ArgKind.TheVariants.{CrateType, LinkLibrary, LinkPath};

/// A value that was read prints its word, where its kind says so. A library and a folder of libraries print it with the
/// kind that is meant where the word names none, and crate types each once, in the order of their bytes, and `rlib` for
/// `lib`.
pub fn words_are_printed_again()
    ensures word { (kind : ArgKind) (word : Bytes) → prints_its_word kind ≡ true
        → refusal kind word ≡ None → word_of (data_of kind word) ≡ word }
    ensures library { (word back : Bytes) → after_equals word ≡ Some back
        → word_of (data_of LinkLibrary word) ≡ word }
    ensures bare_library { (word : Bytes) → after_equals word ≡ None
        → word_of (data_of LinkLibrary word) ≡ codes "dylib=" ++ word }
    ensures path { (word back : Bytes) → after_equals word ≡ Some back
        → word_of (data_of LinkPath word) ≡ word }
    ensures bare_path { (word : Bytes) → after_equals word ≡ None
        → word_of (data_of LinkPath word) ≡ codes "all=" ++ word }
    ensures crate_types { (word : Bytes)
        → word_of (data_of CrateType word)
        ≡ joined_by_commas (in_order (map printed_type (between_commas word))) }
{}

/// Words in order rise strictly, and they are the words that were given; no other list rises strictly and has the same words.
pub fn words_in_order_are_a_set()
    ensures rising { (words : List Bytes) → IsStrictlySortedBy (slice_cmp nat_cmp) (in_order words) }
    ensures same { (words : List Bytes) (word : Bytes)
        → list_any (bytes_eq word) (in_order words) ≡ list_any (bytes_eq word) words }
    ensures only { (words list : List Bytes) → IsStrictlySortedBy (slice_cmp nat_cmp) list
        → ((word : Bytes) → list_any (bytes_eq word) list ≡ list_any (bytes_eq word) words)
        → list ≡ in_order words }
{}
