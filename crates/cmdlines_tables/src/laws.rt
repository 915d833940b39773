//! Laws of the tables. No code calls them: whoever writes a command cites them.

ghost use Rattle.std.specs.Prelude.{◌≡◌, Bool, true, Some, Contains, length};
ghost use Rattle.std.specs.List.{list_any};
ghost use Rattle.cmdlines_base.specs.Reading.{Item, is_after};
ghost use Rattle.cmdlines_base.specs.Table.{Entry};
ghost use Rattle.cmdlines_base.specs.Values.{IsOf, values_by};
ghost use Rattle.cmdlines_base.specs.declared.argument.Argument.{Argument};
ghost use Rattle.cmdlines_tables.specs.CompilerFacts.{kind_name, kind_named};
ghost use Rattle.cmdlines_tables.specs.EmbeddedTables.{diab_entries, tasking_vx_entries};
ghost use Rattle.cmdlines_tables.specs.Kinds.{gives_input};
ghost use Rattle.cmdlines_tables.specs.MsvcTable.{msvc_dash_entries, msvc_slash_entries};
ghost use Rattle.cmdlines_tables.specs.OwnWords.{OwnWords};
ghost use Rattle.cmdlines_tables.specs.GnuTable.{gnu_entries, clang_entries};
ghost use Rattle.cmdlines_tables.specs.Tables.{entries_of};
ghost use Rattle.cmdlines_tables.specs.declared.compiler.CCompilerKind.{CCompilerKind};
ghost use Rattle.cmdlines_tables.specs.Values.{IsFlag, IsValue, never, placed};
ghost use Rattle.cmdlines_tables.specs.declared.kind.ArgKind.{ArgKind};
ghost use Rattle.cmdlines_tables.specs.declared.value.ArgData.{ArgData};

/// Each compiler is the one of its name: it is among all of them, and no other has that name.
pub fn names_tell_kinds()
    ensures { (kind : CCompilerKind) → kind_named (kind_name kind) ≡ Some kind }
{}

/// Each compiler reads the words that commands have of their own as what they are meant for, and its tables are clear,
/// so that what was read is read again.
pub fn own_words_are_read()
    ensures { (kind : CCompilerKind) → OwnWords kind }
{}

/// No flag is in both tables of Clang, nor in both of Msvc.
pub fn tables_share_no_flag()
    ensures clang { (d e : Entry ArgKind) → Contains gnu_entries d → Contains clang_entries e
        → d.flag ≡ e.flag → ⊥ }
    ensures msvc { (d e : Entry ArgKind) → Contains msvc_dash_entries d
        → Contains msvc_slash_entries e → d.flag ≡ e.flag → ⊥ }
{}

/// How many options the tables have.
pub fn options_are_counted()
    ensures gnu { length gnu_entries ≡ 61 }
    ensures clang { length clang_entries ≡ 21 }
    ensures diab { length diab_entries ≡ 20 }
    ensures msvc_dash { length msvc_dash_entries ≡ 55 }
    ensures msvc_slash { length msvc_slash_entries ≡ 55 }
    ensures tasking_vx { length tasking_vx_entries ≡ 24 }
{}

/// Only Msvc has options that give the input.
pub fn only_msvc_gives_inputs_by_options()
    ensures { (kind : CCompilerKind)
        → list_any (λ (e : Entry ArgKind). gives_input e.kind) (entries_of kind) ≡ true
        → kind ≡ CCompilerKind.Msvc }
{}

/// An argument that was cut, in its place, is its item.
pub fn arguments_are_their_items()
    ensures { (item : Item ArgKind) (argument : Argument ArgData) (seen : Bool)
        → IsOf (values_by IsFlag IsValue never) item argument → is_after item ≡ seen
        → placed seen argument ≡ item }
{}
