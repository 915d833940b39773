//! Laws of keys. Calls of them do nothing.

ghost use Rattle.std.specs.Prelude.{◌≡◌, ℕ};
ghost use Rattle.std.specs.declared.cmp.Ordering.TheVariants.{Equal};
ghost use Rattle.base_files.specs.Bytes.{Bytes};
ghost use Rattle.std.specs.Cmp.{IsTotalOrder};
ghost use Rattle.base_formats.specs.Spelling.{FitsFrame};
ghost use Rattle.rustc_parts.specs.Formed.{HasDigests};
ghost use Rattle.rustc_parts.specs.Orders.{env_dep_cmp, pair_cmp};
ghost use Rattle.rustc_parts.specs.declared.parts.EnvDep.{EnvDep};
ghost use Rattle.rustc_parts.specs.Material.{material_of};
ghost use Rattle.rustc_parts.specs.Shapes.{shape_of};
ghost use Rattle.rustc_parts.specs.declared.parts.Parts.{Parts};

/// The bytes and the shape determine the pieces, whatever the width of the hash: equal ones are of equal pieces, whose digests have
/// their widths and whose bytes can be counted in 64 bits.
pub fn bytes_and_shape_tell_parts()
    ensures { (width : ℕ) (one other : Parts) → HasDigests width one → HasDigests width other →
        FitsFrame (material_of one) → material_of one ≡ material_of other →
        shape_of one ≡ shape_of other → one ≡ other }
{}

/// Variables are totally ordered, and only equal ones tie.
pub fn variables_have_one_order()
    ensures env_deps { IsTotalOrder env_dep_cmp }
    ensures env_deps_tie { (one other : EnvDep) → env_dep_cmp one other ≡ Equal → one ≡ other }
    ensures pairs { IsTotalOrder pair_cmp }
    ensures pairs_tie { (one other : Bytes × Bytes) → pair_cmp one other ≡ Equal → one ≡ other }
{}
