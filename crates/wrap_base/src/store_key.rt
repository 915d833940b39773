//! Keys under which outputs are kept.

ghost use Rattle.std.specs.Prelude.{◌≡◌, ◌↔◌, ◌++◌, pos, true};
ghost use Rattle.std.specs.Hash as fed;
ghost use Rattle.std.specs.Ordering.{ordering_then};
ghost use Rattle.std.specs.declared.cmp.Ordering.TheVariants.{Equal};
ghost use Rattle.ckeys_records.specs.declared.shape.CShape.{CShape};
ghost use Rattle.rustc_parts.specs.declared.parts.RShape.{RShape};
ghost use Rattle.wrap_base.specs.declared.store_key.StoreKey.{StoreKey};

use base_files::{Listed, OsBytes};
use ckeys_records::output_name::OutputName;
use ckeys_records::shape::CShape;
use rustc_parts::parts::RShape;
use std::hash::Hash;

/// Whose requests a key is of.
#[derive(Clone, Copy, Debug, PartialEq, Eq, PartialOrd, Ord, Hash)]
pub enum Family {
    C,
    Rustc,
}

/// What the hashed bytes of a request don't determine, by its family.
#[derive(Clone, Debug, Drop, PartialEq, Eq, Hash, PartialOrd, Ord)]
pub enum Shape {
    C(CShape),
    Rustc(RShape),
}

/// What a request's outputs are kept under: the family, the shape, the outputs' names with their marks, and the digest.
/// Keys are compared and hashed by these fields, in this order.
#[derive(Clone, Debug, Drop, PartialEq, Eq, PartialOrd, Ord, Hash)]
pub struct StoreKey {
    pub family: Family,
    pub shape: Shape,
    pub names: Listed<OutputName>,
    pub digest: OsBytes,
}

/// What is kept under a key: name and contents of each output that was made, in the order in which the request asked for them.
pub type Pairs = Listed<(OsBytes, OsBytes)>;

/// Keys are equal exactly if their fields are, and so they are in order. They are ordered by the family, then the shape, then the
/// names, then the digest, and what is hashed of one is what is hashed of these, in this order; of a shape, the index of its family
/// and then its contents.
pub fn keys_are_their_fields()
    ensures equal { (one other : StoreKey)
        → (⟦<StoreKey as PartialEq>⟧.eq one other ≡ true) ↔ (one ≡ other) }
    ensures tied { (one other : StoreKey)
        → (⟦<StoreKey as Ord>⟧.cmp one other ≡ Equal) ↔ (one ≡ other) }
    ensures ordered { (one other : StoreKey) → ⟦<StoreKey as Ord>⟧.cmp one other
        ≡ ordering_then (⟦<Family as Ord>⟧.cmp one.family other.family)
        (ordering_then (⟦<Shape as Ord>⟧.cmp one.shape other.shape)
        (ordering_then (⟦<Listed<OutputName> as Ord>⟧.cmp one.names other.names)
        (⟦<OsBytes as Ord>⟧.cmp one.digest other.digest))) }
    ensures hashed { (key : StoreKey)
        → ⟦<StoreKey as Hash>⟧.hash_input key
        ≡ ⟦<Family as Hash>⟧.hash_input key.family ++ ⟦<Shape as Hash>⟧.hash_input key.shape
        ++ ⟦<Listed<OutputName> as Hash>⟧.hash_input key.names ++ ⟦<OsBytes as Hash>⟧.hash_input
        key.digest }
    ensures c_hashed { (shape : CShape) → ⟦<Shape as Hash>⟧.hash_input (Shape.C shape)
        ≡ fed.isize (pos 0) ++ ⟦<CShape as Hash>⟧.hash_input shape }
    ensures rustc_hashed { (shape : RShape) → ⟦<Shape as Hash>⟧.hash_input (Shape.Rustc shape)
        ≡ fed.isize (pos 1) ++ ⟦<RShape as Hash>⟧.hash_input shape }
{
    ties_are_equal::<StoreKey>();
}

/// What an order doesn't distinguish is equal.
fn ties_are_equal<K: Ord>()
    ensures { (one other : K) → (K.cmp one other ≡ Equal) ↔ (K.eq one other ≡ true) }
{}
