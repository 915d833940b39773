//! rustc's options: what each is for, what its word says, and the table.
#![tactic(auto)]

mod data;
mod kind;
mod laws;
pub mod parsed;
mod sets;
mod splitting;
mod table;
mod types;

pub use data::ArgData;
pub use kind::ArgKind;
pub use laws::{words_are_printed_again, words_in_order_are_a_set};
pub use sets::{between_commas, in_order, joined_by_commas};
pub use splitting::{maybe_with_equals, split_at_equals, with_equals};
pub use table::rustc_table;
pub use types::{
    ArgCodegen, ArgCrateTypes, ArgExtern, ArgLinkLibrary, ArgLinkPath, ArgOption, ArgTarget,
    ArgUnstable,
};
