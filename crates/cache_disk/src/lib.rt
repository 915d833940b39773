//! Files of a disk for all crates of the program before a real compiler: how they are read whole, and the rights of what is made.
#![tactic(auto)]

mod found;
mod rights;
mod whole;

pub use found::{Found, State, folder_of, found_at, is_before, is_nothing, time_of};
pub use rights::{give_rights, make_folders};
pub use whole::{read_all, read_of_size, read_whole};
