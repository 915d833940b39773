//! Fields of byte layouts, each written and read by one description: numbers of eight bytes, bytes after their length, lists after
//! their count, and choices by a byte.
#![tactic(auto)]

mod fault;
mod field;
mod fields;
mod laws;

pub use fault::ReadFault;
pub use field::{Field, put_all};
pub use fields::{
    put_framed, put_number, put_signed, read_framed, read_number, read_signed, read_taken,
    read_text,
};
pub use laws::framed_parts_are_told;
