//! Where a compiler looks for the files that a text is made of: what to watch, so that it would find the same ones there again.
#![tactic(auto)]

mod asking;
mod entered;
mod noted;
mod places;
mod search_list;
mod shown;
mod texts;
mod watching;

pub use asking::said_of;
pub use entered::EnteredNames;
pub use places::Places;
pub use search_list::SearchList;
pub use texts::{AskingSources, Source, TextFiles};
pub use watching::Watching;
