//! A session's answers over recorded ones, with stores that remember what they were asked for; and laws of tokens, which such a session
//! has in the place of the contents of headers.
#![tactic(auto)]

mod asked_store;
mod kept_session;
mod laws;
mod replayed;
mod watched_records;

pub use asked_store::AskedStore;
pub use kept_session::{Entries, Objects, SessionAnswer, answered, session_over};
pub use laws::tokens_stand_for_contents;
pub use watched_records::WatchedRecords;
