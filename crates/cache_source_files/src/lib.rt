//! Files of a disk for a session: those that are loaded as it asks for them, all that a text names, those that a compiler made, and outputs
//! that are written in its place. Of outputs also locks on their paths, where two differ, and lines in logs.
#![tactic(auto)]

mod differences;
mod headers;
mod lists;
mod loading;
mod logging;
mod made_outputs;
mod outputs;
mod precompiled;
mod response_words;
mod tokens;

pub use differences::{
    Audit, copies_of, difference_of_outputs, difference_of_texts, is_one_of, log_difference,
};
pub use headers::keep_shared;
pub use lists::{digest_of_list, names_files_of};
pub use loading::{contents_at, load, load_all, load_named};
pub use logging::log;
pub use made_outputs::{Locks, lock_paths, made_since, states_of};
pub use outputs::{
    OldFile, have_plain_places, print_again, regular, write_dependencies, write_outputs,
    write_side_files,
};
pub use precompiled::has_precompiled;
pub use response_words::opened_words;
pub use tokens::{Tokens, token_of};
