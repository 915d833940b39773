//! Which words of a command line to GCC or Clang are known, what they say of a dependency file and of other files beside the object, and of
//! names of files in the object, and by which words the compiler prints the text of that command.
#![tactic(auto)]

mod beside;
mod dependencies;
mod handed_on;
mod placed;
mod prefix_maps;
mod side_files;
mod tables;
pub mod text_words;
mod variables;
mod words;

pub use beside::{Beside, beside_of};
pub use dependencies::{Dependencies, dependencies_of, for_preprocessor, odd_dependency_file};
pub use placed::{Placed, PlacedWords, after_front, ends_with, is_among};
pub use prefix_maps::PrefixMaps;
pub use side_files::{SideFiles, side_ending};
pub use variables::is_read;
pub use words::{names_specs, unknown_word};
