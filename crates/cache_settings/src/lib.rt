//! What a user sets for the program before a real compiler: keys with their values, by variables and files of lines `key = value`.
#![tactic(auto)]

mod error;
mod key;
mod lines;
mod places;
mod reading;
mod settings;
mod storage;
mod values;

pub use error::SettingsError;
pub use key::{Key, Kind};
pub use places::{ListedVariables, OTHERS, Variables};
pub use reading::{read_settings, set_in_file};
pub use settings::{Setting, Settings, shown};
pub use storage::{has_attribute, number_in};
pub use values::{age_named, size_named, truth_named};
