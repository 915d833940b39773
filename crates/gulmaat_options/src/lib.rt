//! What a user asks of the program before a real compiler beside a compile: its help, its version, its statistics, what is kept and how much,
//! its settings, and links by which it runs in place of compilers.
#![tactic(auto)]

mod asked;
mod clearing;
mod doing;
mod error;
mod help;
mod links;
mod reading;
mod settings_shown;
mod statistics_shown;

pub use doing::{Caller, do_options};
pub use error::OptionError;
pub use help::print_help;
