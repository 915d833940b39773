//! What a source asks for by its directives, which of them give its lines other numbers, and the days and times that macros may bring into a
//! text.
#![tactic(auto)]

mod definitions;
mod directives;
mod guards;
mod hidden;
mod numbers;
mod splices;
mod times;

pub use definitions::{add_defined, add_said, name_alone};
pub use directives::{Asked, Directives, Search, add_probed, directives_of};
pub use guards::may_define;
pub use hidden::asks_for_files;
pub use numbers::{has_markers, renumbers};
pub use times::{pastes_time, tells_time};
