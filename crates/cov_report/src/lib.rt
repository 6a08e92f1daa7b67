//! The lines of a report.
#![tactic(auto)]

mod head;
mod line;
mod note;
mod set;
mod spec;
mod verdict;

pub use head::{no_fair_line, no_specs_line};
pub use note::Note;
pub use set::set_lines;
pub use spec::{note_line, occurrence_line, signal_line, spec_line};
pub use verdict::verdict_line;
