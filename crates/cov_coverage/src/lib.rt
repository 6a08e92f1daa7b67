//! The covered and the uncovered states of signals, as sections of a report.
#![tactic(auto)]

mod names;
mod others;
mod section;
mod sections;

pub use names::{NameFault, NamedSignal, name_signals};
pub use sections::put_signals;
