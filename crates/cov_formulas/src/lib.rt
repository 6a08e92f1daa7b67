//! Laws of the specifications of a well-formed model as formulas, and of formulas with an occurrence replaced.
#![tactic(auto)]

mod occurrences;
mod specifications;

pub use occurrences::{constants_are_formulas, occurrences_are_formulas, replaced_are_formulas};
pub use specifications::{specifications_are_formulas, specifications_are_small};
