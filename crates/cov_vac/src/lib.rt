//! Vacuity of one occurrence of a formula.
#![tactic(auto)]

mod deciding;

pub use deciding::vacuous;
