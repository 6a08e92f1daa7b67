//! Verdicts of formulas.
#![tactic(auto)]

mod passing;

pub use passing::verdict;
