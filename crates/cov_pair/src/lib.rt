//! Covered states of formulas: those at which inverting a signal alone makes a passing formula fail.
#![tactic(auto)]

mod covering;

pub use covering::covered;
