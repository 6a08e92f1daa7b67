//! Conditions and assignments of a model as sets of rows, with the sets of the DEFINEs that they read.
#![tactic(auto)]

mod asked;
mod bodies;
mod condition;
mod defines;
mod family;
mod marks;
mod typed;

pub use condition::{put_assignment, put_condition};
