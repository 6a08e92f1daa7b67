//! The cubes of a set of states that is kept as a diagram, and its first state.
#![tactic(auto)]

mod classes;
mod found;
mod laws;
mod least;
mod listing;
mod of_model;
mod singles;
mod variable;
mod walk;

pub use laws::{rows_are_those_of_codes, sets_of_a_model};
pub use of_model::{cubes, first};
