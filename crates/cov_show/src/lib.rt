//! The printed texts of expressions, of formulas, of states and of cubes, and states read from their texts.
#![tactic(auto)]

mod cube;
mod formula;
mod labels;
mod laws;
mod leaves;
mod state;
mod state_fault;
mod state_reading;
#[cfg(test)]
mod tests;
mod tree;
mod words;

pub use cube::show_cube;
pub use formula::show_formula;
pub use laws::{read_again, state_lines};
pub use state::show_state;
pub use state_fault::{StateFault, StateFaultKind, StateRefused};
pub use state_reading::read_state;
pub use tree::show_tree;
