//! What sets of rows say of explicit states: the rows that a relation reaches are those of the reachable states.
#![tactic(auto)]

mod laws;

pub use laws::{reached_rows_are_reachable, rows_of_states};
