//! The states that the rows of a Space name on each of its layers.
#![tactic(auto)]

mod below;
mod field;
mod laws;
mod typed;

pub use laws::{layers_are_apart, rows_name_states};
pub use typed::put_typed;
