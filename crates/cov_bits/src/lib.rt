//! Codes of states: each variable has as many bits as its last place needs, and a state is one number of these bits.
#![tactic(auto)]

mod laws;
mod part;
mod plan;

pub use laws::{
    codes_and_states, places_in_rows, rows_and_codes, typed_states_have_places, widths_are_least,
};
pub use plan::Plan;
