//! Laws of the grammar, and the function that the parser computes.
#![tactic(auto)]

mod laws;

pub use laws::{complete, sound, unique};
