//! What the programs that a text is read as have in common.
#![tactic(auto)]

mod laws;

pub use laws::flattenable;
