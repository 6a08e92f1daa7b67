//! The cubes of a set of states, for variables of any number of values: the definition and its laws.
#![tactic(auto)]

mod laws;

pub use laws::{first, partition, proper};
