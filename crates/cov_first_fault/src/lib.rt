//! Laws of the grammar's first fault.
#![tactic(auto)]

mod laws;

pub use laws::{deep, none, one, some, stop};
