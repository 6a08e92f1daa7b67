//! Laws of the values of expressions: in typed states each value and each choice is one of the expression's own kind.
#![tactic(auto)]

mod laws;
mod standing;

pub use laws::{all_listed, few_listed, listed_once, no_fault_in};
pub use standing::{lists_stand, parts_stand};
