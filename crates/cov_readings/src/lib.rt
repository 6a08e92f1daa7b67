//! Laws of what the expressions of a well-formed model mean in typed states.
#![tactic(auto)]

mod defines;
mod extents;
mod singles;

pub use defines::{booleans, defines_are_their_bodies, defines_read_earlier};
pub use extents::{defines_are_listed, expressions_are_shallow, ranges_are_narrow};
pub use singles::{atoms_are_single, conditions_are_single, one_choice, operands_are_single};
