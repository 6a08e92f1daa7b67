//! The bits of one variable on one layer of a Space: the rows that hold a number there, and the rest sets of numbers.
#![tactic(auto)]

mod field;
mod laws;
mod sets;

pub use field::{Field, field_of};
pub use laws::{codes_hold_places, fields_are_apart, written_is_held};
pub use sets::{is_empty, put_number, restrict_to};
