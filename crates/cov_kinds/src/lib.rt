//! The kinds of expressions: Boolean, the integers from one to another, or a list of values; and their arithmetic.
#![tactic(auto)]

mod asks;
mod ends;
mod join;
mod kind;
mod operators;
mod remainder;
mod table;
mod values;

pub use asks::Asks;
pub use join::joined;
pub use kind::{Interval, Kind};
pub use operators::{of_one, of_two};
pub use table::KindTable;
pub use values::{kind_of_values, literal};
