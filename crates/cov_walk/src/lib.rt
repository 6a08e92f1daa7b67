//! The walk over one expression: its first fault or its own kind, and 0 and 1 read as FALSE and TRUE in Boolean places.
#![tactic(auto)]

mod arms;
mod asked;
mod boolean;
mod cases;
mod checking;
mod closed;
mod found;
mod judging;
mod leaves;
mod may;
mod members;
mod misfits;
mod operator;
mod refuse;
mod sets;
mod settling;
mod site;
mod topping;
mod trees;
mod wide;
mod widths;

pub use checking::{check, own_kind};
pub use may::May;
pub use settling::settle;
pub use widths::widest;
