//! The operators of CTL under fairness on sets of pairs, for each inverted state apart: the states that start a fair
//! lasso, EX, E[U] and EG (Emerson and Lei, 1986).
#![tactic(auto)]

mod always;
mod living;
mod operators;
mod until;

pub use operators::{eg, eu, ex, fair};
