//! The truth of CTL formulas under fairness for all pairs of a typed state and a state of a model at once.
#![tactic(auto)]

mod boolean;
mod every;
mod holding;
mod paths;
mod preparing;
mod refuting;
mod some;
mod truth;

pub use holding::hold;
pub use preparing::prepare;
pub use refuting::refuted;
