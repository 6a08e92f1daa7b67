//! The DEFINEs of a model in order of dependence, or the first DEFINE that reads itself. No call goes through a chain of DEFINEs by recursion.
#![tactic(auto)]

mod circle;
mod dependence;
mod order;
mod reading;
mod renumber;
mod whole;

pub use whole::put_in_order;
