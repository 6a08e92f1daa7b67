//! Lists of sets of bit rows, kept as diagrams in one table with a node budget.
#![tactic(auto)]

mod fault;
mod layer;
mod meter;
mod quantify;
mod shift;
mod slots;
mod space;
mod steps;
mod task;

pub use cov_dd::NoMemory;
pub use fault::{NodesFull, SpaceFault};
pub use layer::Layer;
pub use meter::Meter;
pub use slots::{Slot, Slots};
pub use space::Space;
