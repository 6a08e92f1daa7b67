//! Formulas of CTL: an expression with its `<->` and `xor` over CTL operators written out, its size, its occurrences and the linear fragment.
#![tactic(auto)]

mod formula;
mod linear;
mod lowering;
mod nodes;
mod occurrences;
mod replacing;
mod sizing;
mod temporal;

pub use formula::{Formula, constant, size};
pub use linear::is_linear;
pub use lowering::lower;
pub use occurrences::{occurrence, polarity};
pub use replacing::replace;
pub use sizing::lowered_size;
