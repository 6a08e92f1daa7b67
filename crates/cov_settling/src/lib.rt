//! Laws of settled expressions: what stays where 0 and 1 are read as FALSE and TRUE in Boolean places.
#![tactic(auto)]

mod expressions;
mod keeping;
mod models;

pub use expressions::{fits_again, no_fault, same_own, settled_twice};
pub use keeping::{same_cites, same_depth, same_place, same_reads, same_size};
pub use models::{
    flat_again, passes_again, same_circular, same_formulas, same_kinds, same_reads_of,
    settled_again,
};
