//! Laws of flat models: what every program without faults is flattened to.
#![tactic(auto)]

mod limits;
mod models;
mod places;

pub use limits::few_names;
pub use models::flat_is_flat;
pub use places::{defines_have_places, variables_have_places};
