//! Kinds of a model: it is checked and put in order, and 0 and 1 in Boolean places are read as FALSE and TRUE.
#![tactic(auto)]

mod bits;
mod check;
mod checked;
mod counts;
mod depths;
mod extents;
mod formulas;
mod kinds;
mod laws;
mod named;
mod roots;
mod value_set;
mod values;
mod variables;
mod walk_model;

pub use check::check_kinds;
pub use checked::Checked;
pub use laws::formula_sizes;
