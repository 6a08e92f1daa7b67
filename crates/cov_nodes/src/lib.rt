//! The set of one node of an expression, made of the sets of its parts.
#![tactic(auto)]

mod branches;
mod defined;
mod gathered;
mod leaves;
mod operate;
mod places;
mod reading;
mod results;
mod targets;
mod truths;

pub use branches::{put_branch, put_either, put_none};
pub use defined::{Defines, Standing, chunk_size, put_define};
pub use leaves::{put_literal, put_range, put_variable};
pub use operate::{put_negated, put_operated};
pub use reading::Reading;
pub use truths::{put_logic, put_not, put_truth_values};
