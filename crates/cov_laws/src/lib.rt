//! Laws that make the definitions easier to believe: what occurrences, paths, verdicts and coverage, and the values of
//! expressions, are in other words. Each is the contract of a function here, whose body has nothing to do; no command
//! calls one.
#![tactic(auto)]

mod lowering;
mod occurrences;
mod remainders;
mod signals;
mod states;
mod trees;
mod verdicts;

pub use lowering::lowered_is_right;
pub use occurrences::{occurrences_are_listed, replaced_stands};
pub use remainders::remainder_is_left;
pub use signals::inverting_is_local;
pub use states::models_are_finite;
pub use trees::same_tree_decides;
pub use verdicts::{conjunction_covers, lassos_are_reachable, nothing_is_covered};
