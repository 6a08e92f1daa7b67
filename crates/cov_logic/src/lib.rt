//! What is true of a finite structure: lassos, truth of a CTL formula, verdict, coverage, vacuity,
//! and what one lasso proves. The definitions stand in `specs/`, one to a file, over any type of
//! states and of atoms. Each law about them is the contract of a function here, whose body has
//! nothing to do.
#![tactic(auto)]

mod coding;
mod evidence;
mod fixpoints;
mod lassos;
mod occurrences;
mod truths;

pub use coding::{coding_keeps, coding_keeps_coverage};
pub use evidence::{
    evidence_is_sound, failure_is_refuted, labels_decide, plain_is_linear, plain_is_told,
    refuted_fails, refuting_goes_through,
};
pub use fixpoints::{kept_is_greatest, until_is_least, until_is_path};
pub use lassos::{joined_is_fair, lasso_repeats, next_place, suffix_is_fair};
pub use occurrences::{monotone_by_polarity, occurrences_are_nodes, one_constant_decides};
pub use truths::{pairs_are_exact, truth_is_decided};
