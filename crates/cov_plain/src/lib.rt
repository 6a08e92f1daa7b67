//! A plain checker of CTL formulas over finite structures whose sets of states are lists of
//! Booleans. It is small and slow, and exact: its answers are truth, verdict and coverage as
//! `cov_logic` defines them, one mutant at a time. No command uses it; other bodies are compared
//! with it.
#![tactic(auto)]

mod booleans;
mod coverage;
mod entries;
mod formula;
mod graph;
mod keeping;
mod labels;
mod lassos;
mod operators;
mod polarity;
mod reaching;
mod truths;
mod verdicts;

pub use coverage::covered;
pub use formula::Formula;
pub use graph::Graph;
pub use labels::Labels;
pub use lassos::is_fair_lasso;
pub use polarity::is_positive;
pub use truths::truth_set;
pub use verdicts::passes;
