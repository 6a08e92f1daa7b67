//! What is claimed of a model, in its own words: truth under an inverted signal, verdicts, coverage, vacuity, and what a lasso is
//! evidence of. The definitions stand below all diagrams, so that the engine and the judge of evidence cite the same ones.
#![tactic(auto)]

mod evidence;
mod refuted;

pub use evidence::{Claim, Evidence};
pub use refuted::hardest;
