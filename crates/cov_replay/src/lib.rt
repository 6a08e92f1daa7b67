//! The judge of evidence: whether a lasso proves what it is said to prove. It reads the lasso alone, and no set of states.
#![tactic(auto)]

mod bench;
mod columns;
mod judging;
mod operators;
mod places;
mod running;
mod scan;
mod telling;
mod verdict;

pub use bench::Bench;
pub use judging::judge;
pub use verdict::Verdict;
