use cov_model::{Lasso, Signal, State};

/// What a lasso is evidence of.
#[derive(Drop)]
pub enum Claim {
    /// The specification does not pass where the signal is inverted at this state alone.
    Mutant { signal: Signal, at: State },
    /// The specification does not pass with the constant in the place of this occurrence, from 1.
    Occurrence(u32),
}

/// A lasso as evidence of a claim on a specification, which has its number, from 1.
#[derive(Drop)]
pub struct Evidence {
    pub claim: Claim,
    pub spec: u32,
    pub lasso: Lasso,
}
