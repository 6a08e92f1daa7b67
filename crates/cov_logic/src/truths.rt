//! Laws of truth sets.

ghost use Rattle.cov_logic.specs.TruthLaws.{PairsAreExact, TruthIsDecided};

/// The truth set over pairs is the truth in every mutant at once.
pub fn pairs_are_exact<S, A>()
    ensures { PairsAreExact S A }
{}

/// On a finite structure every formula is true or not true at each state.
pub fn truth_is_decided<S, A>()
    ensures { TruthIsDecided S A }
{}
