//! Laws of the occurrences of a formula.

ghost use Rattle.cov_logic.specs.OccurrenceLaws.{OccurrencesAreNodes, MonotoneByPolarity};
ghost use Rattle.cov_logic.specs.OccurrenceLaws.{OneConstantDecides};

/// The occurrences are the numbers from 1 to the size, and replacing is done at them alone.
pub fn occurrences_are_nodes<A>()
    ensures { OccurrencesAreNodes A }
{}

/// A formula is monotone in each occurrence, upward in a positive one and downward in a negative
/// one (Kupferman and Vardi 1999).
pub fn monotone_by_polarity<S, A>()
    ensures { MonotoneByPolarity S A }
{}

/// One constant decides whether an occurrence is vacuous, for all formulas in its place (Kupferman
/// and Vardi 1999).
pub fn one_constant_decides<S, A>()
    ensures { OneConstantDecides S A }
{}
