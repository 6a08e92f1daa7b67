//! Laws of the occurrences of a formula.

ghost use Rattle.cov_laws.specs.Occurrences.{OccurrencesAreListed, ReplacedStands};

/// An occurrence is an entry of the list of a formula and what is below it.
pub fn occurrences_are_listed<A>()
    ensures { OccurrencesAreListed A }
{}

/// What replaces an occurrence stands there afterwards, and what is neither above nor below it stays as it was.
pub fn replaced_stands<A>()
    ensures { ReplacedStands A }
{}
