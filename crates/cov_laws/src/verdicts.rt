//! Laws of verdicts, reachable states and coverage.

ghost use Rattle.cov_laws.specs.Verdicts.{ConjunctionCovers, LassosAreReachable, NothingIsCovered};

/// Each state of a fair lasso from an initial state is reachable.
pub fn lassos_are_reachable<S>()
    ensures { LassosAreReachable S }
{}

/// Without an initial state that starts a fair lasso every formula passes, and so nothing is covered.
pub fn nothing_is_covered<S, A>()
    ensures { NothingIsCovered S A }
{}

/// Where both sides of a conjunction pass, it covers exactly what one of them covers.
pub fn conjunction_covers<S, A>()
    ensures { ConjunctionCovers S A }
{}
