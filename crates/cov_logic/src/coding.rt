//! Laws of codings.

ghost use Rattle.cov_logic.specs.CodingLaws.{CodingKeeps, CodingKeepsCoverage};

/// A structure whose states are codes for those of another has the same truths, verdicts and
/// reachable states.
pub fn coding_keeps<S, R, A>()
    ensures { CodingKeeps S R A }
{}

/// And it has the same covered states.
pub fn coding_keeps_coverage<S, R, A>()
    ensures { CodingKeepsCoverage S R A }
{}
