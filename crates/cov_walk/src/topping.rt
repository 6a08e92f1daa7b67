ghost use Rattle.std.specs.Prelude.{◌≤◌, max};
ghost use Rattle.cov_model.specs.Kinds.{width};
ghost use Rattle.cov_model.specs.Walk as walk;
ghost use Rattle.cov_model.specs.Walk.{Judged};
ghost use Rattle.cov_walk.specs.Found.{Answers};
ghost use Rattle.cov_walk.specs.Wide.{AnswersWide};

use crate::found::Found;
use crate::wide::Wide;
use cov_syntax::Refused;

/// What is found at an expression, given the greatest number of values below it.
pub(crate) fn above(found: Result<Found, Refused>, below: u32) -> Result<Wide, Refused>
    requires { below ≤ 1024 }
    ensures { (j : Judged) (may : walk.May) → Answers j may found → AnswersWide j (max (width j.own) below) may result }
{
    let found = found?;
    let widest = found.own.width().max(below);
    Ok(Wide { found, widest })
}
