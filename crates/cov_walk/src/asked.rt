ghost use Rattle.std.specs.Prelude.{◌≡◌, ◌||◌, if◌then◌else◌};
ghost use Rattle.cov_model.specs.Kinds as kinds;
ghost use Rattle.cov_model.specs.Walk as walk;
ghost use Rattle.cov_walk.specs.Places.{asked};

use cov_kinds::Asks;
use cov_syntax::{Op1, Op2};

/// Whether it is a CTL operator.
pub(crate) fn is_temporal_one(op: Op1) -> bool
    ensures { result ≡ walk.is_temporal_one op }
{
    !matches!(op, Op1::Not | Op1::Neg | Op1::Next)
}

/// Whether it is a CTL operator.
pub(crate) fn is_temporal_two(op: Op2) -> bool
    ensures { result ≡ walk.is_temporal_two op }
{
    matches!(op, Op2::Au | Op2::Eu)
}

/// Whether it has a divisor.
pub(crate) fn divides(op: Op2) -> bool
    ensures { result ≡ walk.divides op }
{
    matches!(op, Op2::Div | Op2::Mod)
}

/// What an operator asks of its one operand.
pub(crate) fn asked_of_one(op: Op1) -> Option<Asks>
    ensures { asked result ≡ walk.asked_of_one op }
{
    match op {
        Op1::Neg => Some(Asks::Number),
        Op1::Next => None,
        _ => Some(Asks::Truth),
    }
}

/// A Boolean where the test holds, and else nothing.
pub(crate) fn truth_if(b: bool) -> Option<Asks>
    ensures { asked result ≡ (if b then Some walk.truth else None) }
{
    if b { Some(Asks::Truth) } else { None }
}

/// What an operator asks of both operands, by whether one of them is Boolean.
pub(crate) fn asked_of_two(op: Op2, one_side: bool) -> Option<Asks>
    ensures { (a b : kinds.Kind) → (kinds.is_boolean a || kinds.is_boolean b) ≡ one_side → asked result ≡ walk.asked_of_two op a b }
{
    match op {
        Op2::Eq | Op2::Ne | Op2::Member | Op2::Union => truth_if(one_side),
        Op2::Lt | Op2::Le | Op2::Gt | Op2::Ge => Some(Asks::Number),
        Op2::Add | Op2::Sub | Op2::Mul | Op2::Div | Op2::Mod => Some(Asks::Number),
        _ => Some(Asks::Truth),
    }
}
