ghost use Rattle.std.specs.Prelude.{◌≡◌, neg_ℤ, IfOk, IsTrue, IsFalse};
ghost use Rattle.cov_model.specs.Kinds.{interval, own_of_one, own_of_two};
ghost use Rattle.cov_model.specs.Walk.{divides, has_zero, is_wide};
ghost use Rattle.cov_kinds.specs.Seen.{seen, seen_interval, IsKindOrWide};

use crate::ends::{differences, products, quotients, sums};
use crate::join::joined_two;
use crate::kind::{Interval, Kind};
use crate::remainder::remainders;
use cov_syntax::{NoMemory, Op1, Op2};
use std::alloc::Global;

/// The own kind of an operator with one operand, by its operand's; none where it is too wide.
pub fn of_one(op: Op1, operand: Kind) -> Option<Kind>
    requires narrow { IsFalse (is_wide (seen operand)) }
    ensures { IsKindOrWide result (own_of_one op (seen operand)) }
{
    match op {
        Op1::Next => Some(operand),
        Op1::Neg => Some(negative(operand.ends())),
        _ => Some(Kind::Boolean),
    }
}

/// What has the negatives.
fn negative(a: Interval) -> Kind
    requires narrow { IsFalse (is_wide (seen_interval a)) }
    ensures { seen result ≡ interval (neg_ℤ a.high) (neg_ℤ a.low) }
{
    Kind::Interval(Interval {
        low: -a.high,
        high: -a.low,
    })
}

/// The own kind of an operator with two operands, by its operands'; none where it is too wide.
pub fn of_two(alloc: Global, op: Op2, left: &Kind, right: &Kind) -> Result<Option<Kind>, NoMemory>
    requires left { IsFalse (is_wide (seen left.now)) }
    requires right { IsFalse (is_wide (seen right.now)) }
    requires divisor { IsTrue (divides op) → IsFalse (has_zero (seen right.now)) }
    ensures { IfOk result (λ k. IsKindOrWide k (own_of_two op (seen left.now) (seen right.now))) }
{
    match op {
        Op2::Add => Ok(sums(left.ends(), right.ends())),
        Op2::Sub => Ok(differences(left.ends(), right.ends())),
        Op2::Mul => Ok(products(left.ends(), right.ends())),
        Op2::Div => Ok(quotients(left.ends(), right.ends())),
        Op2::Mod => Ok(remainders(left.ends(), right.ends())),
        Op2::Union => joined_two(alloc, left, right),
        _ => Ok(Some(Kind::Boolean)),
    }
}
