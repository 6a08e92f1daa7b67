ghost use Rattle.std.specs.Prelude.{◌≡◌, pos, ◌<◌, ◌-ℤ◌, neg_ℤ, int_lt, ◌≤ℤ◌, if◌then◌else◌, IsFalse};
ghost use Rattle.std.specs.Int.{int_min, int_max};
ghost use Rattle.cov_model.specs.Kinds as kinds;
ghost use Rattle.cov_model.specs.Walk.{has_zero};
ghost use Rattle.cov_kinds.specs.Seen.{IsKindOrWide, seen_interval};

use crate::ends::between;
use crate::kind::{Interval, Kind};

/// What has the remainders: they have the sign of the dividend, do not pass it, and are smaller than the divisor.
pub(crate) fn remainders(a: Interval, b: Interval) -> Option<Kind>
    requires divisor { IsFalse (has_zero (seen_interval b)) }
    ensures { IsKindOrWide result (kinds.remainders (seen_interval a) (seen_interval b)) }
{
    let reach = reach(b);
    between(least(a, reach), greatest(a, reach))
}

/// The greatest absolute value.
fn reach(b: Interval) -> u32
    requires divisor { IsFalse (has_zero (seen_interval b)) }
    ensures value { result ≡ kinds.reach (seen_interval b) }
    ensures positive { 0 < result }
{
    b.low.unsigned_abs().max(b.high.unsigned_abs())
}

/// The least remainder of the dividends, where no divisor passes `reach`.
fn least(a: Interval, reach: u32) -> i64
    requires { 0 < reach }
    ensures value { result ≡ (if int_lt a.low (pos 0) then int_max a.low (neg_ℤ (pos reach -ℤ pos 1)) else pos 0) }
    ensures at_most { result ≤ℤ pos 0 }
{
    if a.low < 0 {
        i64::from(a.low).max(1 - i64::from(reach))
    } else {
        0
    }
}

/// The greatest remainder of the dividends, where no divisor passes `reach`.
fn greatest(a: Interval, reach: u32) -> i64
    requires { 0 < reach }
    ensures value { result ≡ (if int_lt (pos 0) a.high then int_min a.high (pos reach -ℤ pos 1) else pos 0) }
    ensures at_least { pos 0 ≤ℤ result }
{
    if a.high > 0 {
        i64::from(a.high).min(i64::from(reach) - 1)
    } else {
        0
    }
}
