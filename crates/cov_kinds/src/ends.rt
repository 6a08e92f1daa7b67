ghost use Rattle.std.specs.Prelude.{◌≡◌, ◌≢◌, pos, ◌≤ℤ◌, ◌+ℤ◌, ◌-ℤ◌, ◌*ℤ◌, int_div, IsFalse};
ghost use Rattle.std.specs.Int.{int_min, int_max};
ghost use Rattle.cov_model.specs.Kinds as kinds;
ghost use Rattle.cov_model.specs.Walk.{has_zero, is_wide};
ghost use Rattle.cov_syntax.specs.declared.tree.Op2.TheVariants as op2;
ghost use Rattle.cov_kinds.specs.Seen.{IsKindOrWide, seen_interval};

use crate::kind::{Interval, Kind};

/// Whether an end is outside the language's limits, or more than 1,024 integers lie between the ends.
pub(crate) fn are_wide(low: i64, high: i64) -> bool
    requires { low ≤ℤ high }
    ensures { result ≡ is_wide (kinds.interval low high) }
{
    low < -1_000_000 || high > 1_000_000 || high - low >= 1024
}

/// The kind of the integers from one to another.
pub(crate) fn between(low: i64, high: i64) -> Option<Kind>
    requires { low ≤ℤ high }
    ensures { IsKindOrWide result (kinds.interval low high) }
{
    if are_wide(low, high) {
        None
    } else {
        Some(Kind::Interval(Interval {
            low: low as i32,
            high: high as i32,
        }))
    }
}

/// The least interval that has the four numbers.
fn hull(p: i64, q: i64, r: i64, s: i64) -> Option<Kind>
    ensures { IsKindOrWide result (kinds.interval (int_min (int_min p q) (int_min r s)) (int_max (int_max p q) (int_max r s))) }
{
    between(p.min(q).min(r.min(s)), p.max(q).max(r.max(s)))
}

/// What has the sums.
pub(crate) fn sums(a: Interval, b: Interval) -> Option<Kind>
    ensures { IsKindOrWide result (kinds.own_of_two op2.Add (seen_interval a) (seen_interval b)) }
{
    hull(
        sum(a.low, b.low),
        sum(a.low, b.high),
        sum(a.high, b.low),
        sum(a.high, b.high),
    )
}

/// What has the differences.
pub(crate) fn differences(a: Interval, b: Interval) -> Option<Kind>
    ensures { IsKindOrWide result (kinds.own_of_two op2.Sub (seen_interval a) (seen_interval b)) }
{
    hull(
        difference(a.low, b.low),
        difference(a.low, b.high),
        difference(a.high, b.low),
        difference(a.high, b.high),
    )
}

/// What has the products.
pub(crate) fn products(a: Interval, b: Interval) -> Option<Kind>
    ensures { IsKindOrWide result (kinds.own_of_two op2.Mul (seen_interval a) (seen_interval b)) }
{
    hull(
        product(a.low, b.low),
        product(a.low, b.high),
        product(a.high, b.low),
        product(a.high, b.high),
    )
}

/// What has the quotients, which are rounded toward zero.
pub(crate) fn quotients(a: Interval, b: Interval) -> Option<Kind>
    requires divisor { IsFalse (has_zero (seen_interval b)) }
    ensures { IsKindOrWide result (kinds.own_of_two op2.Div (seen_interval a) (seen_interval b)) }
{
    hull(
        quotient(a.low, b.low),
        quotient(a.low, b.high),
        quotient(a.high, b.low),
        quotient(a.high, b.high),
    )
}

fn sum(x: i32, y: i32) -> i64
    ensures { result ≡ x +ℤ y }
{
    i64::from(x) + i64::from(y)
}

fn difference(x: i32, y: i32) -> i64
    ensures { result ≡ x -ℤ y }
{
    i64::from(x) - i64::from(y)
}

fn product(x: i32, y: i32) -> i64
    ensures { result ≡ x *ℤ y }
{
    i64::from(x) * i64::from(y)
}

fn quotient(x: i32, y: i32) -> i64
    requires { y ≢ pos 0 }
    ensures { result ≡ int_div x y }
{
    i64::from(x) / i64::from(y)
}
