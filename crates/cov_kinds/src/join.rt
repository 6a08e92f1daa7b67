ghost use Rattle.std.specs.Prelude.{◌≡◌, ◌≤◌, IfOk, OnOk, IsTrue, IsFalse, not, map, ◌∷◌, [], ◌<◌, length, position, IfSome};
ghost use Rattle.std.specs.List.{list_all, list_any};
ghost use Rattle.std.specs.Option.{is_some};
ghost use Rattle.cov_model.specs.Values.{same_value};
ghost use Rattle.cov_model.specs.Kinds as spec;
ghost use Rattle.cov_model.specs.Walk.{is_wide};
ghost use Rattle.cov_kinds.specs.Seen.{seen, seen_interval, IsKindOrWide, IsKindOrLong, is_joinable};

use crate::ends::between;
use crate::kind::{Interval, Kind, MOST_VALUES};
use crate::values::same_value;
use cov_syntax::{NoMemory, Seq, Value};
use std::alloc::Global;

/// The kind of branches or members with these kinds: Boolean if one is, else all joined; none where it is too wide.
pub fn joined(alloc: Global, kinds: &[Kind]) -> Result<Option<Kind>, NoMemory>
    requires narrow { IsTrue (list_all (λ k. not (is_wide (seen k))) kinds.now) }
    ensures { IfOk result (λ k. IsKindOrWide k (spec.joined_kind (map seen kinds.now))) }
{
    if has_boolean(kinds) {
        return Ok(Some(Kind::Boolean));
    }
    match kinds.split_first() {
        None => Ok(Some(Kind::Boolean)),
        Some((first, others)) => joined_all(alloc, first.copy(alloc)?, others),
    }
}

/// Whether some kind is Boolean.
fn has_boolean(kinds: &[Kind]) -> bool
    ensures { result ≡ list_any (λ k. spec.is_boolean (seen k)) kinds.now }
{
    kinds.iter().any(|k| k.is_boolean())
}

/// The same of two.
pub(crate) fn joined_two(alloc: Global, left: &Kind, right: &Kind) -> Result<Option<Kind>, NoMemory>
    requires left { IsFalse (is_wide (seen left.now)) }
    requires right { IsFalse (is_wide (seen right.now)) }
    ensures { IfOk result (λ k. IsKindOrWide k (spec.joined_kind (seen left.now ∷ seen right.now ∷ []))) }
{
    if left.is_boolean() || right.is_boolean() {
        return Ok(Some(Kind::Boolean));
    }
    join(alloc, left.copy(alloc)?, right)
}

/// All joined, from left to right. A join has at least as many values as each of the two, so one that is too wide stays so.
fn joined_all(alloc: Global, first: Kind, others: &[Kind]) -> Result<Option<Kind>, NoMemory>
    requires first { IsTrue (is_joinable (seen first)) }
    requires others { IsTrue (list_all (λ k. is_joinable (seen k)) others.now) }
    ensures { IfOk result (λ k. IsKindOrWide k (spec.join_all (seen first) (map seen others.now))) }
{
    let mut all = first;
    for k in others {
        match join(alloc, all, k)? {
            None => return Ok(None),
            Some(joined) => all = joined,
        }
    }
    Ok(Some(all))
}

/// Two joined; none where they have more than 1,024 values together.
fn join(alloc: Global, left: Kind, right: &Kind) -> Result<Option<Kind>, NoMemory>
    requires left { IsTrue (is_joinable (seen left)) }
    requires right { IsTrue (is_joinable (seen right.now)) }
    ensures { IfOk result (λ k. IsKindOrLong k (spec.join (seen left) (seen right.now))) }
{
    if let (Kind::Interval(a), Kind::Interval(b)) = (&left, right) {
        return Ok(hull(*a, *b));
    }
    let values = left.into_values(alloc)?;
    match right {
        Kind::Among(others) => united(values, others.as_slice()),
        _ => united(values, right.values(alloc)?.as_slice()),
    }
}

/// The least interval that has both.
fn hull(a: Interval, b: Interval) -> Option<Kind>
    requires left { IsFalse (is_wide (seen_interval a)) }
    requires right { IsFalse (is_wide (seen_interval b)) }
    ensures { IsKindOrLong result (spec.join (seen_interval a) (seen_interval b)) }
{
    between(i64::from(a.low.min(b.low)), i64::from(a.high.max(b.high)))
}

/// The values, and what the others have besides; none where these are more than 1,024.
fn united(mut values: Seq<Value>, others: &[Value]) -> Result<Option<Kind>, NoMemory>
    requires { length values ≤ 1024 }
    ensures { IfOk result (λ k. IsKindOrLong k (spec.among (spec.united values others.now))) }
{
    let mut guess = 0;
    for x in others {
        match place_of(values.as_slice(), guess, *x) {
            Some(place) => guess = place + 1,
            None => {
                if values.len() >= MOST_VALUES {
                    return Ok(None);
                }
                values.push(*x)?;
            }
        }
    }
    Ok(Some(Kind::Among(values)))
}

/// A place of the value in the list, if it is there. The guess is looked at first: values mostly come in an order that came before.
fn place_of(values: &[Value], guess: usize, x: Value) -> Option<usize>
    ensures found { is_some result ≡ spec.member values.now x }
    ensures within { IfSome result (λ i. i < length values.now) }
{
    if stands_at(values, guess, x) {
        Some(guess)
    } else {
        first_place(values, x)
    }
}

/// Whether the value stands at the place.
fn stands_at(values: &[Value], i: usize, x: Value) -> bool
    ensures within { IsTrue result → i < length values.now }
    ensures found { IsTrue result → IsTrue (spec.member values.now x) }
{
    i < values.len() && same_value(values[i], x)
}

/// The first place of the value.
fn first_place(values: &[Value], x: Value) -> Option<usize>
    ensures { result ≡ position (λ y. same_value y x) values.now }
{
    values.iter().position(|y| same_value(*y, x))
}
