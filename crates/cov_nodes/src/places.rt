ghost use Rattle.std.specs.Prelude.{◌≡◌, ◌<◌, ◌≤◌, length, IsTrue, IsFalse, MatchOption, IfSome, position};
ghost use Rattle.cov_model.specs.Types.{has_twice};
ghost use Rattle.cov_model.specs.Values.{item, same_value};
ghost use Rattle.cov_nodes.specs.Numbering.{number_in};

use cov_syntax::Value;

/// Whether two values are the same.
pub(crate) fn same(a: Value, b: Value) -> bool
    ensures { result ≡ same_value a b }
{
    match (a, b) {
        (Value::Bool(x), Value::Bool(y)) => x == y,
        (Value::Int(x), Value::Int(y)) => x == y,
        (Value::Sym(x), Value::Sym(y)) => x == y,
        _ => false,
    }
}

/// The number of a value among others. Where they are integers in a row, it takes no search.
pub(crate) fn place_in(xs: &[Value], x: Value) -> Option<u16>
    requires few { length xs.now ≤ 1024 }
    requires once { IsFalse (has_twice xs.now) }
    ensures { result ≡ number_in xs.now x }
{
    let guess = place_in_row(xs, x);
    if stands_at(xs, guess, x) {
        return Some(guess as u16);
    }
    match first_place(xs, x) {
        Some(i) => Some(i as u16),
        None => None,
    }
}

/// Where an integer stands if the values are integers in a row.
fn place_in_row(xs: &[Value], x: Value) -> usize {
    match (xs.first(), x) {
        (Some(Value::Int(first)), Value::Int(n)) => distance(*first, n),
        _ => 0,
    }
}

/// How far the second number is above the first, or 0.
fn distance(low: i32, high: i32) -> usize {
    if low <= high {
        (high as i64 - low as i64) as usize
    } else {
        0
    }
}

/// Whether the value stands at the place.
fn stands_at(xs: &[Value], i: usize, x: Value) -> bool
    ensures within { IsTrue result → i < length xs.now }
    ensures found { IsTrue result → IsTrue (same_value (item xs.now i) x) }
{
    i < xs.len() && same(xs[i], x)
}

/// The first place of the value.
fn first_place(xs: &[Value], x: Value) -> Option<usize>
    ensures { result ≡ number_in xs.now x }
{
    xs.iter().position(|y| same(*y, x))
}
