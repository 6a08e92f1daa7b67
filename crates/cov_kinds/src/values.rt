ghost use Rattle.std.specs.Prelude.{◌≡◌, ◌+ℤ◌, pos, ◌<ℤ◌, IfOk};
ghost use Rattle.cov_model.specs.Kinds as kinds;
ghost use Rattle.cov_model.specs.Values as values;
ghost use Rattle.std.specs.List.{list_all};
ghost use Rattle.cov_kinds.specs.Seen.{seen, seen_interval};

use crate::kind::{Interval, Kind};
use cov_syntax::{NoMemory, Seq, Value};
use std::alloc::Global;

/// The own kind of a literal.
pub fn literal(alloc: Global, value: Value) -> Result<Kind, NoMemory>
    ensures { IfOk result (λ k. seen k ≡ kinds.literal value) }
{
    match value {
        Value::Bool(_) => Ok(Kind::Boolean),
        Value::Int(n) => Ok(Kind::Interval(Interval { low: n, high: n })),
        Value::Sym(_) => {
            let mut values = Seq::new(alloc);
            values.push(value)?;
            Ok(Kind::Among(values))
        }
    }
}

/// The kind of a variable with these values: Boolean, from the least to the greatest integer, or the list.
pub fn kind_of_values(alloc: Global, values: &Seq<Value>) -> Result<Kind, NoMemory>
    ensures { IfOk result (λ k. seen k ≡ kinds.kind_of_values values.now) }
{
    match values.as_slice().first() {
        None => Ok(Kind::Among(Seq::new(alloc))),
        Some(Value::Bool(_)) => Ok(Kind::Boolean),
        Some(first) => {
            if are_integers(values.as_slice()) {
                Ok(Kind::Interval(hull_of(number(*first), &values.as_slice()[1..])))
            } else {
                Ok(Kind::Among(values.copy(alloc)?))
            }
        }
    }
}

fn are_integers(xs: &[Value]) -> bool
    ensures { result ≡ list_all kinds.is_integer xs.now }
{
    xs.iter().all(|x| matches!(x, Value::Int(_)))
}

/// From the least to the greatest of the first and the others.
fn hull_of(first: i32, others: &[Value]) -> Interval
    ensures { seen_interval result ≡ kinds.hull_of first first others.now }
{
    let mut low = first;
    let mut high = first;
    for x in others {
        low = low.min(number(*x));
        high = high.max(number(*x));
    }
    Interval { low, high }
}

fn number(x: Value) -> i32
    ensures { result ≡ values.number x }
{
    match x {
        Value::Int(n) => n,
        _ => 0,
    }
}

/// So many integers from the low end on.
pub(crate) fn integers(alloc: Global, low: i32, count: u32) -> Result<Seq<Value>, NoMemory>
    requires { (low +ℤ pos count) <ℤ pos 2147483648 }
    ensures { IfOk result (λ xs. xs ≡ kinds.integers low count) }
{
    let mut values = Seq::new(alloc);
    let mut n = low;
    for _ in 0..count {
        values.push(Value::Int(n))?;
        n += 1;
    }
    Ok(values)
}

/// Whether two values are the same.
pub(crate) fn same_value(x: Value, y: Value) -> bool
    ensures { result ≡ values.same_value x y }
{
    match (x, y) {
        (Value::Bool(a), Value::Bool(b)) => a == b,
        (Value::Int(a), Value::Int(b)) => a == b,
        (Value::Sym(a), Value::Sym(b)) => a == b,
        _ => false,
    }
}
