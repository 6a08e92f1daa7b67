ghost use Rattle.std.specs.Prelude.{◌≡◌, ◌≤◌, ◌-◌, IfOk, length, map, take, drop};
ghost use Rattle.cov_conditions.specs.Asked as spec;

use cov_model::Signal;
use cov_syntax::{NoMemory, Seq, Value};
use std::alloc::Global;

/// Whether the flip names the DEFINE.
pub(crate) fn is_inverted(flip: Option<Signal>, i: u32) -> bool
    ensures { result ≡ spec.inverts flip i }
{
    match flip {
        Some(Signal::Def(j)) => j == i,
        Some(Signal::Var(_)) | None => false,
    }
}

/// The value of the body where the DEFINE is read as this one.
pub(crate) fn asked_value(inverted: bool, x: Value) -> Value
    ensures { result ≡ spec.asked inverted x }
{
    match x {
        Value::Bool(b) => Value::Bool(b != inverted),
        Value::Int(n) => Value::Int(n),
        Value::Sym(n) => Value::Sym(n),
    }
}

/// The values of the body where the DEFINE is read as one of these values.
pub(crate) fn asked_values(
    alloc: Global,
    values: &[Value],
    first: usize,
    stop: usize,
    inverted: bool,
) -> Result<Seq<Value>, NoMemory>
    requires order { first ≤ stop }
    requires there { stop ≤ length values.now }
    ensures { IfOk result (λ xs. xs ≡ map (spec.asked inverted) (take (stop - first) (drop first values.now))) }
{
    let mut xs = Seq::new(alloc);
    for k in first..stop {
        xs.push(asked_value(inverted, values[k]))?;
    }
    Ok(xs)
}
