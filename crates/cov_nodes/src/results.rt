ghost use Rattle.std.specs.Prelude.{◌≡◌, int_div};
ghost use Rattle.cov_model.specs.Values as values;
ghost use Rattle.cov_nodes.specs.Choices.{result_of};
ghost use Rattle.cov_nodes.specs.Made as spec;

use crate::places::same;
use cov_syntax::{Op2, Value};

/// A value that an operator makes: a truth, or a number that may have more than 32 bits.
#[derive(Clone, Copy)]
pub(crate) enum Made {
    Truth(bool),
    Number(i64),
}

fn truth(x: Value) -> bool
    ensures { result ≡ values.truth x }
{
    match x {
        Value::Bool(b) => b,
        _ => false,
    }
}

fn number(x: Value) -> i32
    ensures { result ≡ values.number x }
{
    match x {
        Value::Int(n) => n,
        _ => 0,
    }
}

fn quotient(a: i32, b: i32) -> i64
    ensures { result ≡ int_div a b }
{
    if b == 0 { 0 } else { a as i64 / b as i64 }
}

fn remainder(a: i32, b: i32) -> i64
    ensures { result ≡ values.remainder a b }
{
    if b == 0 {
        a as i64
    } else {
        a as i64 % b as i64
    }
}

/// The negative of a value.
pub(crate) fn negative(x: Value) -> Made
    ensures { spec.value_of result ≡ spec.negative x }
{
    Made::Number(-(number(x) as i64))
}

/// What an operator makes of two values.
pub(crate) fn operated(op: Op2, x: Value, y: Value) -> Made
    ensures { spec.value_of result ≡ result_of op x y }
{
    match op {
        Op2::And => Made::Truth(truth(x) && truth(y)),
        Op2::Or => Made::Truth(truth(x) || truth(y)),
        Op2::Xor => Made::Truth(truth(x) != truth(y)),
        Op2::Implies => Made::Truth(!truth(x) || truth(y)),
        Op2::Iff => Made::Truth(truth(x) == truth(y)),
        Op2::Eq | Op2::Member => Made::Truth(same(x, y)),
        Op2::Ne => Made::Truth(!same(x, y)),
        Op2::Lt => Made::Truth(number(x) < number(y)),
        Op2::Le => Made::Truth(number(x) <= number(y)),
        Op2::Gt => Made::Truth(number(y) < number(x)),
        Op2::Ge => Made::Truth(number(y) <= number(x)),
        Op2::Add => Made::Number(number(x) as i64 + number(y) as i64),
        Op2::Sub => Made::Number(number(x) as i64 - number(y) as i64),
        Op2::Mul => Made::Number(number(x) as i64 * number(y) as i64),
        Op2::Div => Made::Number(quotient(number(x), number(y))),
        Op2::Mod => Made::Number(remainder(number(x), number(y))),
        _ => Made::Truth(false),
    }
}
