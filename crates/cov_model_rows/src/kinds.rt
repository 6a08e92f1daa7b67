ghost use Rattle.std.specs.Prelude.{◌≡◌, ◌≤ℤ◌};
ghost use Rattle.cov_model.specs.Kinds.{interval};
ghost use Rattle.cov_kinds.specs.Seen.{seen};

use cov_kinds::{Interval, Kind, KindTable, joined, literal, of_one, of_two};
use cov_model::Var;
use cov_syntax::{NoMemory, Op1, Op2, Seq, Span, Value};
use std::alloc::Global;
use std::test::Fail;

fn number(low: i32, high: i32) -> Kind
    requires { low ≤ℤ high }
    ensures { seen result ≡ interval low high }
{
    Kind::Interval(Interval { low, high })
}

fn ends(kind: Option<Kind>) -> Option<(i32, i32)> {
    match &kind {
        Some(Kind::Interval(interval)) => Some((interval.low, interval.high)),
        _ => None,
    }
}

fn list_of_two(alloc: Global, a: Value, b: Value) -> Result<Seq<Value>, NoMemory> {
    let mut values = Seq::new(alloc);
    values.push(a)?;
    values.push(b)?;
    Ok(values)
}

/// The kinds of a variable with the values 3 and 1, and of a DEFINE that is a symbol.
fn kinds_of_names(alloc: Global) -> Result<KindTable, NoMemory> {
    let place = Span { start: 0, stop: 0 };
    let mut vars = Seq::new(alloc);
    vars.push(Var {
        name: 0,
        values: list_of_two(alloc, Value::Int(3), Value::Int(1))?,
        place,
        kind_place: place,
    })?;
    let mut table = KindTable::of_variables(alloc, &vars)?;
    table.push(literal(alloc, Value::Sym(7))?)?;
    Ok(table)
}

fn joined_values(alloc: Global, a: Kind, b: Kind) -> Result<Seq<Value>, NoMemory> {
    if a.is_wide() || b.is_wide() {
        return Ok(Seq::new(alloc));
    }
    match joined(alloc, &[a, b])? {
        None => Ok(Seq::new(alloc)),
        Some(kind) => kind.values(alloc),
    }
}

/// The ends of an operator's interval on -5..10 and 3..4.
fn ends_of(alloc: Global, op: Op2) -> Result<Option<(i32, i32)>, NoMemory> {
    let a = number(-5, 10);
    let b = number(3, 4);
    Ok(ends(of_two(alloc, op, &a, &b)?))
}

#[test]
fn intervals_have_every_result(rt: HostRuntime) -> Result<(), Fail> {
    for (op, low, high) in [
        (Op2::Add, -2, 14),
        (Op2::Sub, -9, 7),
        (Op2::Mul, -20, 40),
        (Op2::Div, -1, 3),
        (Op2::Mod, -3, 3),
        (Op2::Union, -5, 10),
    ] {
        assert_eq!(rt; ends_of(rt.alloc(), op)?, Some((low, high)));
    }
    assert_eq!(rt; ends(of_one(Op1::Neg, number(-5, 10))), Some((-10, 5)));
    Ok(())
}

#[test]
fn kinds_of_names_join(rt: HostRuntime) -> Result<(), Fail> {
    let alloc = rt.alloc();
    let table = kinds_of_names(alloc)?;
    let var = table.var(0).ok_or("no variable")?;
    let define = table.def(0).ok_or("no DEFINE")?;
    let values = joined_values(alloc, var.copy(alloc)?, define.copy(alloc)?)?;
    let all = [Value::Int(1), Value::Int(2), Value::Int(3), Value::Sym(7)];
    assert_eq!(rt; values.as_slice(), all.as_slice());
    Ok(())
}
