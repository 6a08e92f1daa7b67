ghost use Rattle.std.specs.Prelude.{◌≡◌, ◌≤◌, ◌++◌, length, IsTrue, IsFalse, OnOk, IfOk};
ghost use Rattle.cov_syntax.specs.declared.tree.Value.TheVariants as v;
ghost use Rattle.cov_model.specs.Types.{has_twice};
ghost use Rattle.cov_model.specs.Values.{same_value};
ghost use Rattle.cov_nodes.specs.Choices.{result_of};
ghost use Rattle.cov_nodes.specs.Made.{value_of, negative as negative_of};
ghost use Rattle.cov_nodes.specs.Numbering.{number_in};
ghost use Rattle.cov_nodes.specs.Tables.{IsRow, MayBeRow, itself, numbers_of, table_of as table_for};

use crate::places::place_in;
use crate::results::{Made, negative, operated};
use cov_families::Table;
use cov_syntax::{NoMemory, Op2, Seq, Value};
use std::alloc::{AllocError, Global};

/// Whether a value is the number.
fn is_number(x: Value, n: i64) -> bool
    ensures { result ≡ same_value x (v.Int n) }
{
    match x {
        Value::Int(m) => m as i64 == n,
        _ => false,
    }
}

/// Whether the values are integers in a row, from this one on.
fn is_row(xs: &[Value], low: i32) -> bool
    requires { length xs.now ≤ 1024 }
    ensures { IsTrue result → IsRow xs.now low }
{
    for (k, x) in xs.iter().enumerate() {
        if !is_number(*x, low as i64 + k as i64) {
            return false;
        }
    }
    true
}

fn row_from(xs: &[Value], low: i32) -> Option<i32>
    requires { length xs.now ≤ 1024 }
    ensures { MayBeRow xs.now result }
{
    if is_row(xs, low) { Some(low) } else { None }
}

/// Where the values are integers in a row, the first of them.
fn row_of(xs: &[Value]) -> Option<i32>
    requires { length xs.now ≤ 1024 }
    ensures { MayBeRow xs.now result }
{
    match xs.first() {
        Some(Value::Int(low)) => row_from(xs, *low),
        _ => None,
    }
}

fn place_in_row(xs: &[Value], low: i32, n: i64) -> Option<u16>
    requires few { length xs.now ≤ 1024 }
    requires once { IsFalse (has_twice xs.now) }
    requires row { IsRow xs.now low }
    ensures { result ≡ number_in xs.now (v.Int n) }
{
    let low = low as i64;
    if low <= n && n < low + xs.len() as i64 {
        Some((n - low) as u16)
    } else {
        None
    }
}

fn first_place(xs: &[Value], n: i64) -> Option<usize>
    ensures { result ≡ number_in xs.now (v.Int n) }
{
    xs.iter().position(|x| is_number(*x, n))
}

fn searched(xs: &[Value], n: i64) -> Option<u16>
    requires { length xs.now ≤ 1024 }
    ensures { result ≡ number_in xs.now (v.Int n) }
{
    match first_place(xs, n) {
        Some(i) => Some(i as u16),
        None => None,
    }
}

fn place_of_number(xs: &[Value], row: Option<i32>, n: i64) -> Option<u16>
    requires few { length xs.now ≤ 1024 }
    requires once { IsFalse (has_twice xs.now) }
    requires row { MayBeRow xs.now row }
    ensures { result ≡ number_in xs.now (v.Int n) }
{
    match row {
        Some(low) => place_in_row(xs, low, n),
        None => searched(xs, n),
    }
}

/// The number of a value among others, which may be integers in a row.
fn place_of(xs: &[Value], row: Option<i32>, x: Made) -> Option<u16>
    requires few { length xs.now ≤ 1024 }
    requires once { IsFalse (has_twice xs.now) }
    requires row { MayBeRow xs.now row }
    ensures { result ≡ number_in xs.now (value_of x) }
{
    match x {
        Made::Truth(b) => place_in(xs, Value::Bool(b)),
        Made::Number(n) => place_of_number(xs, row, n),
    }
}

/// For each value, its number among others.
pub(crate) fn own_targets(
    alloc: Global,
    xs: &[Value],
    results: &[Value],
) -> Result<Vec<Option<u16>>, AllocError>
    requires few { length results.now ≤ 1024 }
    requires once { IsFalse (has_twice results.now) }
    ensures { IfOk result (λ targets. targets.items ≡ numbers_of itself xs.now results.now) }
{
    xs.iter().map(|x| place_in(results, *x)).collect(alloc)
}

/// For each value, the number of its negative among others.
pub(crate) fn negative_targets(
    alloc: Global,
    xs: &[Value],
    results: &[Value],
) -> Result<Vec<Option<u16>>, AllocError>
    requires few { length results.now ≤ 1024 }
    requires once { IsFalse (has_twice results.now) }
    ensures { IfOk result (λ targets. targets.items ≡ numbers_of negative_of xs.now results.now) }
{
    let row = row_of(results);
    xs.iter()
        .map(|x| place_of(results, row, negative(*x)))
        .collect(alloc)
}

/// For each value of the second list, the number of what the operator makes of the first value and of it.
fn push_row(
    targets: &mut Seq<Option<u16>>,
    op: Op2,
    x: Value,
    ys: &[Value],
    results: &[Value],
    row: Option<i32>,
) -> Result<(), NoMemory>
    requires few { length results.now ≤ 1024 }
    requires once { IsFalse (has_twice results.now) }
    requires row { MayBeRow results.now row }
    ensures { OnOk result (targets.new ≡ targets.old ++ numbers_of (λ y. result_of op x y) ys.now results.now) }
{
    for y in ys {
        targets.push(place_of(results, row, operated(op, x, *y)))?;
    }
    Ok(())
}

/// The table of an operator.
pub(crate) fn table_of(
    alloc: Global,
    op: Op2,
    xs: &[Value],
    ys: &[Value],
    results: &[Value],
) -> Result<Table, NoMemory>
    requires rows { length xs.now ≤ 1024 }
    requires columns { length ys.now ≤ 1024 }
    requires few { length results.now ≤ 1024 }
    requires once { IsFalse (has_twice results.now) }
    ensures { IfOk result (λ t. t ≡ table_for op xs.now ys.now results.now) }
{
    let row = row_of(results);
    let mut targets = Seq::new(alloc);
    for x in xs {
        push_row(&mut targets, op, *x, ys, results, row)?;
    }
    Ok(Table {
        rows: xs.len() as u16,
        columns: ys.len() as u16,
        targets,
    })
}
