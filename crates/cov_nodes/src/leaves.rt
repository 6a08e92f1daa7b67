ghost use Rattle.std.specs.Prelude.{◌≡◌, ◌<◌, ◌≤◌, ◌+◌, ◌*◌, length, map, IsFalse, IfOk, OnOk, IfErr};
ghost use Rattle.cov_bits.specs.Layout as layout;
ghost use Rattle.cov_model.specs.declared.model.Model as model;
ghost use Rattle.cov_model.specs.Meaning as meaning;
ghost use Rattle.cov_model.specs.Values as values;
ghost use Rattle.cov_model.specs.Types.{has_twice};
ghost use Rattle.cov_space.specs.Sets.{HasRoom};
ghost use Rattle.cov_space.specs.Answers.{IsCallFault};
ghost use Rattle.cov_nodes.specs.Choices.{IsChunk, PutsFamily};
ghost use Rattle.cov_nodes.specs.Numbering.{number_in};
ghost use Rattle.cov_nodes.specs.Steps.{inverts, read_as};
ghost use Rattle.cov_nodes.specs.declared.reading.Reading as reading;

use crate::places::{place_in, same};
use crate::reading::Reading;
use cov_bits::Plan;
use cov_families::{index_of, put_listed, put_read};
use cov_fields::field_of;
use cov_model::{Model, Signal};
use cov_space::{Space, SpaceFault};
use cov_syntax::Value;
use std::alloc::{AllocError, Global};

/// For each value, whether it is the same as this one.
fn same_picks(alloc: Global, x: Value, xs: &[Value]) -> Result<Vec<bool>, AllocError>
    ensures { IfOk result (λ picks. picks.items ≡ map (λ y. values.same_value x y) xs.now) }
{
    xs.iter().map(|y| same(x, *y)).collect(alloc)
}

/// Whether the value is an integer of the range.
fn within(low: i32, high: i32, x: Value) -> bool
    ensures { result ≡ values.within low high x }
{
    match x {
        Value::Int(n) => low <= n && n <= high,
        _ => false,
    }
}

/// For each value, whether it is an integer of the range.
fn range_picks(alloc: Global, low: i32, high: i32, xs: &[Value]) -> Result<Vec<bool>, AllocError>
    ensures { IfOk result (λ picks. picks.items ≡ map (λ y. values.within low high y) xs.now) }
{
    xs.iter().map(|y| within(low, high, *y)).collect(alloc)
}

/// Whether the signal is the variable.
fn is_inverted(flip: Option<Signal>, var: u32) -> bool
    ensures { result ≡ inverts flip var }
{
    match flip {
        Some(Signal::Var(i)) => i == var,
        _ => false,
    }
}

/// A value as it is read.
fn read(inverted: bool, x: Value) -> Value
    ensures { result ≡ read_as inverted x }
{
    match x {
        Value::Bool(b) => Value::Bool(b != inverted),
        _ => x,
    }
}

/// For each value of a variable, its number among others as it is read.
fn numbers(
    alloc: Global,
    inverted: bool,
    values: &[Value],
    xs: &[Value],
) -> Result<Vec<Option<u16>>, AllocError>
    requires few { length xs.now ≤ 1024 }
    requires once { IsFalse (has_twice xs.now) }
    ensures { IfOk result (λ targets. targets.items ≡ map (λ y. number_in xs.now (read_as inverted y)) values.now) }
{
    values
        .iter()
        .map(|y| place_in(xs, read(inverted, *y)))
        .collect(alloc)
}

/// Puts the family of a literal.
pub fn put_literal(alloc: Global, sp: &mut Space, x: Value, xs: &[Value]) -> Result<(), SpaceFault>
    requires chunk { IsChunk sp.old.levels xs.now }
    requires room { HasRoom sp.old 12 }
    ensures ok { (m : model.Model) (at : reading.Reading) → OnOk result (PutsFamily sp.old sp.new m at xs.now (λ p y. values.same_value x y)) }
    ensures err { IfErr result (λ e. IsCallFault sp.old sp.new e) }
{
    let Ok(picks) = same_picks(alloc, x, xs) else {
        return Err(SpaceFault::Memory);
    };
    put_listed(sp, picks.as_slice())
}

/// Puts the family of a range, whose choices are its integers.
pub fn put_range(
    alloc: Global,
    sp: &mut Space,
    low: i32,
    high: i32,
    xs: &[Value],
) -> Result<(), SpaceFault>
    requires chunk { IsChunk sp.old.levels xs.now }
    requires room { HasRoom sp.old 12 }
    ensures ok { (m : model.Model) (at : reading.Reading) → OnOk result (PutsFamily sp.old sp.new m at xs.now (λ p y. values.within low high y)) }
    ensures err { IfErr result (λ e. IsCallFault sp.old sp.new e) }
{
    let Ok(picks) = range_picks(alloc, low, high, xs) else {
        return Err(SpaceFault::Memory);
    };
    put_listed(sp, picks.as_slice())
}

/// Puts the family of a variable, inverted where it is the signal.
pub fn put_variable(
    alloc: Global,
    sp: &mut Space,
    m: &Model,
    plan: &Plan,
    at: Reading,
    var: u32,
    xs: &[Value],
) -> Result<(), SpaceFault>
    requires plan { plan.now ≡ layout.sizes m.now.vars }
    requires levels { sp.old.levels ≡ 3 * layout.bits plan.now }
    requires variable { var < length m.now.vars }
    requires chunk { IsChunk sp.old.levels xs.now }
    requires room { HasRoom sp.old 12 }
    ensures ok { OnOk result (PutsFamily sp.old sp.new m.now at xs.now (λ p y. values.same_value (meaning.variable p.present var) y)) }
    ensures err { IfErr result (λ e. IsCallFault sp.old sp.new e) }
{
    let _bits = plan.bits();
    let inverted = is_inverted(at.flip, var);
    let values = m.vars.get(var as usize).values.as_slice();
    let Ok(targets) = numbers(alloc, inverted, values, xs) else {
        return Err(SpaceFault::Memory);
    };
    put_read(
        sp,
        field_of(plan, var, at.present),
        index_of(xs.len() as u16),
        targets.as_slice(),
    )
}
