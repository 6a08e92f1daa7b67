//! States, and the texts that they are printed as and read from.

ghost use Rattle.std.specs.Prelude.{◌↔◌, ◌<◌, ◌^◌, length, IsTrue, All};

use crate::state_reading::read_values;
use crate::{StateFaultKind, StateRefused, show_state};
use cov_model::{Model, State, Var, is_typed};
use cov_syntax::{Names, NoMemory, Seq, Span, Value};
use std::alloc::Global;
use std::test::Fail;

const NOWHERE: Span = Span { start: 0, stop: 0 };

/// The names of the model: each symbol stands before what it is a value of.
const NAMES: [&str; 7] = ["idle", "work", "rest", "mode", "a.out", "b.out", "ack"];

const TRUTHS: [Value; 2] = [Value::Bool(false), Value::Bool(true)];

const MODES: [Value; 3] = [Value::Sym(0), Value::Sym(1), Value::Sym(2)];

fn put(alloc: Global, vars: &mut Seq<Var>, name: u32, values: &[Value]) -> Result<(), NoMemory> {
    let mut items = Seq::new(alloc);
    items.extend_from_slice(values)?;
    vars.push(Var {
        name,
        values: items,
        place: NOWHERE,
        kind_place: NOWHERE,
    })
}

fn model(alloc: Global, vars: Seq<Var>) -> Result<Model, NoMemory> {
    let mut names = Names::new(alloc);
    for name in NAMES {
        if names.len() < u32::MAX {
            names.add(name.as_bytes())?;
        }
    }
    Ok(Model {
        names,
        vars,
        defines: Seq::new(alloc),
        inits: Seq::new(alloc),
        invars: Seq::new(alloc),
        nows: Seq::new(alloc),
        firsts: Seq::new(alloc),
        nexts: Seq::new(alloc),
        trans: Seq::new(alloc),
        fair: Seq::new(alloc),
        specs: Seq::new(alloc),
    })
}

/// A model without variables.
fn bare(alloc: Global) -> Result<Model, NoMemory> {
    model(alloc, Seq::new(alloc))
}

/// A model with the variable ack.
fn bus(alloc: Global) -> Result<Model, NoMemory> {
    let mut vars = Seq::new(alloc);
    put(alloc, &mut vars, 6, &TRUTHS)?;
    model(alloc, vars)
}

/// A model with the variables mode, a.out and b.out.
fn line(alloc: Global) -> Result<Model, NoMemory> {
    let mut vars = Seq::new(alloc);
    put(alloc, &mut vars, 3, &MODES)?;
    put(alloc, &mut vars, 4, &TRUTHS)?;
    put(alloc, &mut vars, 5, &TRUTHS)?;
    model(alloc, vars)
}

fn prints_as(alloc: Global, m: &Model, places: &[u16], want: &str) -> Result<bool, NoMemory> {
    let mut s = Seq::new(alloc);
    s.extend_from_slice(places)?;
    if !is_typed(m, &s) {
        return Ok(false);
    }
    let mut text = Seq::new(alloc);
    show_state(alloc, m, &s, &mut text)?;
    Ok(text.as_slice() == want.as_bytes())
}

fn have_few_values(vars: &[Var]) -> bool
    ensures { IsTrue result ↔ All (λ x. length x.values < 2 ^ 16) vars.now }
{
    vars.iter().all(|x| x.values.len() < 65536)
}

fn read(alloc: Global, m: &Model, text: &str) -> Result<State, StateRefused> {
    let vars = m.vars.as_slice();
    if have_few_values(vars) {
        read_values(alloc, &m.names, vars, text.as_bytes())
    } else {
        Err(StateRefused::Memory)
    }
}

fn reads_as(alloc: Global, m: &Model, text: &str, places: &[u16]) -> Result<bool, StateRefused> {
    let s = read(alloc, m, text)?;
    Ok(s.as_slice() == places)
}

fn has_fault(read: &Result<State, StateRefused>, kind: StateFaultKind, place: u64) -> bool {
    match read {
        Err(StateRefused::Fault(fault)) => fault.code == kind.code() && fault.place == place,
        _ => false,
    }
}

/// Whether the text has the fault where it should be a state of the model with the variable ack.
fn bus_refuses(
    alloc: Global,
    text: &str,
    kind: StateFaultKind,
    place: u64,
) -> Result<bool, NoMemory> {
    let m = bus(alloc)?;
    let read = read(alloc, &m, text);
    Ok(has_fault(&read, kind, place))
}

fn bare_refuses(alloc: Global, text: &str) -> Result<bool, NoMemory> {
    let m = bare(alloc)?;
    let read = read(alloc, &m, text);
    Ok(has_fault(&read, StateFaultKind::Expected, 0))
}

fn line_prints(alloc: Global, places: &[u16], want: &str) -> Result<bool, NoMemory> {
    let m = line(alloc)?;
    prints_as(alloc, &m, places, want)
}

fn line_reads(alloc: Global, text: &str, places: &[u16]) -> Result<bool, StateRefused> {
    let m = line(alloc)?;
    reads_as(alloc, &m, text, places)
}

fn bare_prints(alloc: Global, want: &str) -> Result<bool, NoMemory> {
    let m = bare(alloc)?;
    prints_as(alloc, &m, &[], want)
}

fn bare_reads(alloc: Global, text: &str) -> Result<bool, StateRefused> {
    let m = bare(alloc)?;
    reads_as(alloc, &m, text, &[])
}

#[test]
fn states_are_printed_so(rt: HostRuntime) -> Result<(), Fail> {
    assert!(rt; line_prints(rt.alloc(), &[0, 0, 0], "mode=idle,a.out=FALSE,b.out=FALSE")?);
    assert!(rt; bare_prints(rt.alloc(), "all")?);
    Ok(())
}

#[test]
fn states_are_read_so(rt: HostRuntime) -> Result<(), Fail> {
    assert!(rt; line_reads(rt.alloc(), "mode=idle,a.out=FALSE,b.out=TRUE", &[0, 0, 1])?);
    assert!(rt; line_reads(rt.alloc(), "mode=rest,a.out=TRUE,b.out=FALSE", &[2, 1, 0])?);
    assert!(rt; bare_reads(rt.alloc(), "all")?);
    Ok(())
}

#[test]
fn other_texts_are_no_states(rt: HostRuntime) -> Result<(), Fail> {
    assert!(rt; bus_refuses(rt.alloc(), "ack=1", StateFaultKind::Value, 4)?);
    assert!(rt; bus_refuses(rt.alloc(), "ack = TRUE", StateFaultKind::Expected, 0)?);
    assert!(rt; bus_refuses(rt.alloc(), "ack=TRUE,ack=TRUE", StateFaultKind::Trailing, 8)?);
    assert!(rt; bare_refuses(rt.alloc(), "all,")?);
    Ok(())
}
