ghost use Rattle.std.specs.Prelude.{◌≡◌, [], IfOk, IsTrue, length, take, slice_get, unwrap_or};
ghost use Rattle.cov_model.specs.Machine as spec;
ghost use Rattle.cov_model.specs.States as states;

use crate::eval::{item, value};
use crate::model::{Define, Model, Signal, State, Var};
use cov_syntax::{NoMemory, Seq, Value};
use std::alloc::Global;

/// What is read in one state: the values of the variables, those of the first `known` DEFINEs, and the signal whose readings are inverted.
#[derive(Drop)]
pub(crate) struct Frame {
    pub(crate) vars: Seq<Value>,
    pub(crate) defines: Seq<Value>,
    pub(crate) known: usize,
    pub(crate) flip: Option<Signal>,
}

/// A frame with a place for each variable and each DEFINE.
pub(crate) fn frame_for(alloc: Global, m: &Model) -> Result<Frame, NoMemory>
    ensures { IfOk result (λ r. spec.HasRoom m.now r) }
{
    let vars = values(alloc, m.vars.len())?;
    let defines = values(alloc, m.defines.len())?;
    Ok(Frame {
        vars,
        defines,
        known: 0,
        flip: None,
    })
}

/// So many values.
fn values(alloc: Global, n: usize) -> Result<Seq<Value>, NoMemory>
    ensures { IfOk result (λ xs. length xs ≡ n) }
{
    let mut xs = Seq::new(alloc);
    for _ in 0..n {
        xs.push(Value::Bool(false))?;
    }
    Ok(xs)
}

/// Reads a typed state: the values of its variables, and those of the DEFINEs in their order, each of which may read those before it.
pub(crate) fn read(m: &Model, r: &mut Frame, s: &State, flip: Option<Signal>)
    requires room { spec.HasRoom m.now r.old }
    requires typed { IsTrue (states.is_typed m.now s.now) }
    ensures room { spec.HasRoom m.now r.new }
    ensures read { spec.readings_of r.new ≡ spec.readings_in m.now s.now flip }
{
    r.flip = flip;
    read_variables(m.vars.as_slice(), s.as_slice(), &mut r.vars);
    read_defines(m.defines.as_slice(), r);
}

/// Puts the values at these places.
fn read_variables(vars: &[Var], s: &[u16], values: &mut Seq<Value>)
    requires room { length values.old ≡ length vars.now }
    requires typed { IsTrue (states.fits vars.now s.now) }
    ensures room { length values.new ≡ length vars.now }
    ensures read { values.new ≡ states.values_at vars.now s.now }
{
    for (i, x) in vars.iter().enumerate() {
        let v = item(x.values.as_slice(), place_of(s, i));
        values.replace(i, v);
    }
}

fn place_of(s: &[u16], i: usize) -> u32
    ensures { result ≡ unwrap_or (slice_get s.now i) 0 }
{
    s.get(i).copied().map(u32::from).unwrap_or(0)
}

/// Puts the values of the DEFINEs. Each is read where those before it are known.
fn read_defines(defines: &[Define], r: &mut Frame)
    requires { length r.old.defines ≡ length defines.now }
    ensures room { length r.new.defines ≡ length defines.now }
    ensures defines { take r.new.known r.new.defines ≡ spec.define_values defines.now r.old.vars r.old.flip [] }
    ensures vars { r.new.vars ≡ r.old.vars }
    ensures flip { r.new.flip ≡ r.old.flip }
{
    r.known = 0;
    for (i, d) in defines.iter().enumerate() {
        let v = value(&d.body, &*r, &*r);
        r.defines.replace(i, v);
        r.known = i + 1;
    }
}
