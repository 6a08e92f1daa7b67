ghost use Rattle.std.specs.Prelude.{◌≡◌, ◌<◌, length, IsTrue};
ghost use Rattle.cov_model.specs.Atoms.{IsAtomOf};
ghost use Rattle.cov_model.specs.Machine as spec;
ghost use Rattle.cov_model.specs.States as states;
ghost use Rattle.cov_model.specs.WellFormed.{IsWellFormed};

use crate::eval::{allows, item, truth, value};
use crate::frame::{Frame, read};
use crate::model::{Assign, Model, Signal, State, Var};
use crate::scratch::Scratch;
use cov_syntax::{Expr, Seq, Value};

/// Whether the state has one place for each variable, each below the number of its values.
pub fn is_typed(m: &Model, s: &State) -> bool
    ensures { result ≡ states.is_typed m.now s.now }
{
    fits(m.vars.as_slice(), s.as_slice())
}

/// Whether the typed state is a state of the model: every INVAR is true, and each `x :=` is obeyed.
pub fn is_state(m: &Model, sc: &mut Scratch, s: &State) -> bool
    requires formed { IsWellFormed m.now }
    requires made { spec.IsScratchOf m.now sc.old }
    requires typed { IsTrue (states.is_typed m.now s.now) }
    ensures value { result ≡ states.is_state m.now s.now }
    ensures kept { spec.IsScratchOf m.now sc.new }
{
    read(m, &mut sc.present, s, None);
    meets(m, &sc.present)
}

/// Whether the typed state is an initial state: a state in which every INIT is true and each `init(x) :=` is obeyed.
pub fn is_initial(m: &Model, sc: &mut Scratch, s: &State) -> bool
    requires formed { IsWellFormed m.now }
    requires made { spec.IsScratchOf m.now sc.old }
    requires typed { IsTrue (states.is_typed m.now s.now) }
    ensures value { result ≡ states.is_initial m.now s.now }
    ensures kept { spec.IsScratchOf m.now sc.new }
{
    read(m, &mut sc.present, s, None);
    begins(m, &sc.present)
}

/// Whether a step leads from the first typed state to the second: both are states, every TRANS is true, and each `next(x) :=` is obeyed.
pub fn is_step(m: &Model, sc: &mut Scratch, s: &State, t: &State) -> bool
    requires formed { IsWellFormed m.now }
    requires made { spec.IsScratchOf m.now sc.old }
    requires present { IsTrue (states.is_typed m.now s.now) }
    requires next { IsTrue (states.is_typed m.now t.now) }
    ensures value { result ≡ states.is_step m.now s.now t.now }
    ensures kept { spec.IsScratchOf m.now sc.new }
{
    read(m, &mut sc.present, s, None);
    read(m, &mut sc.next, t, None);
    leads(m, &sc.present, &sc.next)
}

/// Whether the FAIRNESS expression with this place, from 0, is true in the typed state.
pub fn fair_at(m: &Model, sc: &mut Scratch, k: u32, s: &State) -> bool
    requires formed { IsWellFormed m.now }
    requires made { spec.IsScratchOf m.now sc.old }
    requires there { k < length m.now.fair }
    requires typed { IsTrue (states.is_typed m.now s.now) }
    ensures value { result ≡ states.is_fair_at m.now k s.now }
    ensures kept { spec.IsScratchOf m.now sc.new }
{
    read(m, &mut sc.present, s, None);
    let e = m.fair.get(k as usize);
    truth(value(e, &sc.present, &sc.present))
}

/// Whether the atom is true in the typed state. Where a signal is given, each of its readings is inverted, also those through other DEFINEs.
pub fn atom_at(m: &Model, sc: &mut Scratch, e: &Expr, s: &State, flipped: Option<Signal>) -> bool
    requires formed { IsWellFormed m.now }
    requires made { spec.IsScratchOf m.now sc.old }
    requires atom { IsAtomOf m.now e.now }
    requires typed { IsTrue (states.is_typed m.now s.now) }
    ensures value { result ≡ states.holds m.now e.now s.now flipped }
    ensures kept { spec.IsScratchOf m.now sc.new }
{
    read(m, &mut sc.present, s, flipped);
    read(m, &mut sc.next, s, None);
    truth(value(e, &sc.present, &sc.next))
}

fn meets(m: &Model, r: &Frame) -> bool
    ensures { result ≡ spec.meets m.now (spec.readings_of r.now) }
{
    all_true(&m.invars, r, r) && all_obeyed(&m.nows, r, r, &r.vars)
}

fn begins(m: &Model, r: &Frame) -> bool
    ensures { result ≡ spec.begins m.now (spec.readings_of r.now) }
{
    meets(m, r) && all_true(&m.inits, r, r) && all_obeyed(&m.firsts, r, r, &r.vars)
}

fn leads(m: &Model, r: &Frame, q: &Frame) -> bool
    ensures { result ≡ spec.leads m.now (spec.readings_of r.now) (spec.readings_of q.now) }
{
    meets(m, r) && meets(m, q) && all_true(&m.trans, r, q) && all_obeyed(&m.nexts, r, q, &q.vars)
}

/// Whether there is one place for each variable, and each is below the number of its values.
fn fits(vars: &[Var], s: &[u16]) -> bool
    ensures { result ≡ states.fits vars.now s.now }
{
    if vars.len() != s.len() {
        return false;
    }
    for (i, x) in vars.iter().enumerate() {
        if s[i] as usize >= x.values.len() {
            return false;
        }
    }
    true
}

/// Whether every condition is true.
fn all_true(es: &Seq<Expr>, p: &Frame, q: &Frame) -> bool
    ensures { result ≡ spec.all_true es.now (spec.point p.now q.now) }
{
    for e in es.as_slice() {
        if !truth(value(e, p, q)) {
            return false;
        }
    }
    true
}

/// Whether each assigned variable has a value, among these, that its expression allows.
fn all_obeyed(assigned: &Seq<Assign>, p: &Frame, q: &Frame, xs: &Seq<Value>) -> bool
    ensures { result ≡ spec.all_obeyed assigned.now (spec.point p.now q.now) xs.now }
{
    for a in assigned.as_slice() {
        let v = item(xs.as_slice(), a.var);
        if !allows(&a.body, p, q, v) {
            return false;
        }
    }
    true
}
