ghost use Rattle.std.specs.Prelude.{◌≡◌, ◌+ℤ◌, ◌-ℤ◌, ◌*ℤ◌, neg_ℤ, int_div, int_rem, take};
ghost use Rattle.cov_model.specs.Values as values;
ghost use Rattle.cov_model.specs.Meaning as meaning;
ghost use Rattle.cov_model.specs.Machine as spec;

use crate::frame::Frame;
use crate::model::Signal;
use cov_syntax::{Branch, Expr, Node, Op1, Op2, Seq, Value};

pub(crate) fn truth(v: Value) -> bool
    ensures { result ≡ values.truth v }
{
    match v {
        Value::Bool(b) => b,
        _ => false,
    }
}

fn number(v: Value) -> i32
    ensures { result ≡ values.number v }
{
    match v {
        Value::Int(n) => n,
        _ => 0,
    }
}

pub(crate) fn same(a: Value, b: Value) -> bool
    ensures { result ≡ values.same_value a b }
{
    match (a, b) {
        (Value::Bool(x), Value::Bool(y)) => x == y,
        (Value::Int(x), Value::Int(y)) => x == y,
        (Value::Sym(x), Value::Sym(y)) => x == y,
        _ => false,
    }
}

fn within(v: Value, low: i32, high: i32) -> bool
    ensures { result ≡ values.within low high v }
{
    match v {
        Value::Int(n) => low <= n && n <= high,
        _ => false,
    }
}

pub(crate) fn item(s: &[Value], i: u32) -> Value
    ensures { result ≡ values.item s.now i }
{
    s.get(i as usize).copied().unwrap_or(Value::Bool(false))
}

/// The value at a place, where it is among the first `known`.
fn known_item(s: &[Value], known: usize, i: u32) -> Value
    ensures { result ≡ values.item (take known s.now) i }
{
    if (i as usize) < known {
        item(s, i)
    } else {
        Value::Bool(false)
    }
}

fn inverse(v: Value) -> Value
    ensures { result ≡ values.inverse v }
{
    match v {
        Value::Bool(b) => Value::Bool(!b),
        _ => v,
    }
}

fn same_signal(a: Signal, b: Signal) -> bool
    ensures { result ≡ meaning.same_signal a b }
{
    match (a, b) {
        (Signal::Var(x), Signal::Var(y)) => x == y,
        (Signal::Def(x), Signal::Def(y)) => x == y,
        _ => false,
    }
}

fn flipped(flip: Option<Signal>, q: Signal, x: Value) -> Value
    ensures { result ≡ meaning.flipped flip q x }
{
    match flip {
        None => x,
        Some(p) => { if same_signal(p, q) { inverse(x) } else { x } }
    }
}

fn variable(r: &Frame, i: u32) -> Value
    ensures { result ≡ meaning.variable (spec.readings_of r.now) i }
{
    flipped(r.flip, Signal::Var(i), item(r.vars.as_slice(), i))
}

fn define(r: &Frame, i: u32) -> Value
    ensures { result ≡ meaning.define (spec.readings_of r.now) i }
{
    flipped(
        r.flip,
        Signal::Def(i),
        known_item(r.defines.as_slice(), r.known, i),
    )
}

/// The number, or 0 where it has more than 32 bits.
fn machine(n: i64) -> i32
    ensures { result ≡ values.machine n }
{
    if -2147483648 <= n && n <= 2147483647 {
        n as i32
    } else {
        0
    }
}

fn added(a: i32, b: i32) -> i32
    ensures { result ≡ values.machine (a +ℤ b) }
{
    machine(a as i64 + b as i64)
}

fn less(a: i32, b: i32) -> i32
    ensures { result ≡ values.machine (a -ℤ b) }
{
    machine(a as i64 - b as i64)
}

fn times(a: i32, b: i32) -> i32
    ensures { result ≡ values.machine (a *ℤ b) }
{
    machine(a as i64 * b as i64)
}

fn negative(a: i32) -> i32
    ensures { result ≡ values.machine (neg_ℤ a) }
{
    machine(-(a as i64))
}

fn quotient(a: i32, b: i32) -> i32
    ensures { result ≡ values.machine (int_div a b) }
{
    if b == 0 {
        0
    } else {
        machine(a as i64 / b as i64)
    }
}

fn rest(a: i32, b: i32) -> i32
    ensures { result ≡ values.machine (int_rem a b) }
{
    if b == 0 {
        a
    } else {
        machine(a as i64 % b as i64)
    }
}

fn remainder(a: i32, b: i32) -> i32
    ensures { result ≡ values.machine (values.remainder a b) }
{
    rest(a, b)
}

fn operated(op: Op2, a: Value, b: Value) -> Value
    ensures { result ≡ values.operated values.machine op a b }
{
    match op {
        Op2::And => Value::Bool(truth(a) && truth(b)),
        Op2::Or => Value::Bool(truth(a) || truth(b)),
        Op2::Xor => Value::Bool(truth(a) != truth(b)),
        Op2::Implies => Value::Bool(!truth(a) || truth(b)),
        Op2::Iff => Value::Bool(truth(a) == truth(b)),
        Op2::Eq => Value::Bool(same(a, b)),
        Op2::Ne => Value::Bool(!same(a, b)),
        Op2::Lt => Value::Bool(number(a) < number(b)),
        Op2::Le => Value::Bool(number(a) <= number(b)),
        Op2::Gt => Value::Bool(number(b) < number(a)),
        Op2::Ge => Value::Bool(number(b) <= number(a)),
        Op2::Add => Value::Int(added(number(a), number(b))),
        Op2::Sub => Value::Int(less(number(a), number(b))),
        Op2::Mul => Value::Int(times(number(a), number(b))),
        Op2::Div => Value::Int(quotient(number(a), number(b))),
        Op2::Mod => Value::Int(remainder(number(a), number(b))),
        _ => Value::Bool(false),
    }
}

/// The value of an expression between two states.
#[cycle(eval)]
pub(crate) fn value(e: &Expr, p: &Frame, q: &Frame) -> Value
    ensures { result ≡ spec.value e.now (spec.point p.now q.now) }
{
    node_value(&e.node, p, q)
}

#[cycle(eval)]
fn node_value(n: &Node, p: &Frame, q: &Frame) -> Value
    ensures { result ≡ spec.node_value n.now (spec.point p.now q.now) }
{
    match n {
        Node::Lit(v) => *v,
        Node::Var(i) => variable(p, *i),
        Node::Def(i) => define(p, *i),
        Node::One(Op1::Not, e) => Value::Bool(!truth(value(e.get(), p, q))),
        Node::One(Op1::Neg, e) => Value::Int(negative(number(value(e.get(), p, q)))),
        Node::One(Op1::Next, e) => value(e.get(), q, q),
        Node::Two(Op2::Union, _, _) => Value::Bool(false),
        Node::Two(Op2::Member, a, b) => {
            let v = value(a.get(), p, q);
            Value::Bool(allows(b.get(), p, q, v))
        }
        Node::Two(op, a, b) => {
            let a = value(a.get(), p, q);
            let b = value(b.get(), p, q);
            operated(*op, a, b)
        }
        Node::Case(branches) => cases_value(branches, p, q),
        _ => Value::Bool(false),
    }
}

#[cycle(eval)]
fn cases_value(branches: &Seq<Branch>, p: &Frame, q: &Frame) -> Value
    ensures { result ≡ spec.cases_value branches.now (spec.point p.now q.now) }
{
    for b in branches.as_slice() {
        if truth(value(&b.guard, p, q)) {
            return value(&b.body, p, q);
        }
    }
    Value::Bool(false)
}

/// Whether the value is among the choices of the expression between two states.
#[cycle(eval)]
pub(crate) fn allows(e: &Expr, p: &Frame, q: &Frame, v: Value) -> bool
    ensures { result ≡ spec.allows e.now (spec.point p.now q.now) v }
{
    node_allows(&e.node, p, q, v)
}

#[cycle(eval)]
fn node_allows(n: &Node, p: &Frame, q: &Frame, v: Value) -> bool
    ensures { result ≡ spec.node_allows n.now (spec.point p.now q.now) v }
{
    match n {
        Node::Set(items) => some_allows(items, p, q, v),
        Node::Range(low, high) => within(v, *low, *high),
        Node::Two(Op2::Union, a, b) => allows(a.get(), p, q, v) || allows(b.get(), p, q, v),
        Node::Case(branches) => cases_allow(branches, p, q, v),
        _ => same(node_value(n, p, q), v),
    }
}

#[cycle(eval)]
fn some_allows(items: &Seq<Expr>, p: &Frame, q: &Frame, v: Value) -> bool
    ensures { result ≡ spec.some_allows items.now (spec.point p.now q.now) v }
{
    for e in items.as_slice() {
        if allows(e, p, q, v) {
            return true;
        }
    }
    false
}

#[cycle(eval)]
fn cases_allow(branches: &Seq<Branch>, p: &Frame, q: &Frame, v: Value) -> bool
    ensures { result ≡ spec.cases_allow branches.now (spec.point p.now q.now) v }
{
    for b in branches.as_slice() {
        if truth(value(&b.guard, p, q)) {
            return allows(&b.body, p, q, v);
        }
    }
    false
}
