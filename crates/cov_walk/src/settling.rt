ghost use Rattle.std.specs.Prelude.{◌≡◌, ◌||◌, IfOk, IsTrue, map};
ghost use Rattle.cov_model.specs.Kinds.{is_boolean};
ghost use Rattle.cov_model.specs.Settled as spec;
ghost use Rattle.cov_model.specs.Walk as walk;
ghost use Rattle.cov_model.specs.Walk.{own, asks_truth};
ghost use Rattle.cov_walk.specs.Parts.{judged_node, some_boolean, some_body_boolean, settled_branch, settled_value};
ghost use Rattle.cov_syntax.specs.declared.tree.Node.TheVariants as n;
ghost use Rattle.cov_walk.specs.Places.{asked};

use crate::asked::{asked_of_one, asked_of_two};
use crate::boolean::is_boolean;
use cov_kinds::{Asks, KindTable};
use cov_syntax::{Branch, Expr, NoMemory, Node, Op2, Seq, Span, Value};
use sqlite_items::Boxed;
use std::alloc::Global;

/// The literal, which a Boolean place takes as FALSE or TRUE where it is 0 or 1.
fn settled_value(in_truth: bool, value: Value) -> Value
    ensures { result ≡ settled_value in_truth value }
{
    match value {
        Value::Int(0) if in_truth => Value::Bool(false),
        Value::Int(1) if in_truth => Value::Bool(true),
        _ => value,
    }
}

fn is_truth(asks: Option<Asks>) -> bool
    ensures { result ≡ asks_truth (asked asks) }
{
    matches!(asks, Some(Asks::Truth))
}

/// Whether the place is Boolean, or the expression in it.
fn is_settled_in_truth(ks: &KindTable, in_truth: bool, e: &Expr) -> bool
    ensures { result ≡ (in_truth || is_boolean (own ks.now e.now)) }
{
    in_truth || is_boolean(ks, e)
}

fn put(place: Span, node: Node) -> Expr
    ensures { result ≡ walk.put place node }
{
    Expr { node, place }
}

fn put_two(alloc: Global, place: Span, op: Op2, a: Expr, b: Expr) -> Result<Expr, NoMemory>
    ensures { IfOk result (λ r. r ≡ walk.put place (n.Two op a b)) }
{
    let a = Boxed::new(alloc, a)?;
    let b = Boxed::new(alloc, b)?;
    Ok(put(place, Node::Two(op, a, b)))
}

/// Whether an operator, other than `union`, takes its operands in Boolean places.
fn are_in_truth(ks: &KindTable, op: Op2, a: &Expr, b: &Expr) -> bool
    ensures { result ≡ asks_truth (walk.asked_of_two op (own ks.now a.now) (own ks.now b.now)) }
{
    let one_side = is_boolean(ks, a) || is_boolean(ks, b);
    is_truth(asked_of_two(op, one_side))
}

/// The expression with 0 and 1 read as FALSE and TRUE in Boolean places, where it stands in such a place itself or not.
#[cycle(settle)]
pub fn settle(alloc: Global, ks: &KindTable, in_truth: bool, e: &Expr) -> Result<Expr, NoMemory>
    ensures { IfOk result (λ r. r ≡ spec.settled ks.now in_truth e.now) }
{
    let in_truth = is_settled_in_truth(ks, in_truth, e);
    settle_node(alloc, ks, in_truth, e.place, &e.node)
}

/// The same of a part whose place is Boolean if it is Boolean itself.
#[cycle(settle)]
fn settle_part(alloc: Global, ks: &KindTable, in_truth: bool, e: &Expr) -> Result<Expr, NoMemory>
    ensures { IfOk result (λ r. (IsTrue (is_boolean (own ks.now e.now)) → IsTrue in_truth) → r ≡ spec.settled ks.now in_truth e.now) }
{
    settle_node(alloc, ks, in_truth, e.place, &e.node)
}

#[cycle(settle)]
fn settle_node(
    alloc: Global,
    ks: &KindTable,
    in_truth: bool,
    place: Span,
    node: &Node,
) -> Result<Expr, NoMemory>
    ensures { IfOk result (λ r. (IsTrue (is_boolean (judged_node ks.now node.now place).own) → IsTrue in_truth) → r ≡ (judged_node ks.now node.now place).settled in_truth) }
{
    match node {
        Node::Lit(value) => Ok(put(place, Node::Lit(settled_value(in_truth, *value)))),
        Node::Path(path) => Ok(put(place, Node::Path(path.copy(alloc)?))),
        Node::Var(i) => Ok(put(place, Node::Var(*i))),
        Node::Def(i) => Ok(put(place, Node::Def(*i))),
        Node::One(op, e) => {
            let e = settle(alloc, ks, is_truth(asked_of_one(*op)), e.get())?;
            Ok(put(place, Node::One(*op, Boxed::new(alloc, e)?)))
        }
        Node::Two(op, a, b) => match op {
            Op2::Union => {
                let a = settle_part(alloc, ks, in_truth, a.get())?;
                let b = settle_part(alloc, ks, in_truth, b.get())?;
                put_two(alloc, place, *op, a, b)
            }
            _ => {
                let in_truth = are_in_truth(ks, *op, a.get(), b.get());
                let a = settle(alloc, ks, in_truth, a.get())?;
                let b = settle(alloc, ks, in_truth, b.get())?;
                put_two(alloc, place, *op, a, b)
            }
        },
        Node::Range(low, high) => Ok(put(place, Node::Range(*low, *high))),
        Node::Set(items) => {
            let items = settle_all(alloc, ks, in_truth, items)?;
            Ok(put(place, Node::Set(items)))
        }
        Node::Case(branches) => {
            let branches = settle_branches(alloc, ks, in_truth, branches)?;
            Ok(put(place, Node::Case(branches)))
        }
    }
}

/// The members settled in such a place, which is Boolean if one of them is.
#[cycle(settle)]
fn settle_all(
    alloc: Global,
    ks: &KindTable,
    in_truth: bool,
    items: &Seq<Expr>,
) -> Result<Seq<Expr>, NoMemory>
    ensures { IfOk result (λ r. (IsTrue (some_boolean ks.now items.now) → IsTrue in_truth) → r ≡ map (spec.settled ks.now in_truth) items.now) }
{
    let mut settled = Seq::new(alloc);
    for e in items.as_slice() {
        settled.push(settle_part(alloc, ks, in_truth, e)?)?;
    }
    Ok(settled)
}

#[cycle(settle)]
fn settle_branch(
    alloc: Global,
    ks: &KindTable,
    in_truth: bool,
    b: &Branch,
) -> Result<Branch, NoMemory>
    ensures { IfOk result (λ r. (IsTrue (is_boolean (own ks.now b.now.body)) → IsTrue in_truth) → r ≡ settled_branch ks.now in_truth b.now) }
{
    let guard = settle(alloc, ks, true, &b.guard)?;
    let body = settle_part(alloc, ks, in_truth, &b.body)?;
    Ok(Branch { guard, body })
}

/// The branches with their bodies settled in such a place, which is Boolean if one of them is.
#[cycle(settle)]
fn settle_branches(
    alloc: Global,
    ks: &KindTable,
    in_truth: bool,
    branches: &Seq<Branch>,
) -> Result<Seq<Branch>, NoMemory>
    ensures { IfOk result (λ r. (IsTrue (some_body_boolean ks.now branches.now) → IsTrue in_truth) → r ≡ map (settled_branch ks.now in_truth) branches.now) }
{
    let mut settled = Seq::new(alloc);
    for b in branches.as_slice() {
        settled.push(settle_branch(alloc, ks, in_truth, b)?)?;
    }
    Ok(settled)
}
