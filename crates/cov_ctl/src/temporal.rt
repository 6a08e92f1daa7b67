ghost use Rattle.std.specs.Prelude.{◌≡◌};
ghost use Rattle.cov_ctl.specs.Temporal as spec;

use cov_syntax::{Branch, Expr, Node, Op1, Op2, Seq};

/// Whether a CTL operator stands in the expression.
#[cycle(temporal)]
pub(crate) fn is_temporal(e: &Expr) -> bool
    ensures { result ≡ spec.is_temporal e.now }
{
    is_temporal_node(&e.node)
}

#[cycle(temporal)]
fn is_temporal_node(n: &Node) -> bool
    ensures { result ≡ spec.node_is_temporal n.now }
{
    match n {
        Node::One(op, a) => is_path_operator(*op) || is_temporal(a.get()),
        Node::Two(op, a, b) => is_until(*op) || is_temporal(a.get()) || is_temporal(b.get()),
        Node::Set(items) => some_is_temporal(items),
        Node::Case(branches) => some_branch_is_temporal(branches),
        _ => false,
    }
}

#[cycle(temporal)]
fn some_is_temporal(items: &Seq<Expr>) -> bool
    ensures { result ≡ spec.some_temporal items.now }
{
    for e in items.as_slice() {
        if is_temporal(e) {
            return true;
        }
    }
    false
}

#[cycle(temporal)]
fn some_branch_is_temporal(branches: &Seq<Branch>) -> bool
    ensures { result ≡ spec.some_branch_temporal branches.now }
{
    for b in branches.as_slice() {
        if is_temporal(&b.guard) || is_temporal(&b.body) {
            return true;
        }
    }
    false
}

fn is_path_operator(op: Op1) -> bool
    ensures { result ≡ spec.is_path_operator op }
{
    match op {
        Op1::Not | Op1::Neg | Op1::Next => false,
        _ => true,
    }
}

fn is_until(op: Op2) -> bool
    ensures { result ≡ spec.is_until op }
{
    match op {
        Op2::Au | Op2::Eu => true,
        _ => false,
    }
}
