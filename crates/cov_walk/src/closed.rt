ghost use Rattle.std.specs.Prelude.{◌≡◌, [], map};
ghost use Rattle.cov_syntax.specs.declared.tree.Branch.{Branch};
ghost use Rattle.cov_model.specs.Trees as trees;
ghost use Rattle.cov_walk.specs.Closed as spec;

use crate::trees::same_tree;
use cov_syntax::{Branch, Expr, Node, Op1, Value};

/// Whether it is the literal TRUE or 1.
fn is_true(e: &Expr) -> bool
    ensures { result ≡ trees.is_true e.now }
{
    match &e.node {
        Node::Lit(Value::Bool(b)) => *b,
        Node::Lit(Value::Int(n)) => *n == 1,
        _ => false,
    }
}

/// Whether the first is the negation of the second, apart from places.
fn is_negation(e: &Expr, f: &Expr) -> bool
    ensures { result ≡ trees.is_negation e.now f.now }
{
    match &e.node {
        Node::One(Op1::Not, a) => same_tree(a.get(), f),
        _ => false,
    }
}

/// Whether some guard is the negation of this one, or the other way round.
fn has_opposite(guard: &Expr, branches: &[Branch]) -> bool
    ensures { result ≡ spec.has_opposite guard.now branches.now }
{
    for b in branches {
        if is_negation(&b.guard, guard) || is_negation(guard, &b.guard) {
            return true;
        }
    }
    false
}

/// Whether the last guard is TRUE or 1, or opposite to a guard before.
pub(crate) fn is_closed(branches: &[Branch]) -> bool
    ensures { result ≡ trees.is_closed [] (map (λ (b : Branch). b.guard) branches.now) }
{
    match branches.split_last() {
        None => false,
        Some((last, before)) => is_true(&last.guard) || has_opposite(&last.guard, before),
    }
}
