ghost use Rattle.std.specs.Prelude.{◌≡◌, unwrap_or, option_map};
ghost use Rattle.std.specs.Option.{option_copied};
ghost use Rattle.cov_model.specs.Kinds as kinds;
ghost use Rattle.cov_model.specs.Walk.{own};
ghost use Rattle.cov_syntax.specs.declared.tree.Span.{Span};
ghost use Rattle.cov_kinds.specs.Seen.{seen};
ghost use Rattle.cov_walk.specs.Parts.{judged_node, some_boolean, some_body_boolean};

use cov_kinds::{Kind, KindTable};
use cov_syntax::{Branch, Expr, Node, Op1, Op2, Seq, Value};

/// Whether what is read is Boolean. What is not there counts as Boolean.
fn reads_boolean(kind: Option<&Kind>) -> bool
    ensures { result ≡ kinds.is_boolean (unwrap_or (option_map seen (option_copied kind.entry)) kinds.boolean) }
{
    match kind {
        None => true,
        Some(kind) => kind.is_boolean(),
    }
}

/// Whether the own kind of the expression is Boolean.
#[cycle(boolean)]
pub(crate) fn is_boolean(ks: &KindTable, e: &Expr) -> bool
    ensures { result ≡ kinds.is_boolean (own ks.now e.now) }
{
    is_boolean_node(ks, &e.node)
}

#[cycle(boolean)]
fn is_boolean_node(ks: &KindTable, node: &Node) -> bool
    ensures { (place : Span) → result ≡ kinds.is_boolean (judged_node ks.now node.now place).own }
{
    match node {
        Node::Lit(value) => matches!(value, Value::Bool(_)),
        Node::Path(_) => true,
        Node::Var(i) => reads_boolean(ks.var(*i)),
        Node::Def(i) => reads_boolean(ks.def(*i)),
        Node::One(op, e) => match op {
            Op1::Neg => false,
            Op1::Next => is_boolean(ks, e.get()),
            _ => true,
        },
        Node::Two(op, a, b) => match op {
            Op2::Add | Op2::Sub | Op2::Mul | Op2::Div | Op2::Mod => false,
            Op2::Union => is_boolean(ks, a.get()) || is_boolean(ks, b.get()),
            _ => true,
        },
        Node::Range(_, _) => false,
        Node::Set(items) => items.len() == 0 || has_boolean(ks, items),
        Node::Case(branches) => branches.len() == 0 || has_boolean_body(ks, branches),
    }
}

/// Whether some member is Boolean.
#[cycle(boolean)]
fn has_boolean(ks: &KindTable, items: &Seq<Expr>) -> bool
    ensures { result ≡ some_boolean ks.now items.now }
{
    for e in items.as_slice() {
        if is_boolean(ks, e) {
            return true;
        }
    }
    false
}

/// Whether some body is Boolean.
#[cycle(boolean)]
fn has_boolean_body(ks: &KindTable, branches: &Seq<Branch>) -> bool
    ensures { result ≡ some_body_boolean ks.now branches.now }
{
    for b in branches.as_slice() {
        if is_boolean(ks, &b.body) {
            return true;
        }
    }
    false
}
