ghost use Rattle.std.specs.Prelude.{◌≡◌, min};
ghost use Rattle.cov_modules.specs.Counts as spec;

use cov_syntax::{Branch, Expr, Node, Seq};

/// The nodes of an expression, and the greatest number where there are more.
#[cycle(nodes)]
pub fn nodes(e: &Expr) -> u32
    ensures { result ≡ min (spec.nodes e.now) u32.MAX }
{
    node_nodes(&e.node)
}

#[cycle(nodes)]
fn node_nodes(n: &Node) -> u32
    ensures { result ≡ min (spec.node_nodes n.now) u32.MAX }
{
    match n {
        Node::One(_, a) => nodes(a.get()).saturating_add(1),
        Node::Two(_, a, b) => nodes(a.get())
            .saturating_add(nodes(b.get()))
            .saturating_add(1),
        Node::Set(items) => all_nodes(items).saturating_add(1),
        Node::Case(branches) => all_branch_nodes(branches).saturating_add(1),
        Node::Lit(_) | Node::Path(_) | Node::Var(_) | Node::Def(_) | Node::Range(_, _) => 1,
    }
}

#[cycle(nodes)]
fn all_nodes(items: &Seq<Expr>) -> u32
    ensures { result ≡ min (spec.all_nodes items.now) u32.MAX }
{
    let mut sum = 0u32;
    for e in items.as_slice() {
        sum = sum.saturating_add(nodes(e));
    }
    sum
}

#[cycle(nodes)]
fn all_branch_nodes(branches: &Seq<Branch>) -> u32
    ensures { result ≡ min (spec.all_branch_nodes branches.now) u32.MAX }
{
    let mut sum = 0u32;
    for b in branches.as_slice() {
        sum = sum
            .saturating_add(nodes(&b.guard))
            .saturating_add(nodes(&b.body));
    }
    sum
}
