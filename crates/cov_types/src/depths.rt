ghost use Rattle.std.specs.Prelude.{◌≡◌, min};
ghost use Rattle.cov_model.specs.Flat as flat;
ghost use Rattle.cov_types.specs.Depths as spec;

use cov_syntax::{Branch, Expr, Node, Seq};

/// The greatest number of nodes on one path of the expression's tree, and the greatest number where there are more.
#[cycle(depth)]
pub(crate) fn depth(e: &Expr) -> u32
    ensures { result ≡ min (flat.depth e.now) u32.MAX }
{
    node_depth(&e.node)
}

#[cycle(depth)]
fn node_depth(n: &Node) -> u32
    ensures { result ≡ min (spec.node_depth n.now) u32.MAX }
{
    match n {
        Node::One(_, a) => depth(a.get()).saturating_add(1),
        Node::Two(_, a, b) => depth(a.get()).max(depth(b.get())).saturating_add(1),
        Node::Set(items) => all_depth(items).saturating_add(1),
        Node::Case(branches) => all_branch_depth(branches).saturating_add(1),
        Node::Lit(_) | Node::Path(_) | Node::Var(_) | Node::Def(_) | Node::Range(_, _) => 1,
    }
}

#[cycle(depth)]
pub(crate) fn all_depth(items: &Seq<Expr>) -> u32
    ensures { result ≡ min (spec.all_depth items.now) u32.MAX }
{
    let mut most = 0u32;
    for e in items.as_slice() {
        most = most.max(depth(e));
    }
    most
}

#[cycle(depth)]
fn all_branch_depth(branches: &Seq<Branch>) -> u32
    ensures { result ≡ min (spec.all_branch_depth branches.now) u32.MAX }
{
    let mut most = 0u32;
    for b in branches.as_slice() {
        most = most.max(depth(&b.guard)).max(depth(&b.body));
    }
    most
}
