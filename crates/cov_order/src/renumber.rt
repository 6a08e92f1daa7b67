ghost use Rattle.std.specs.Prelude.{◌≡◌, IfOk, OnOk, ◌++◌, ◌∷◌, [], map, slice_get};
ghost use Rattle.std.specs.Option.{option_map_or};
ghost use Rattle.cov_model.specs.Order.{renumbered, with_body, with_assigned, in_order};
ghost use Rattle.cov_order.specs.Parts as spec;

use crate::order::Order;
use cov_model::{Assign, Define};
use cov_syntax::{Branch, Expr, NoMemory, Node, Seq};
use sqlite_items::Boxed;
use std::alloc::Global;

/// A copy of the expression, its DEFINEs named by their places in the order.
#[cycle(renumber)]
pub(crate) fn renumbered(alloc: Global, e: &Expr, order: &Order) -> Result<Expr, NoMemory>
    ensures { IfOk result (λ r. r ≡ renumbered order.now.items e.now) }
{
    let node = renumbered_node(alloc, &e.node, order)?;
    Ok(Expr {
        node,
        place: e.place,
    })
}

#[cycle(renumber)]
fn renumbered_node(alloc: Global, n: &Node, order: &Order) -> Result<Node, NoMemory>
    ensures { IfOk result (λ r. r ≡ spec.renumbered_node order.now.items n.now) }
{
    match n {
        Node::Lit(value) => Ok(Node::Lit(*value)),
        Node::Path(path) => Ok(Node::Path(path.copy(alloc)?)),
        Node::Var(i) => Ok(Node::Var(*i)),
        Node::Def(i) => Ok(Node::Def(order.place(*i))),
        Node::One(op, a) => {
            let a = renumbered(alloc, a.get(), order)?;
            Ok(Node::One(*op, Boxed::new(alloc, a)?))
        }
        Node::Two(op, a, b) => {
            let a = Boxed::new(alloc, renumbered(alloc, a.get(), order)?)?;
            let b = Boxed::new(alloc, renumbered(alloc, b.get(), order)?)?;
            Ok(Node::Two(*op, a, b))
        }
        Node::Range(low, high) => Ok(Node::Range(*low, *high)),
        Node::Set(items) => Ok(Node::Set(renumbered_all(alloc, items, order)?)),
        Node::Case(branches) => Ok(Node::Case(renumbered_branches(alloc, branches, order)?)),
    }
}

/// The same of each expression.
#[cycle(renumber)]
pub(crate) fn renumbered_all(
    alloc: Global,
    es: &Seq<Expr>,
    order: &Order,
) -> Result<Seq<Expr>, NoMemory>
    ensures { IfOk result (λ r. r ≡ spec.renumbered_items order.now.items es.now) }
{
    let mut copies = Seq::new(alloc);
    for e in es.as_slice() {
        copies.push(renumbered(alloc, e, order)?)?;
    }
    Ok(copies)
}

#[cycle(renumber)]
fn renumbered_branch(alloc: Global, b: &Branch, order: &Order) -> Result<Branch, NoMemory>
    ensures { IfOk result (λ r. r ≡ spec.renumbered_branch order.now.items b.now) }
{
    let guard = renumbered(alloc, &b.guard, order)?;
    let body = renumbered(alloc, &b.body, order)?;
    Ok(Branch { guard, body })
}

#[cycle(renumber)]
fn renumbered_branches(
    alloc: Global,
    branches: &Seq<Branch>,
    order: &Order,
) -> Result<Seq<Branch>, NoMemory>
    ensures { IfOk result (λ r. r ≡ spec.renumbered_branches order.now.items branches.now) }
{
    let mut copies = Seq::new(alloc);
    for b in branches.as_slice() {
        copies.push(renumbered_branch(alloc, b, order)?)?;
    }
    Ok(copies)
}

/// The same of each right side.
pub(crate) fn renumbered_assigns(
    alloc: Global,
    assigns: &Seq<Assign>,
    order: &Order,
) -> Result<Seq<Assign>, NoMemory>
    ensures { IfOk result (λ r. r ≡ map (with_assigned (renumbered order.now.items)) assigns.now) }
{
    let mut copies = Seq::new(alloc);
    for a in assigns.as_slice() {
        let body = renumbered(alloc, &a.body, order)?;
        copies.push(Assign {
            var: a.var,
            body,
            place: a.place,
        })?;
    }
    Ok(copies)
}

/// The DEFINEs in the order, each with its body renumbered.
pub(crate) fn defines_in(
    alloc: Global,
    defines: &Seq<Define>,
    order: &Order,
) -> Result<Seq<Define>, NoMemory>
    ensures { IfOk result (λ r. r ≡ in_order order.now.items defines.now) }
{
    let mut placed = Seq::new(alloc);
    for i in order.items.as_slice() {
        push_define(alloc, defines, *i, order, &mut placed)?;
    }
    Ok(placed)
}

/// Puts the DEFINE of a place last, where there is one.
fn push_define(
    alloc: Global,
    defines: &Seq<Define>,
    i: u32,
    order: &Order,
    placed: &mut Seq<Define>,
) -> Result<(), NoMemory>
    ensures { OnOk result (placed.new ≡ placed.old ++ option_map_or (λ d. with_body (renumbered order.now.items) d ∷ []) (slice_get defines.now i) []) }
{
    if i as usize >= defines.len() {
        return Ok(());
    }
    let d = defines.get(i as usize);
    let body = renumbered(alloc, &d.body, order)?;
    placed.push(Define {
        name: d.name,
        body,
        place: d.place,
    })
}
