ghost use Rattle.std.specs.Prelude.{◌≡◌, ◌++◌, IfOk, OnOk};
ghost use Rattle.cov_model.specs.Order.{reads, reads_of};
ghost use Rattle.cov_order.specs.Parts as spec;

use cov_model::Define;
use cov_syntax::{Branch, Expr, NoMemory, Node, Seq};
use std::alloc::Global;

/// What each DEFINE names.
pub(crate) fn reads_of(alloc: Global, defines: &[Define]) -> Result<Seq<Seq<u32>>, NoMemory>
    ensures { IfOk result (λ g. g ≡ reads_of defines.now) }
{
    let mut all = Seq::new(alloc);
    for d in defines {
        let mut found = Seq::new(alloc);
        add_reads(&d.body, &mut found)?;
        all.push(found)?;
    }
    Ok(all)
}

/// Puts the DEFINEs that the expression names behind those found before.
#[cycle(reading)]
fn add_reads(e: &Expr, found: &mut Seq<u32>) -> Result<(), NoMemory>
    ensures { OnOk result (found.new ≡ found.old ++ reads e.now) }
{
    add_node_reads(&e.node, found)
}

#[cycle(reading)]
fn add_node_reads(n: &Node, found: &mut Seq<u32>) -> Result<(), NoMemory>
    ensures { OnOk result (found.new ≡ found.old ++ spec.node_reads n.now) }
{
    match n {
        Node::Lit(_) | Node::Path(_) | Node::Var(_) | Node::Range(_, _) => Ok(()),
        Node::Def(i) => found.push(*i),
        Node::One(_, a) => add_reads(a.get(), found),
        Node::Two(_, a, b) => {
            add_reads(a.get(), found)?;
            add_reads(b.get(), found)
        }
        Node::Set(items) => add_item_reads(items, found),
        Node::Case(branches) => add_branch_reads(branches, found),
    }
}

#[cycle(reading)]
fn add_item_reads(items: &Seq<Expr>, found: &mut Seq<u32>) -> Result<(), NoMemory>
    ensures { OnOk result (found.new ≡ found.old ++ spec.item_reads items.now) }
{
    for e in items.as_slice() {
        add_reads(e, found)?;
    }
    Ok(())
}

#[cycle(reading)]
fn add_branch_reads(branches: &Seq<Branch>, found: &mut Seq<u32>) -> Result<(), NoMemory>
    ensures { OnOk result (found.new ≡ found.old ++ spec.branch_reads branches.now) }
{
    for b in branches.as_slice() {
        add_reads(&b.guard, found)?;
        add_reads(&b.body, found)?;
    }
    Ok(())
}
