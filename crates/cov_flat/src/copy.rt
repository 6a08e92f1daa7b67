ghost use Rattle.std.specs.Prelude.{◌≡◌, IfOk};
ghost use Rattle.cov_flat.specs.Reading.{IsReader};
ghost use Rattle.cov_flat.specs.Parts as spec;

use crate::reader::Reader;
use cov_syntax::{Branch, Expr, NoMemory, Node, Seq};
use sqlite_items::Boxed;
use std::alloc::Global;

/// A copy of the expression as the instance reads it.
#[cycle(read)]
pub(crate) fn read(alloc: Global, at: &Reader<'_>, e: &Expr) -> Result<Expr, NoMemory>
    requires { IsReader at.now.p.now at.now.scopes.now at.now.number }
    ensures { IfOk result (λ r. r ≡ spec.read_expr at.now.p.now at.now.number e.now) }
{
    let node = read_node(alloc, at, &e.node)?;
    Ok(Expr {
        node,
        place: e.place,
    })
}

#[cycle(read)]
fn read_node(alloc: Global, at: &Reader<'_>, n: &Node) -> Result<Node, NoMemory>
    requires { IsReader at.now.p.now at.now.scopes.now at.now.number }
    ensures { IfOk result (λ r. r ≡ spec.read_node at.now.p.now at.now.number n.now) }
{
    match n {
        Node::Lit(value) => Ok(Node::Lit(*value)),
        Node::Path(path) => at.node(alloc, path),
        Node::Var(i) => Ok(Node::Var(*i)),
        Node::Def(i) => Ok(Node::Def(*i)),
        Node::One(op, a) => {
            let a = read(alloc, at, a.get())?;
            Ok(Node::One(*op, Boxed::new(alloc, a)?))
        }
        Node::Two(op, a, b) => {
            let a = Boxed::new(alloc, read(alloc, at, a.get())?)?;
            let b = Boxed::new(alloc, read(alloc, at, b.get())?)?;
            Ok(Node::Two(*op, a, b))
        }
        Node::Range(low, high) => Ok(Node::Range(*low, *high)),
        Node::Set(items) => Ok(Node::Set(read_items(alloc, at, items)?)),
        Node::Case(branches) => Ok(Node::Case(read_branches(alloc, at, branches)?)),
    }
}

#[cycle(read)]
fn read_items(alloc: Global, at: &Reader<'_>, es: &Seq<Expr>) -> Result<Seq<Expr>, NoMemory>
    requires { IsReader at.now.p.now at.now.scopes.now at.now.number }
    ensures { IfOk result (λ r. r ≡ spec.read_items at.now.p.now at.now.number es.now) }
{
    let mut copies = Seq::new(alloc);
    for e in es.as_slice() {
        copies.push(read(alloc, at, e)?)?;
    }
    Ok(copies)
}

#[cycle(read)]
fn read_branch(alloc: Global, at: &Reader<'_>, b: &Branch) -> Result<Branch, NoMemory>
    requires { IsReader at.now.p.now at.now.scopes.now at.now.number }
    ensures { IfOk result (λ r. r ≡ spec.read_branch at.now.p.now at.now.number b.now) }
{
    let guard = read(alloc, at, &b.guard)?;
    let body = read(alloc, at, &b.body)?;
    Ok(Branch { guard, body })
}

#[cycle(read)]
fn read_branches(
    alloc: Global,
    at: &Reader<'_>,
    branches: &Seq<Branch>,
) -> Result<Seq<Branch>, NoMemory>
    requires { IsReader at.now.p.now at.now.scopes.now at.now.number }
    ensures { IfOk result (λ r. r ≡ spec.read_branches at.now.p.now at.now.number branches.now) }
{
    let mut copies = Seq::new(alloc);
    for b in branches.as_slice() {
        copies.push(read_branch(alloc, at, b)?)?;
    }
    Ok(copies)
}
