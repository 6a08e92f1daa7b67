ghost use Rattle.std.specs.Prelude.{◌≡◌};
ghost use Rattle.cov_modules.specs.NameFaults as faults;
ghost use Rattle.cov_flat.specs.Reading.{IsReader};
ghost use Rattle.cov_flat.specs.Parts as spec;

use crate::reader::Reader;
use cov_syntax::{Branch, Expr, Node, Seq, Span};

/// The place of the first path of an expression that names no value in the instance.
#[cycle(unknown)]
pub(crate) fn unknown_in(at: &Reader<'_>, e: &Expr) -> Option<Span>
    requires { IsReader at.now.p.now at.now.scopes.now at.now.number }
    ensures { result ≡ faults.unknown_in at.now.p.now (spec.here at.now.p.now at.now.number) e.now }
{
    unknown_node(at, &e.node, e.place)
}

#[cycle(unknown)]
fn unknown_node(at: &Reader<'_>, n: &Node, place: Span) -> Option<Span>
    requires { IsReader at.now.p.now at.now.scopes.now at.now.number }
    ensures { result ≡ spec.unknown_node at.now.p.now (spec.here at.now.p.now at.now.number) n.now place }
{
    match n {
        Node::Lit(_) => None,
        Node::Path(path) => {
            if at.is_value(path.as_slice()) {
                None
            } else {
                Some(place)
            }
        }
        Node::Var(_) => None,
        Node::Def(_) => None,
        Node::One(_, a) => unknown_in(at, a.get()),
        Node::Two(_, a, b) => match unknown_in(at, a.get()) {
            Some(place) => Some(place),
            None => unknown_in(at, b.get()),
        },
        Node::Range(_, _) => None,
        Node::Set(items) => unknown_item(at, items),
        Node::Case(branches) => unknown_in_branches(at, branches),
    }
}

#[cycle(unknown)]
fn unknown_item(at: &Reader<'_>, es: &Seq<Expr>) -> Option<Span>
    requires { IsReader at.now.p.now at.now.scopes.now at.now.number }
    ensures { result ≡ spec.unknown_items at.now.p.now (spec.here at.now.p.now at.now.number) es.now }
{
    for e in es.as_slice() {
        if let Some(place) = unknown_in(at, e) {
            return Some(place);
        }
    }
    None
}

#[cycle(unknown)]
fn unknown_in_branch(at: &Reader<'_>, b: &Branch) -> Option<Span>
    requires { IsReader at.now.p.now at.now.scopes.now at.now.number }
    ensures { result ≡ spec.unknown_branch at.now.p.now (spec.here at.now.p.now at.now.number) b.now }
{
    match unknown_in(at, &b.guard) {
        Some(place) => Some(place),
        None => unknown_in(at, &b.body),
    }
}

#[cycle(unknown)]
fn unknown_in_branches(at: &Reader<'_>, branches: &Seq<Branch>) -> Option<Span>
    requires { IsReader at.now.p.now at.now.scopes.now at.now.number }
    ensures { result ≡ spec.unknown_branches at.now.p.now (spec.here at.now.p.now at.now.number) branches.now }
{
    for b in branches.as_slice() {
        if let Some(place) = unknown_in_branch(at, b) {
            return Some(place);
        }
    }
    None
}
