ghost use Rattle.std.specs.Prelude.{◌≡◌, ◌<◌, ◌≤◌, length};
ghost use Rattle.cov_modules.specs.Walk.{walk};
ghost use Rattle.cov_stops.specs.Table.{IsStopsOf};
ghost use Rattle.cov_paths.specs.Arguments as spec;

use cov_stops::Stops;
use cov_syntax::{Expr, Node, Program, Section, TypeTree};

/// The arguments of the instance that a section declares.
fn given_in(s: &Section) -> &[Expr]
    ensures { result.now ≡ spec.given_in s.now }
{
    match s {
        Section::Decl { kind, .. } => match kind {
            TypeTree::Instance { given, .. } => given.as_slice(),
            TypeTree::Boolean => &[],
            TypeTree::List(_) => &[],
            TypeTree::Between(_, _) => &[],
        },
        Section::Define { .. } => &[],
        Section::Assign { .. } => &[],
        Section::Cond { .. } => &[],
    }
}

/// The arguments that a stop is given.
pub(crate) fn given<'p>(p: &'p Program, stops: &Stops, k: u32) -> &'p [Expr]
    requires stops { IsStopsOf p.now stops.now }
    requires there { k < length (walk p.now) }
    ensures { result.now ≡ spec.given_at p.now k }
{
    if k == 0 {
        return &[];
    }
    let entry = stops.entry(k);
    let caller = stops.entry(entry.caller);
    let m = p.modules.get(caller.module as usize);
    given_in(m.sections.get(entry.section as usize))
}

/// How many DEFINEs an argument becomes: none where it is a path.
pub(crate) fn defines_of(e: &Expr) -> u32
    ensures value { result ≡ spec.defines_of e.now }
    ensures one { result ≤ 1 }
{
    match &e.node {
        Node::Path(_) => 0,
        _ => 1,
    }
}

/// How many DEFINEs the arguments become.
pub(crate) fn defines(given: &[Expr]) -> usize
    ensures value { result ≡ spec.defines given.now }
    ensures few { result ≤ length given.now }
{
    let mut count = 0;
    for e in given {
        count += defines_of(e) as usize;
    }
    count
}
