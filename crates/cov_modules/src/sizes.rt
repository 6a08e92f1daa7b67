ghost use Rattle.std.specs.Prelude.{◌≡◌, ◌<◌, map, length, IfOk};
ghost use Rattle.std.specs.Bool.{OnTrue};
ghost use Rattle.cov_modules.specs.Ranks as ranks;
ghost use Rattle.cov_modules.specs.Sizes as spec;
ghost use Rattle.cov_modules.specs.Modules.{instance_of};

use crate::nodes::nodes;
use crate::size::{Size, is_same, plus};
use cov_syntax::{Expr, ModuleTree, NoMemory, Node, Program, Section, Seq, TypeTree};
use std::alloc::Global;

/// What a section gives to the flat model, but for an instance.
fn section_size(s: &Section) -> Size
    ensures { spec.capped result ≡ spec.capped (spec.section_size s.now) }
{
    match s {
        Section::Decl { kind, .. } => match kind {
            TypeTree::Instance { .. } => Size { names: 0, nodes: 0 },
            TypeTree::Boolean => Size { names: 1, nodes: 0 },
            TypeTree::List(_) => Size { names: 1, nodes: 0 },
            TypeTree::Between(_, _) => Size { names: 1, nodes: 0 },
        },
        Section::Define { body, .. } => Size {
            names: 1,
            nodes: nodes(body),
        },
        Section::Assign { body, .. } => Size {
            names: 0,
            nodes: nodes(body),
        },
        Section::Cond { body, .. } => Size {
            names: 0,
            nodes: nodes(body),
        },
    }
}

/// What an argument gives: a DEFINE, if it is no path.
fn argument_size(e: &Expr) -> Size
    ensures { spec.capped result ≡ spec.capped (spec.argument_size e.now) }
{
    match &e.node {
        Node::Path(_) => Size { names: 0, nodes: 0 },
        _ => Size {
            names: 1,
            nodes: nodes(e),
        },
    }
}

/// What some arguments give, up to the limits.
fn arguments_size(given: &[Expr]) -> Size
    ensures { result ≡ spec.capped (spec.total (map spec.argument_size given.now)) }
{
    let mut size = Size { names: 0, nodes: 0 };
    for e in given {
        size = plus(size, argument_size(e));
    }
    size
}

/// What the instance that a section declares gives, up to the limits, without what its module gives.
fn instance_size(s: &Section) -> Size
    ensures { result ≡ spec.capped (spec.total (map spec.given_size (instance_of s.now))) }
{
    match s {
        Section::Decl { kind, .. } => match kind {
            TypeTree::Instance { given, .. } => plus(
                Size { names: 1, nodes: 0 },
                arguments_size(given.as_slice()),
            ),
            TypeTree::Boolean => Size { names: 0, nodes: 0 },
            TypeTree::List(_) => Size { names: 0, nodes: 0 },
            TypeTree::Between(_, _) => Size { names: 0, nodes: 0 },
        },
        Section::Define { .. } => Size { names: 0, nodes: 0 },
        Section::Assign { .. } => Size { names: 0, nodes: 0 },
        Section::Cond { .. } => Size { names: 0, nodes: 0 },
    }
}

/// What a module gives without its instances, up to the limits.
fn own_size(m: &ModuleTree) -> Size
    ensures { result ≡ spec.capped (spec.own_size m.now) }
{
    let mut size = Size { names: 0, nodes: 0 };
    for s in m.sections.as_slice() {
        size = plus(size, section_size(s));
    }
    size
}

/// What the instances of a module give, up to the limits, without what their modules give.
fn instances_size(m: &ModuleTree) -> Size
    ensures { result ≡ spec.capped (spec.instances_size m.now) }
{
    let mut size = Size { names: 0, nodes: 0 };
    for s in m.sections.as_slice() {
        size = plus(size, instance_size(s));
    }
    size
}

/// What each module gives without its instances, up to the limits.
fn own_sizes(alloc: Global, p: &Program) -> Result<Seq<Size>, NoMemory>
    ensures { IfOk result (λ sizes. sizes ≡ spec.own_sizes p.now) }
{
    let mut sizes = Seq::new(alloc);
    for m in p.modules.as_slice() {
        sizes.push(own_size(m))?;
    }
    Ok(sizes)
}

/// What each module gives with its instances, up to the limits, but without what their modules give.
fn whole_sizes(alloc: Global, p: &Program) -> Result<Seq<Size>, NoMemory>
    ensures { IfOk result (λ sizes. sizes ≡ spec.whole_sizes p.now) }
{
    let mut sizes = Seq::new(alloc);
    for m in p.modules.as_slice() {
        sizes.push(plus(own_size(m), instances_size(m)))?;
    }
    Ok(sizes)
}

/// The size at a place, and nothing behind the end.
pub fn size_at(sizes: &[Size], i: usize) -> Size
    ensures { result ≡ spec.size_at sizes.now i }
{
    match sizes.get(i) {
        Some(size) => *size,
        None => Size { names: 0, nodes: 0 },
    }
}

/// A size with those at some places, up to the limits.
fn grown(sizes: &[Size], whole: Size, below: &[usize]) -> Size
    ensures { result ≡ spec.grown sizes.now whole below.now }
{
    let mut size = plus(whole, Size { names: 0, nodes: 0 });
    for i in below {
        size = plus(size, size_at(sizes, *i));
    }
    size
}

/// Each size with those at its places, up to the limits.
fn all_grown(
    alloc: Global,
    sizes: &[Size],
    wholes: &Seq<Size>,
    children: &Seq<Seq<usize>>,
) -> Result<Seq<Size>, NoMemory>
    requires { length wholes.now ≡ length children.now }
    ensures { IfOk result (λ after. after ≡ spec.all_grown sizes.now wholes.now children.now) }
{
    let mut after = Seq::new(alloc);
    for (i, below) in children.as_slice().iter().enumerate() {
        let size = grown(sizes, *wholes.get(i), below.as_slice());
        after.push(size)?;
    }
    Ok(after)
}

/// Whether the sizes are equal, one by one.
fn are_same(sizes: &[Size], others: &[Size]) -> bool
    ensures { OnTrue result (sizes.now ≡ others.now) }
{
    if sizes.len() != others.len() {
        return false;
    }
    for (i, a) in sizes.iter().enumerate() {
        if !is_same(*a, others[i]) {
            return false;
        }
    }
    true
}

/// The sizes with so many levels of instances below them, up to the limits. It ends where nothing changes: a module whose instances
/// reach deeper than there are names within the limits has passed them.
fn all_levels(
    alloc: Global,
    levels: usize,
    own: Seq<Size>,
    wholes: &Seq<Size>,
    children: &Seq<Seq<usize>>,
) -> Result<Seq<Size>, NoMemory>
    requires { length wholes.now ≡ length children.now }
    ensures { IfOk result (λ sizes. sizes ≡ spec.grown_times levels own wholes.now children.now) }
{
    let mut sizes = own;
    for _level in 0..levels {
        let after = all_grown(alloc, sizes.as_slice(), wholes, children)?;
        if are_same(after.as_slice(), sizes.as_slice()) {
            break;
        }
        sizes = after;
    }
    Ok(sizes)
}

/// The sizes of the modules, with all instances below them, up to the limits.
pub fn sizes(alloc: Global, p: &Program, children: &Seq<Seq<usize>>) -> Result<Seq<Size>, NoMemory>
    requires { children.now ≡ ranks.children p.now }
    ensures { IfOk result (λ sizes. sizes ≡ spec.sizes p.now (length p.now.modules)) }
{
    let wholes = whole_sizes(alloc, p)?;
    let own = own_sizes(alloc, p)?;
    all_levels(alloc, p.modules.len(), own, &wholes, children)
}
