ghost use Rattle.std.specs.Prelude.{◌≡◌, IfOk, true};
ghost use Rattle.std.specs.List.{list_all};
ghost use Rattle.cov_modules.specs.Modules.{instance_of, module_names};
ghost use Rattle.cov_modules.specs.Ranks as spec;

use crate::advice::advised_ranks;
use crate::modules::Modules;
use cov_syntax::{ModuleTree, NoMemory, Program, Section, Seq, TypeTree};
use std::alloc::Global;

/// The rank of the module of a name.
pub fn rank_of(modules: &Modules, ranks: &[usize], name: u32) -> usize
    ensures { result ≡ spec.rank_of modules.now ranks.now name }
{
    match modules.find(name) {
        Some(i) => match ranks.get(i) {
            Some(rank) => *rank,
            None => 0,
        },
        None => 0,
    }
}

/// Whether the instance that a section declares, if it does, has no greater rank than this one.
fn never_rises_at(modules: &Modules, ranks: &[usize], rank: usize, s: &Section) -> bool
    ensures { result ≡ list_all (spec.is_at_most modules.now ranks.now rank) (instance_of s.now) }
{
    match s {
        Section::Decl { kind, .. } => match kind {
            TypeTree::Instance { module, .. } => rank_of(modules, ranks, module.name) <= rank,
            TypeTree::Boolean => true,
            TypeTree::List(_) => true,
            TypeTree::Between(_, _) => true,
        },
        Section::Define { .. } => true,
        Section::Assign { .. } => true,
        Section::Cond { .. } => true,
    }
}

/// Whether no instance of a module has a greater rank than the module.
fn never_rises_in(modules: &Modules, ranks: &[usize], m: &ModuleTree) -> bool
    ensures { result ≡ spec.never_rises_in modules.now ranks.now m.now }
{
    let rank = rank_of(modules, ranks, m.name.name);
    for s in m.sections.as_slice() {
        if !never_rises_at(modules, ranks, rank, s) {
            return false;
        }
    }
    true
}

/// Whether no instance has a greater rank than the module that declares it.
fn never_rises(p: &Program, modules: &Modules, ranks: &[usize]) -> bool
    requires { modules.now ≡ module_names p.now }
    ensures { result ≡ spec.never_rises p.now ranks.now }
{
    for m in p.modules.as_slice() {
        if !never_rises_in(modules, ranks, m) {
            return false;
        }
    }
    true
}

/// Ranks that never rise. The modules of a circle have one rank, and only these, so that few circles are looked for in vain.
pub fn falling_ranks(
    alloc: Global,
    p: &Program,
    modules: &Modules,
    children: &Seq<Seq<usize>>,
) -> Result<Vec<usize>, NoMemory>
    requires { modules.now ≡ module_names p.now }
    ensures { IfOk result (λ ranks. spec.never_rises p.now ranks.items ≡ true) }
{
    let ranks = advised_ranks(alloc, children)?;
    if never_rises(p, modules, ranks.as_slice()) {
        Ok(ranks)
    } else {
        Ok(Vec::new(alloc))
    }
}
