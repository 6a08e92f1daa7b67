ghost use Rattle.std.specs.Prelude.{◌≡◌, map, length, None, true, IfOk};
ghost use Rattle.cov_modules.specs.Names.{first, has};
ghost use Rattle.cov_modules.specs.Modules.{instance_of, module_names};
ghost use Rattle.cov_modules.specs.Ranks.{never_rises};
ghost use Rattle.cov_modules.specs.ModuleFaults as spec;

use crate::modules::Modules;
use crate::ranks::{falling_ranks, rank_of};
use crate::reach::leads;
use cov_syntax::{ModuleTree, NoMemory, Program, Section, Seq, Span, TypeTree};
use std::alloc::Global;

/// Whether the module of the first name is that of the second, or contains it. It is only looked for where the rank is not less.
fn contains(
    alloc: Global,
    p: &Program,
    modules: &Modules,
    ranks: &[usize],
    from: u32,
    to: u32,
) -> Result<bool, NoMemory>
    requires modules { modules.now ≡ module_names p.now }
    requires known { spec.in_modules p.now (spec.unknown_module p.now) ≡ None }
    requires ranks { never_rises p.now ranks.now ≡ true }
    requires from { has (module_names p.now) from ≡ true }
    ensures { IfOk result (λ b. b ≡ spec.holds_module p.now (length p.now.modules) from to) }
{
    if rank_of(modules, ranks, from) < rank_of(modules, ranks, to) {
        return Ok(false);
    }
    leads(alloc, p, modules, from, to)
}

/// The place of the type that a section of a module declares, if it leads back to the module.
fn recursive_at(
    alloc: Global,
    p: &Program,
    modules: &Modules,
    ranks: &[usize],
    m: &ModuleTree,
    s: &Section,
) -> Result<Option<Span>, NoMemory>
    requires modules { modules.now ≡ module_names p.now }
    requires known { spec.in_modules p.now (spec.unknown_module p.now) ≡ None }
    requires ranks { never_rises p.now ranks.now ≡ true }
    requires here { first (map (spec.unknown_place p.now) (instance_of s.now)) ≡ None }
    ensures { IfOk result (λ place. place ≡ first (map (spec.recursive_place p.now m.now) (instance_of s.now))) }
{
    match s {
        Section::Decl { kind, .. } => match kind {
            TypeTree::Instance { module, .. } => {
                if contains(alloc, p, modules, ranks, module.name, m.name.name)? {
                    Ok(Some(module.place))
                } else {
                    Ok(None)
                }
            }
            TypeTree::Boolean => Ok(None),
            TypeTree::List(_) => Ok(None),
            TypeTree::Between(_, _) => Ok(None),
        },
        Section::Define { .. } => Ok(None),
        Section::Assign { .. } => Ok(None),
        Section::Cond { .. } => Ok(None),
    }
}

/// The place of the first declared type of a module that leads back to it.
fn recursive_in(
    alloc: Global,
    p: &Program,
    modules: &Modules,
    ranks: &[usize],
    m: &ModuleTree,
) -> Result<Option<Span>, NoMemory>
    requires modules { modules.now ≡ module_names p.now }
    requires known { spec.in_modules p.now (spec.unknown_module p.now) ≡ None }
    requires ranks { never_rises p.now ranks.now ≡ true }
    requires here { first (spec.unknown_module p.now m.now) ≡ None }
    ensures { IfOk result (λ place. place ≡ first (spec.recursive_module p.now m.now)) }
{
    for s in m.sections.as_slice() {
        if let Some(place) = recursive_at(alloc, p, modules, ranks, m, s)? {
            return Ok(Some(place));
        }
    }
    Ok(None)
}

/// The place of the first declared type through which a module contains itself.
pub fn recursive_module(
    alloc: Global,
    p: &Program,
    modules: &Modules,
    children: &Seq<Seq<usize>>,
) -> Result<Option<Span>, NoMemory>
    requires modules { modules.now ≡ module_names p.now }
    requires known { spec.in_modules p.now (spec.unknown_module p.now) ≡ None }
    ensures { IfOk result (λ place. place ≡ spec.in_modules p.now (spec.recursive_module p.now)) }
{
    let ranks = falling_ranks(alloc, p, modules, children)?;
    for m in p.modules.as_slice() {
        if let Some(place) = recursive_in(alloc, p, modules, ranks.as_slice(), m)? {
            return Ok(Some(place));
        }
    }
    Ok(None)
}
