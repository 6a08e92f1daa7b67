ghost use Rattle.std.specs.Prelude.{◌≡◌, ◌<◌, [], map, fold, length, true, IfOk, OnOk, None};
ghost use Rattle.cov_modules.specs.Names.{HasSame, has, with_name};
ghost use Rattle.cov_modules.specs.Modules.{Declaration, instances, module_names};
ghost use Rattle.cov_modules.specs.ModuleFaults as spec;

use crate::modules::Modules;
use crate::name_set::NameSet;
use cov_syntax::{ModuleTree, NoMemory, Program, Section, Seq, TypeTree};
use std::alloc::Global;

/// Puts a name last that was not found before.
fn add(name: u32, seen: &mut NameSet, found: &mut Seq<u32>) -> Result<(), NoMemory>
    requires { HasSame seen.old found.old }
    ensures same { OnOk result (HasSame seen.new found.new) }
    ensures found { OnOk result (found.new ≡ with_name found.old name) }
{
    if seen.has(name) {
        return Ok(());
    }
    seen.put(name)?;
    found.push(name)?;
    Ok(())
}

/// Adds the modules' names in the declarations of a module's instances.
fn add_instances(m: &ModuleTree, seen: &mut NameSet, found: &mut Seq<u32>) -> Result<(), NoMemory>
    requires { HasSame seen.old found.old }
    ensures same { OnOk result (HasSame seen.new found.new) }
    ensures found { OnOk result (found.new ≡ fold with_name found.old (spec.module_names_in m.now)) }
{
    for s in m.sections.as_slice() {
        if let Section::Decl { kind, .. } = s {
            if let TypeTree::Instance { module, .. } = kind {
                add(module.name, seen, found)?;
            }
        }
    }
    Ok(())
}

/// Adds the modules' names in the declarations of the module of this name.
fn add_below(
    p: &Program,
    modules: &Modules,
    name: u32,
    seen: &mut NameSet,
    found: &mut Seq<u32>,
) -> Result<(), NoMemory>
    requires modules { modules.now ≡ module_names p.now }
    requires same { HasSame seen.old found.old }
    ensures same { OnOk result (HasSame seen.new found.new) }
    ensures found { OnOk result (found.new ≡ fold with_name found.old (spec.names_below p.now name)) }
{
    match modules.find(name) {
        Some(i) => add_instances(p.modules.get(i), seen, found),
        None => Ok(()),
    }
}

/// Whether a module is another one, or contains it at any depth.
pub fn leads(
    alloc: Global,
    p: &Program,
    modules: &Modules,
    from: u32,
    to: u32,
) -> Result<bool, NoMemory>
    requires modules { modules.now ≡ module_names p.now }
    requires known { spec.in_modules p.now (spec.unknown_module p.now) ≡ None }
    requires from { has modules.now from ≡ true }
    ensures { IfOk result (λ b. b ≡ spec.holds_module p.now (length p.now.modules) from to) }
{
    let mut seen = NameSet::new(alloc);
    let mut found = Seq::new(alloc);
    add(from, &mut seen, &mut found)?;
    for next in 0..p.modules.len() {
        if next >= found.len() {
            break;
        }
        let name = *found.get(next);
        add_below(p, modules, name, &mut seen, &mut found)?;
    }
    Ok(seen.has(to))
}
