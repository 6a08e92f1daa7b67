ghost use Rattle.std.specs.Prelude.{◌≡◌, ◌++◌, IfOk, OnOk};
ghost use Rattle.std.specs.List.{flat_map};
ghost use Rattle.cov_modules.specs.Modules.{instance_of, module_names};
ghost use Rattle.cov_modules.specs.Ranks as spec;

use crate::modules::Modules;
use cov_syntax::{ModuleTree, NoMemory, Program, Section, Seq, TypeTree};
use std::alloc::Global;

/// Puts the place of the module last that a section declares an instance of.
fn put_child(modules: &Modules, s: &Section, places: &mut Seq<usize>) -> Result<(), NoMemory>
    ensures { OnOk result (places.new ≡ places.old ++ flat_map (spec.child modules.now) (instance_of s.now)) }
{
    match s {
        Section::Decl { kind, .. } => match kind {
            TypeTree::Instance { module, .. } => match modules.find(module.name) {
                Some(place) => places.push(place),
                None => Ok(()),
            },
            TypeTree::Boolean => Ok(()),
            TypeTree::List(_) => Ok(()),
            TypeTree::Between(_, _) => Ok(()),
        },
        Section::Define { .. } => Ok(()),
        Section::Assign { .. } => Ok(()),
        Section::Cond { .. } => Ok(()),
    }
}

/// The places of the modules of a module's instances.
fn children_of(alloc: Global, modules: &Modules, m: &ModuleTree) -> Result<Seq<usize>, NoMemory>
    ensures { IfOk result (λ places. places ≡ spec.children_of modules.now m.now) }
{
    let mut places = Seq::new(alloc);
    for s in m.sections.as_slice() {
        put_child(modules, s, &mut places)?;
    }
    Ok(places)
}

/// For each module the places of the modules of its instances.
pub fn children(alloc: Global, p: &Program, modules: &Modules) -> Result<Seq<Seq<usize>>, NoMemory>
    requires { modules.now ≡ module_names p.now }
    ensures { IfOk result (λ all. all ≡ spec.children p.now) }
{
    let mut all = Seq::new(alloc);
    for m in p.modules.as_slice() {
        all.push(children_of(alloc, modules, m)?)?;
    }
    Ok(all)
}
