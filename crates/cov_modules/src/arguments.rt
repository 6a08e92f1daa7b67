ghost use Rattle.std.specs.Prelude.{◌≡◌, map, length, ◌<◌};
ghost use Rattle.cov_modules.specs.Names.{first};
ghost use Rattle.cov_modules.specs.Modules.{instance_of, instances, module_names};
ghost use Rattle.cov_modules.specs.ModuleFaults as spec;
ghost use Rattle.cov_modules.specs.Conditions.{IsFlattenable};

use crate::main_module::is_main;
use crate::modules::Modules;
use cov_syntax::{ModuleTree, Program, Section, Span, TypeTree};

/// How many formals the module of this name has.
fn formals_of(p: &Program, modules: &Modules, name: u32) -> usize
    requires { modules.now ≡ module_names p.now }
    ensures { result ≡ spec.formals_of p.now name }
{
    match modules.find(name) {
        Some(i) => p.modules.get(i).formals.len(),
        None => 0,
    }
}

/// The place of the type that a section declares, if its arguments are not as many as the formals.
fn wrong_at(p: &Program, modules: &Modules, s: &Section) -> Option<Span>
    requires { modules.now ≡ module_names p.now }
    ensures { result ≡ first (map (spec.wrong_place p.now) (instance_of s.now)) }
{
    match s {
        Section::Decl { kind, .. } => match kind {
            TypeTree::Instance { module, given } => {
                if given.len() == formals_of(p, modules, module.name) {
                    None
                } else {
                    Some(module.place)
                }
            }
            TypeTree::Boolean => None,
            TypeTree::List(_) => None,
            TypeTree::Between(_, _) => None,
        },
        Section::Define { .. } => None,
        Section::Assign { .. } => None,
        Section::Cond { .. } => None,
    }
}

/// The place of the first instance of a module with another number of arguments than formals.
fn wrong_instance(p: &Program, modules: &Modules, m: &ModuleTree) -> Option<Span>
    requires { modules.now ≡ module_names p.now }
    ensures { result ≡ first (map (spec.wrong_place p.now) (instances m.now)) }
{
    for s in m.sections.as_slice() {
        if let Some(place) = wrong_at(p, modules, s) {
            return Some(place);
        }
    }
    None
}

/// The place of the module's own name, if it is `main` with formals, or of its first instance with wrong arguments.
fn wrong_in(p: &Program, modules: &Modules, m: &ModuleTree) -> Option<Span>
    requires modules { modules.now ≡ module_names p.now }
    requires name { m.now.name.name < length p.now.names }
    ensures { result ≡ first (spec.wrong_arguments p.now m.now) }
{
    if m.formals.len() > 0 && is_main(p, m) {
        Some(m.name.place)
    } else {
        wrong_instance(p, modules, m)
    }
}

/// The place of the first `main` with formals, or instance with another number of arguments than formals.
pub fn wrong_arguments(p: &Program, modules: &Modules) -> Option<Span>
    requires modules { modules.now ≡ module_names p.now }
    requires flattenable { IsFlattenable p.now }
    ensures { result ≡ spec.in_modules p.now (spec.wrong_arguments p.now) }
{
    for m in p.modules.as_slice() {
        if let Some(place) = wrong_in(p, modules, m) {
            return Some(place);
        }
    }
    None
}
