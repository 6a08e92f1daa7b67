ghost use Rattle.std.specs.Prelude.{◌≡◌, map};
ghost use Rattle.cov_modules.specs.Names.{first};
ghost use Rattle.cov_modules.specs.Modules.{instance_of, module_names};
ghost use Rattle.cov_modules.specs.ModuleFaults as spec;

use crate::modules::Modules;
use cov_syntax::{ModuleTree, Program, Section, Span, TypeTree};

/// The place of the type that a section declares, if it names no module.
fn unknown_at(p: &Program, modules: &Modules, s: &Section) -> Option<Span>
    requires { modules.now ≡ module_names p.now }
    ensures { result ≡ first (map (spec.unknown_place p.now) (instance_of s.now)) }
{
    match s {
        Section::Decl { kind, .. } => match kind {
            TypeTree::Instance { module, .. } => match modules.find(module.name) {
                None => Some(module.place),
                Some(_) => None,
            },
            TypeTree::Boolean => None,
            TypeTree::List(_) => None,
            TypeTree::Between(_, _) => None,
        },
        Section::Define { .. } => None,
        Section::Assign { .. } => None,
        Section::Cond { .. } => None,
    }
}

/// The place of the first declared type of a module that names no module.
fn unknown_in(p: &Program, modules: &Modules, m: &ModuleTree) -> Option<Span>
    requires { modules.now ≡ module_names p.now }
    ensures { result ≡ first (spec.unknown_module p.now m.now) }
{
    for s in m.sections.as_slice() {
        if let Some(place) = unknown_at(p, modules, s) {
            return Some(place);
        }
    }
    None
}

/// The place of the first declared type that names no module.
pub fn unknown_module(p: &Program, modules: &Modules) -> Option<Span>
    requires { modules.now ≡ module_names p.now }
    ensures { result ≡ spec.in_modules p.now (spec.unknown_module p.now) }
{
    for m in p.modules.as_slice() {
        if let Some(place) = unknown_in(p, modules, m) {
            return Some(place);
        }
    }
    None
}
