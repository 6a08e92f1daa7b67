ghost use Rattle.std.specs.Prelude.{◌≡◌, IfOk, OnOk};
ghost use Rattle.cov_modules.specs.Names.{AddsAll, HasSame, first};
ghost use Rattle.cov_modules.specs.Modules.{symbol_of, symbols_of, module_symbols};
ghost use Rattle.std.specs.List.{flat_map};
ghost use Rattle.cov_modules.specs.ModuleFaults as spec;

use crate::declared::put_declared;
use crate::name_set::NameSet;
use cov_syntax::{ModuleTree, NoMemory, Program, Section, Seq, Span, TypeTree, Value};
use std::alloc::Global;

/// Puts the symbols among the values into the set.
fn put_values(values: &[Value], set: &mut NameSet) -> Result<(), NoMemory>
    ensures { OnOk result (AddsAll set.old set.new (flat_map symbol_of values.now)) }
{
    for x in values {
        if let Value::Sym(name) = x {
            set.put(*name)?;
        }
    }
    Ok(())
}

/// Puts the symbols of the enumeration that a section declares into the set.
pub fn put_symbols(s: &Section, set: &mut NameSet) -> Result<(), NoMemory>
    ensures { OnOk result (AddsAll set.old set.new (symbols_of s.now)) }
{
    match s {
        Section::Decl { kind, .. } => match kind {
            TypeTree::List(values) => put_values(values.as_slice(), set),
            TypeTree::Boolean => Ok(()),
            TypeTree::Between(_, _) => Ok(()),
            TypeTree::Instance { .. } => Ok(()),
        },
        Section::Define { .. } => Ok(()),
        Section::Assign { .. } => Ok(()),
        Section::Cond { .. } => Ok(()),
    }
}

/// The symbols of the enumerations of a module.
fn symbols(alloc: Global, m: &ModuleTree) -> Result<NameSet, NoMemory>
    ensures { IfOk result (λ set. HasSame set (module_symbols m.now)) }
{
    let mut set = NameSet::new(alloc);
    for s in m.sections.as_slice() {
        put_symbols(s, &mut set)?;
    }
    Ok(set)
}

/// The place of the first declared name of a module that is a symbol there.
fn clash_in(alloc: Global, m: &ModuleTree) -> Result<Option<Span>, NoMemory>
    ensures { IfOk result (λ place. place ≡ first (spec.name_clash m.now)) }
{
    let set = symbols(alloc, m)?;
    let mut names = Seq::new(alloc);
    put_declared(m.sections.as_slice(), &mut names)?;
    for x in names.as_slice() {
        if set.has(x.name) {
            return Ok(Some(x.place));
        }
    }
    Ok(None)
}

/// The place of the first declared name that is a symbol of an enumeration of its module.
pub fn name_clash(alloc: Global, p: &Program) -> Result<Option<Span>, NoMemory>
    ensures { IfOk result (λ place. place ≡ spec.in_modules p.now spec.name_clash) }
{
    for m in p.modules.as_slice() {
        if let Some(place) = clash_in(alloc, m)? {
            return Ok(Some(place));
        }
    }
    Ok(None)
}
