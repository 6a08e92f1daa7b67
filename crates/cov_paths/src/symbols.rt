ghost use Rattle.std.specs.Prelude.{IfOk, OnOk};
ghost use Rattle.cov_modules.specs.Names.{AddsAll, HasSame};
ghost use Rattle.cov_modules.specs.Modules as spec;

use cov_modules::{NameSet, put_symbols};
use cov_syntax::{ModuleTree, NoMemory, Program};
use std::alloc::Global;

/// Puts the symbols of the enumerations of a module into the set.
fn put_module_symbols(m: &ModuleTree, set: &mut NameSet) -> Result<(), NoMemory>
    ensures { OnOk result (AddsAll set.old set.new (spec.module_symbols m.now)) }
{
    for s in m.sections.as_slice() {
        put_symbols(s, set)?;
    }
    Ok(())
}

/// The symbols of all enumerations in the file.
pub(crate) fn symbols(alloc: Global, p: &Program) -> Result<NameSet, NoMemory>
    ensures { IfOk result (λ set. HasSame set (spec.symbols p.now)) }
{
    let mut set = NameSet::new(alloc);
    for m in p.modules.as_slice() {
        put_module_symbols(m, &mut set)?;
    }
    Ok(set)
}
