ghost use Rattle.std.specs.Prelude.{◌≡◌, [], IfOk};
ghost use Rattle.cov_modules.specs.ModuleFaults as spec;

use crate::declared::put_declared;
use crate::name_set::NameSet;
use cov_syntax::{ModuleTree, NoMemory, Program, Seq, Span, Spelled};
use std::alloc::Global;

/// The place of the first name that stood before it.
fn repeated(alloc: Global, names: &[Spelled]) -> Result<Option<Span>, NoMemory>
    ensures { IfOk result (λ place. place ≡ spec.repeated [] names.now) }
{
    let mut before = NameSet::new(alloc);
    for x in names {
        if before.has(x.name) {
            return Ok(Some(x.place));
        }
        before.put(x.name)?;
    }
    Ok(None)
}

/// The formals of a module, and the names that it declares.
fn names_of(alloc: Global, m: &ModuleTree) -> Result<Seq<Spelled>, NoMemory>
    ensures { IfOk result (λ names. names ≡ spec.names_of m.now) }
{
    let mut names = m.formals.copy(alloc)?;
    put_declared(m.sections.as_slice(), &mut names)?;
    Ok(names)
}

/// The place of the first formal or declared name of a module that stood before it there.
fn repeated_in(alloc: Global, m: &ModuleTree) -> Result<Option<Span>, NoMemory>
    ensures { IfOk result (λ place. place ≡ spec.repeated [] (spec.names_of m.now)) }
{
    let names = names_of(alloc, m)?;
    repeated(alloc, names.as_slice())
}

/// The place of the first name that is there twice.
pub fn duplicate_name(alloc: Global, p: &Program) -> Result<Option<Span>, NoMemory>
    ensures { IfOk result (λ place. place ≡ spec.duplicate_name p.now) }
{
    let mut before = NameSet::new(alloc);
    for m in p.modules.as_slice() {
        if before.has(m.name.name) {
            return Ok(Some(m.name.place));
        }
        before.put(m.name.name)?;
        if let Some(place) = repeated_in(alloc, m)? {
            return Ok(Some(place));
        }
    }
    Ok(None)
}
