ghost use Rattle.std.specs.Prelude.{◌≡◌, map, IfOk, IfErr, OnOk, None};
ghost use Rattle.cov_model.specs.Types.{has_twice, type_fault};
ghost use Rattle.cov_model.specs.Walk.{first};
ghost use Rattle.cov_walk.specs.Found.{TellsFault};

use crate::value_set::ValueSet;
use cov_model::Var;
use cov_syntax::{FaultKind, NoMemory, Refused, Value};
use std::alloc::Global;

/// The greatest number of values of a type.
const MOST_VALUES: usize = 1024;

/// Refuses the first type with a fault.
pub(crate) fn check_types(alloc: Global, vars: &[Var]) -> Result<(), Refused>
    ensures none { OnOk result (first (map type_fault vars.now) ≡ None) }
    ensures err { IfErr result (TellsFault (first (map type_fault vars.now))) }
{
    for x in vars {
        check_type(alloc, x)?;
    }
    Ok(())
}

/// Refuses a type with no value, with a value twice, or with too many.
fn check_type(alloc: Global, x: &Var) -> Result<(), Refused>
    ensures none { OnOk result (type_fault x.now ≡ None) }
    ensures err { IfErr result (TellsFault (type_fault x.now)) }
{
    if x.values.len() == 0 || has_twice(alloc, x.values.as_slice())? {
        return Err(Refused::Fault(FaultKind::BadType.at(x.kind_place)));
    }
    if x.values.len() > MOST_VALUES {
        return Err(Refused::Fault(FaultKind::RangeTooWide.at(x.kind_place)));
    }
    Ok(())
}

/// Whether some value stands twice.
fn has_twice(alloc: Global, values: &[Value]) -> Result<bool, NoMemory>
    ensures { IfOk result (λ b. b ≡ has_twice values.now) }
{
    let mut before = ValueSet::new(alloc);
    for x in values {
        if before.has(*x) {
            return Ok(true);
        }
        before.put(*x)?;
    }
    Ok(false)
}
