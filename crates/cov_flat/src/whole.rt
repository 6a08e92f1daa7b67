ghost use Rattle.std.specs.Prelude.{◌≡◌, Ok, None, IfOk, IfErr, OnOk};
ghost use Rattle.cov_model.specs.Flat.{IsFlat};
ghost use Rattle.cov_modules.specs.Conditions.{IsFlattenable};
ghost use Rattle.cov_modules.specs.Flatten.{flat, flat_fault, Tells};
ghost use Rattle.cov_modules.specs.ModuleFaults as spec;

use crate::doubles::double_assign;
use crate::faults::unknown_name;
use crate::model::model;
use crate::naming::are_distinct;
use cov_flatness::flat_is_flat;
use cov_model::Model;
use cov_modules::check_modules;
use cov_paths::Scopes;
use cov_stops::Stops;
use cov_syntax::{FaultKind, Program, Refused, Span};
use std::alloc::Global;

/// A place refuses with this kind of fault.
fn refuse(kind: FaultKind, place: Option<Span>) -> Result<(), Refused>
    ensures none { OnOk result (place ≡ None) }
    ensures fault { IfErr result (Tells (spec.fault kind place)) }
{
    match place {
        Some(place) => Err(Refused::Fault(kind.at(place))),
        None => Ok(()),
    }
}

/// The flat model of a program, or its first fault: those of the modules, then a path in the flat walk that names nothing, or no value
/// or variable where one is needed, then an assignment to a variable that is assigned.
pub fn flatten(alloc: Global, p: Program) -> Result<Model, Refused>
    requires { IsFlattenable p }
    ensures ok { IfOk result (λ m. flat p ≡ Ok m) }
    ensures flat { IfOk result (λ m. IsFlat m) }
    ensures err { IfErr result (Tells (flat_fault p)) }
{
    flat_is_flat();
    are_distinct(&p.names);
    check_modules(alloc, &p)?;
    let stops = Stops::of(alloc, &p)?;
    let scopes = Scopes::of(alloc, &p, stops)?;
    refuse(FaultKind::UnknownName, unknown_name(&p, &scopes))?;
    refuse(FaultKind::DoubleAssign, double_assign(alloc, &p, &scopes)?)?;
    Ok(model(alloc, p, &scopes)?)
}
