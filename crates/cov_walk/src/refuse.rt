ghost use Rattle.std.specs.Prelude.{option_map, true};
ghost use Rattle.cov_syntax.specs.Faults.{code_of};
ghost use Rattle.cov_model.specs.Walk.{fault_if, kind, range_too_wide};
ghost use Rattle.cov_walk.specs.Found.{Tells, TellsFault};
ghost use Rattle.cov_walk.specs.Misfits.{kind_told};
ghost use Rattle.cov_walk.specs.Places.{asked};

use crate::misfits::Misfits;
use cov_kinds::Asks;
use cov_syntax::{FaultKind, Refused, Span};

/// A fault where the test holds.
pub(crate) fn refuse_if(bad: bool, kind: FaultKind, place: Span) -> Result<(), Refused>
    ensures { Tells (fault_if bad (code_of kind) place) result }
{
    if bad {
        Err(Refused::Fault(kind.at(place)))
    } else {
        Ok(())
    }
}

/// Kind at the place, if there is one.
pub(crate) fn refuse_at(misfit: Option<Span>) -> Result<(), Refused>
    ensures { Tells (option_map (λ (place : Span). record { code = kind; place = place }) misfit) result }
{
    match misfit {
        None => Ok(()),
        Some(place) => Err(Refused::Fault(FaultKind::Kind.at(place))),
    }
}

/// Kind of what does not fit what the place asks, if it asks something.
pub(crate) fn refuse_misfit(asks: Option<Asks>, misfits: Misfits) -> Result<(), Refused>
    ensures { Tells (kind_told (asked asks) misfits) result }
{
    match asks {
        None => Ok(()),
        Some(asks) => refuse_at(misfits.of(asks)),
    }
}

/// RangeTooWide of an expression.
pub(crate) fn too_wide(place: Span) -> Refused
    ensures { TellsFault (fault_if true range_too_wide place) result }
{
    Refused::Fault(FaultKind::RangeTooWide.at(place))
}
