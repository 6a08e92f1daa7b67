ghost use Rattle.std.specs.Prelude.{◌≡◌, [], map, Bool, List, None};
ghost use Rattle.cov_syntax.specs.declared.tree.Node.{Node};
ghost use Rattle.cov_model.specs.Kinds as kinds;
ghost use Rattle.cov_model.specs.Trees as trees;
ghost use Rattle.cov_model.specs.Walk.{Judged, compound, case_own, bodies, guards, tests_of_case};
ghost use Rattle.cov_kinds.specs.Seen.{IsKindOrWide};
ghost use Rattle.cov_walk.specs.Found.{Answers};
ghost use Rattle.cov_walk.specs.Gathered.{HasArms, arms_fault};
ghost use Rattle.cov_walk.specs.Places.{may_of};

use crate::arms::Arms;
use crate::found::Found;
use crate::refuse::{refuse_at, refuse_if, too_wide};
use crate::site::Site;
use cov_kinds::{Kind, joined};
use cov_syntax::{FaultKind, Refused};
use std::alloc::Global;

/// Whether the kind is Boolean, which is never too wide.
fn is_boolean(own: &Option<Kind>) -> bool
    ensures { (k : kinds.Kind) → IsKindOrWide own.now k → result ≡ kinds.is_boolean k }
{
    matches!(own, Some(Kind::Boolean))
}

/// A case, given what is found at its branches, and whether its last guard closes it.
pub(crate) fn case(alloc: Global, at: Site, arms: Arms, closed: bool) -> Result<Found, Refused>
    ensures { (bs : List (Judged × Judged)) (m : Node) (settled : Bool → Node) → HasArms bs arms → arms_fault (may_of at.may) bs ≡ None → closed ≡ trees.is_closed [] (map (λ (e : Judged). e.tree) (guards bs)) → Answers (compound at.place m (case_own bs) (bodies bs) (tests_of_case at.place bs) settled) (may_of at.may) result }
{
    let own = joined(alloc, arms.bodies.kinds.as_slice())?;
    refuse_at(arms.misfit(is_boolean(&own)))?;
    refuse_if(!closed, FaultKind::CaseNotClosed, at.place)?;
    match own {
        None => Err(too_wide(at.place)),
        Some(own) => Ok(Found::new(own, arms.bodies.misfits)),
    }
}
