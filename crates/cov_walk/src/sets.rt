ghost use Rattle.std.specs.Prelude.{◌≡◌, ◌∷◌, [], map, Bool};
ghost use Rattle.cov_syntax.specs.declared.tree.Node.{Node};
ghost use Rattle.std.specs.Prelude.{List, None};
ghost use Rattle.cov_model.specs.Kinds.{joined_kind};
ghost use Rattle.cov_model.specs.Walk.{Judged, compound, judged_two, tests_of_set, part_may};
ghost use Rattle.cov_syntax.specs.declared.tree.Op2.TheVariants as op2;
ghost use Rattle.cov_walk.specs.Found.{IsFound, Answers};
ghost use Rattle.cov_walk.specs.Gathered.{HasMembers, members_fault};
ghost use Rattle.cov_walk.specs.Places.{may_of};

use crate::asked::truth_if;
use crate::found::Found;
use crate::members::Members;
use crate::refuse::{refuse_if, refuse_misfit, too_wide};
use crate::site::Site;
use cov_kinds::joined;
use cov_syntax::{FaultKind, Refused};
use std::alloc::Global;

/// A set or a `union`, given what is found at its members.
pub(crate) fn set(alloc: Global, at: Site, members: Members) -> Result<Found, Refused>
    ensures { (js : List Judged) (m : Node) (settled : Bool → Node) → HasMembers js members → members_fault (part_may (may_of at.may)) js ≡ None → Answers (compound at.place m (joined_kind (map (λ (j : Judged). j.own) js)) js (tests_of_set at.place js) settled) (may_of at.may) result }
{
    refuse_if(!at.may.set, FaultKind::SetPlace, at.place)?;
    refuse_misfit(truth_if(members.some_boolean()), members.misfits)?;
    match joined(alloc, members.kinds.as_slice())? {
        None => Err(too_wide(at.place)),
        Some(own) => Ok(Found::new(own, members.misfits)),
    }
}

/// A `union`, given what is found at its sides.
pub(crate) fn union(alloc: Global, at: Site, left: Found, right: Found) -> Result<Found, Refused>
    ensures { (i j : Judged) → IsFound i (part_may (may_of at.may)) left → IsFound j (part_may (may_of at.may)) right → Answers (judged_two at.place op2.Union i j) (may_of at.may) result }
{
    let members = Members::new(alloc).with(left)?.with(right)?;
    set(alloc, at, members)
}
