ghost use Rattle.std.specs.Prelude.{◌≡◌, IsTrue, IsFalse, OnOk};
ghost use Rattle.cov_syntax.specs.declared.tree.Node.TheOpen.{Node-F};
ghost use Rattle.cov_model.specs.Kinds.{Kinds};
ghost use Rattle.cov_model.specs.Walk as walk;
ghost use Rattle.cov_model.specs.Walk.{Judged, of_node, judged_two, first, tests_of_one, tests_of_two, may_of_one, may_of_left, may_of_right, has_zero};
ghost use Rattle.cov_kinds.specs.Seen.{seen};
ghost use Rattle.cov_walk.specs.Found.{IsFound, Answers, Tells};
ghost use Rattle.cov_walk.specs.Places.{may_of, is_union};

use crate::asked::{asked_of_one, asked_of_two, divides, is_temporal_one, is_temporal_two};
use crate::found::Found;
use crate::misfits::Misfits;
use crate::refuse::{refuse_if, refuse_misfit, too_wide};
use crate::site::Site;
use cov_kinds::{of_one, of_two};
use cov_syntax::{FaultKind, Op1, Op2, Refused, Span};
use std::alloc::Global;

/// The tests at an operator with one operand, in which there is no fault.
fn test_one(at: Site, op: Op1, operand: &Found) -> Result<(), Refused>
    ensures { (j : Judged) → IsFound j (may_of_one op (may_of at.may)) operand.now → Tells (first (tests_of_one at.place op j (may_of at.may))) result }
{
    let is_next = matches!(op, Op1::Next);
    refuse_if(is_next && !at.may.next, FaultKind::NextPlace, at.place)?;
    let is_temporal = is_temporal_one(op);
    refuse_if(
        is_temporal && !at.may.temporal,
        FaultKind::TemporalPlace,
        at.place,
    )?;
    refuse_misfit(asked_of_one(op), operand.misfits)
}

/// An operator with one operand, given what is found there.
pub(crate) fn one(at: Site, op: Op1, operand: Found) -> Result<Found, Refused>
    ensures { (ks : Kinds) (j : Judged) → IsFound j (may_of_one op (may_of at.may)) operand → Answers (of_node ks (Node-F.One op j) at.place) (may_of at.may) result }
{
    test_one(at, op, &operand)?;
    match of_one(op, operand.own) {
        None => Err(too_wide(at.place)),
        Some(own) => Ok(Found::new(own, Misfits::everywhere(at.place))),
    }
}

/// The tests at an operator with two operands, in which there is no fault. The divisor stands at its own place.
fn test_two(at: Site, op: Op2, left: &Found, right: &Found, divisor: Span) -> Result<(), Refused>
    ensures told { (i j : Judged) → IsFound i (may_of_left op (may_of at.may)) left.now → IsFound j (may_of_right op (may_of at.may)) right.now → j.tree.place ≡ divisor → Tells (first (tests_of_two at.place op i j (may_of at.may))) result }
    ensures divisor { OnOk result (IsTrue (walk.divides op) → IsFalse (has_zero (seen right.now.own))) }
{
    let is_temporal = is_temporal_two(op);
    refuse_if(
        is_temporal && !at.may.temporal,
        FaultKind::TemporalPlace,
        at.place,
    )?;
    let one_side = left.own.is_boolean() || right.own.is_boolean();
    let asks = asked_of_two(op, one_side);
    refuse_misfit(asks, left.misfits)?;
    refuse_misfit(asks, right.misfits)?;
    let may_fail = divides(op) && right.own.has_zero();
    refuse_if(may_fail, FaultKind::DivisorMayBeZero, divisor)
}

/// An operator with two operands, other than `union`, given what is found there.
pub(crate) fn two(
    alloc: Global,
    at: Site,
    op: Op2,
    left: Found,
    right: Found,
    divisor: Span,
) -> Result<Found, Refused>
    requires { IsFalse (is_union op) }
    ensures { (i j : Judged) → IsFound i (may_of_left op (may_of at.may)) left → IsFound j (may_of_right op (may_of at.may)) right → j.tree.place ≡ divisor → Answers (judged_two at.place op i j) (may_of at.may) result }
{
    test_two(at, op, &left, &right, divisor)?;
    match of_two(alloc, op, &left.own, &right.own)? {
        None => Err(too_wide(at.place)),
        Some(own) => Ok(Found::new(own, Misfits::everywhere(at.place))),
    }
}
