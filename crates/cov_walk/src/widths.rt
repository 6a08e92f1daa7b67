ghost use Rattle.std.specs.Prelude.{◌≡◌, ◌≤◌, map, IfOk};
ghost use Rattle.cov_model.specs.Walk.{judged};
ghost use Rattle.cov_walk.specs.Found.{HasNoFault};
ghost use Rattle.cov_walk.specs.Parts.{judged_branch};
ghost use Rattle.cov_walk.specs.Places.{may_of};
ghost use Rattle.cov_walk.specs.Wide.{AnswersWide, AnswersWideMembers, AnswersWideArms, widest_member, widest_arm};
ghost use Rattle.cov_walk.specs.Widest as spec;

use crate::arms::Arms;
use crate::cases::case;
use crate::closed::is_closed;
use crate::judging::judge;
use crate::may::May;
use crate::members::Members;
use crate::operator::{one, two};
use crate::sets::{set, union};
use crate::site::Site;
use crate::topping::above;
use crate::wide::{Wide, WideArms, WideMembers};
use cov_kinds::KindTable;
use cov_syntax::{Branch, Expr, NoMemory, Node, Op2, Refused, Seq};
use std::alloc::Global;

/// The greatest number of values of the own kinds of an expression and of its parts, where the walk finds no fault in some place.
pub fn widest(alloc: Global, ks: &KindTable, e: &Expr) -> Result<u32, NoMemory>
    requires { HasNoFault ks.now e.now }
    ensures value { IfOk result (λ w. w ≡ spec.widest ks.now e.now) }
    ensures narrow { IfOk result (λ w. w ≤ 1024) }
{
    match wide(alloc, ks, May::anything(), e) {
        Ok(found) => Ok(found.widest),
        Err(Refused::Memory) => Err(NoMemory),
        Err(Refused::Fault(_)) => unreachable!(),
    }
}

/// What is found at an expression where these may stand and the greatest number of values there, or the first fault.
#[cycle(wide)]
fn wide(alloc: Global, ks: &KindTable, may: May, e: &Expr) -> Result<Wide, Refused>
    ensures { AnswersWide (judged ks.now e.now) (spec.widest ks.now e.now) (may_of may) result }
{
    let at = Site {
        place: e.place,
        may,
    };
    match &e.node {
        Node::One(op, a) => {
            let operand = wide(alloc, ks, may.operand(*op), a.get())?;
            above(one(at, *op, operand.found), operand.widest)
        }
        Node::Two(op, a, b) => {
            let left = wide(alloc, ks, may.left(*op), a.get())?;
            let right = wide(alloc, ks, may.right(*op), b.get())?;
            let below = left.widest.max(right.widest);
            match op {
                Op2::Union => above(union(alloc, at, left.found, right.found), below),
                _ => {
                    let found = two(alloc, at, *op, left.found, right.found, b.get().place);
                    above(found, below)
                }
            }
        }
        Node::Set(items) => {
            let gathered = wide_members(alloc, ks, may.part(), items)?;
            above(set(alloc, at, gathered.members), gathered.widest)
        }
        Node::Case(branches) => {
            let gathered = wide_branches(alloc, ks, may, branches)?;
            let closed = is_closed(branches.as_slice());
            above(case(alloc, at, gathered.arms, closed), gathered.widest)
        }
        Node::Lit(_) | Node::Path(_) | Node::Var(_) | Node::Def(_) | Node::Range(_, _) => {
            above(judge(alloc, ks, may, e), 0)
        }
    }
}

/// What is found at the members and the greatest number of values there, or the first fault.
#[cycle(wide)]
fn wide_members(
    alloc: Global,
    ks: &KindTable,
    may: May,
    items: &Seq<Expr>,
) -> Result<WideMembers, Refused>
    ensures { AnswersWideMembers (map (judged ks.now) items.now) (widest_member ks.now items.now) (may_of may) result }
{
    let mut members = Members::new(alloc);
    let mut widest = 0u32;
    for e in items.as_slice() {
        let member = wide(alloc, ks, may, e)?;
        widest = widest.max(member.widest);
        members = members.with(member.found)?;
    }
    Ok(WideMembers { members, widest })
}

/// What is found at the branches and the greatest number of values there, or the first fault. A guard comes before its body.
#[cycle(wide)]
fn wide_branches(
    alloc: Global,
    ks: &KindTable,
    may: May,
    branches: &Seq<Branch>,
) -> Result<WideArms, Refused>
    ensures { AnswersWideArms (map (judged_branch ks.now) branches.now) (widest_arm ks.now branches.now) (may_of may) result }
{
    let mut arms = Arms::new(alloc);
    let mut widest = 0u32;
    for b in branches.as_slice() {
        let guard = wide(alloc, ks, may.plain(), &b.guard)?;
        let body = wide(alloc, ks, may.part(), &b.body)?;
        widest = widest.max(guard.widest).max(body.widest);
        arms = arms.with(guard.found, body.found)?;
    }
    Ok(WideArms { arms, widest })
}
