ghost use Rattle.std.specs.Prelude.{◌≡◌, map};
ghost use Rattle.cov_model.specs.Walk.{judged, part_may};
ghost use Rattle.cov_walk.specs.Found.{Answers};
ghost use Rattle.cov_walk.specs.Gathered.{AnswersMembers, AnswersArms};
ghost use Rattle.cov_walk.specs.Parts.{judged_node, judged_branch};
ghost use Rattle.cov_walk.specs.Places.{may_of};

use crate::arms::Arms;
use crate::cases::case;
use crate::closed::is_closed;
use crate::found::Found;
use crate::leaves::{kind_read, leaf, literal_found, range};
use crate::may::May;
use crate::members::Members;
use crate::operator::{one, two};
use crate::sets::{set, union};
use crate::site::Site;
use cov_kinds::{Kind, KindTable};
use cov_syntax::{Branch, Expr, Node, Op2, Refused, Seq};
use std::alloc::Global;

/// What is found at an expression where these may stand, or its first fault.
#[cycle(judge)]
pub(crate) fn judge(alloc: Global, ks: &KindTable, may: May, e: &Expr) -> Result<Found, Refused>
    ensures { Answers (judged ks.now e.now) (may_of may) result }
{
    let at = Site {
        place: e.place,
        may,
    };
    judge_node(alloc, ks, at, &e.node)
}

#[cycle(judge)]
fn judge_node(alloc: Global, ks: &KindTable, at: Site, node: &Node) -> Result<Found, Refused>
    ensures { Answers (judged_node ks.now node.now at.place) (may_of at.may) result }
{
    match node {
        Node::Lit(value) => literal_found(alloc, at.place, *value),
        Node::Path(_) => leaf(at.place, Kind::Boolean),
        Node::Var(i) => leaf(at.place, kind_read(alloc, ks.var(*i))?),
        Node::Def(i) => leaf(at.place, kind_read(alloc, ks.def(*i))?),
        Node::One(op, e) => {
            let operand = judge(alloc, ks, at.may.operand(*op), e.get())?;
            one(at, *op, operand)
        }
        Node::Two(op, a, b) => {
            let left = judge(alloc, ks, at.may.left(*op), a.get())?;
            let right = judge(alloc, ks, at.may.right(*op), b.get())?;
            match op {
                Op2::Union => union(alloc, at, left, right),
                _ => two(alloc, at, *op, left, right, b.get().place),
            }
        }
        Node::Range(low, high) => range(at, *low, *high),
        Node::Set(items) => {
            let members = judge_members(alloc, ks, at.may.part(), items)?;
            set(alloc, at, members)
        }
        Node::Case(branches) => {
            let arms = judge_branches(alloc, ks, at.may, branches)?;
            case(alloc, at, arms, is_closed(branches.as_slice()))
        }
    }
}

/// What is found at the members, or the first fault.
#[cycle(judge)]
fn judge_members(
    alloc: Global,
    ks: &KindTable,
    may: May,
    items: &Seq<Expr>,
) -> Result<Members, Refused>
    ensures { AnswersMembers (map (judged ks.now) items.now) (may_of may) result }
{
    let mut members = Members::new(alloc);
    for e in items.as_slice() {
        let member = judge(alloc, ks, may, e)?;
        members = members.with(member)?;
    }
    Ok(members)
}

/// What is found at the branches, or the first fault. A guard comes before its body.
#[cycle(judge)]
fn judge_branches(
    alloc: Global,
    ks: &KindTable,
    may: May,
    branches: &Seq<Branch>,
) -> Result<Arms, Refused>
    ensures { AnswersArms (map (judged_branch ks.now) branches.now) (may_of may) result }
{
    let mut arms = Arms::new(alloc);
    for b in branches.as_slice() {
        let guard = judge(alloc, ks, may.plain(), &b.guard)?;
        let body = judge(alloc, ks, may.part(), &b.body)?;
        arms = arms.with(guard, body)?;
    }
    Ok(arms)
}
