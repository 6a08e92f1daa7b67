//! The operators of the logic along one lasso, on columns.

ghost use Rattle.std.specs.Prelude.{◌<◌, ◌≤◌, Bool, length};
ghost use Rattle.cov_logic.specs.Formula.{Formula};
ghost use Rattle.cov_logic.specs.Lasso.{Lasso};
ghost use Rattle.cov_model.specs.States.{State};
ghost use Rattle.cov_replay.specs.Columns.{IsColumn};
ghost use Rattle.cov_replay.specs.Operators as spec;
ghost use Rattle.cov_replay.specs.declared.operators.Join.TheVariants as join;
ghost use Rattle.cov_replay.specs.declared.operators.Walk.TheVariants as walk;
ghost use Rattle.cov_replay.specs.Told.{HasPlaces, Tells};
ghost use Rattle.cov_syntax.specs.declared.tree.Expr.{Expr};

use crate::columns::{both, copy, either, fill, next};
use crate::scan::scan;

/// Where along the lasso one operand is asked.
#[derive(Clone, Copy)]
pub(crate) enum Walk {
    Next,
    Sometime,
    Always,
    Never,
}

/// How two operands are asked.
#[derive(Clone, Copy)]
pub(crate) enum Join {
    Both,
    Either,
    Until,
    Release,
    Never,
}

/// Puts the column of an operator on the operand whose column stands first in the other one.
pub(crate) fn put_walk(way: Walk, column: &mut [bool], other: &mut [bool], turn: usize)
    requires room { length column.old ≤ length other.old }
    requires there { turn < length column.old }
    ensures { (label : State → Expr → Bool) (shown : Bool) (f : Formula Expr) (l : Lasso State) → HasPlaces l (length column.old) turn → IsColumn (Tells label shown f) l (length column.old) other.old → IsColumn (spec.Walks way (Tells label shown f)) l (length column.old) column.new }
{
    match way {
        Walk::Next => next(column, &*other, turn),
        Walk::Sometime => put_sometime(column, other, turn),
        Walk::Always => {
            fill(column, false);
            scan(column, &*other, turn, true);
        }
        Walk::Never => fill(column, false),
    }
}

/// Puts the column of a walk that comes to a place with the operand at last.
fn put_sometime(column: &mut [bool], other: &mut [bool], turn: usize)
    requires room { length column.old ≤ length other.old }
    requires there { turn < length column.old }
    ensures { (label : State → Expr → Bool) (shown : Bool) (f : Formula Expr) (l : Lasso State) → HasPlaces l (length column.old) turn → IsColumn (Tells label shown f) l (length column.old) other.old → IsColumn (spec.Walks walk.Sometime (Tells label shown f)) l (length column.old) column.new }
{
    let (stays, _rest) = other.split_at_mut(column.len());
    copy(column, &*stays);
    fill(stays, true);
    scan(column, &*stays, turn, false);
}

/// Puts the column of an operator on the operands whose columns these are. The second stands first in the other one.
pub(crate) fn put_join(way: Join, column: &mut [bool], other: &mut [bool], turn: usize)
    requires room { length column.old ≤ length other.old }
    requires there { turn < length column.old }
    ensures { (label : State → Expr → Bool) (first second : Bool) (f g : Formula Expr) (l : Lasso State) → HasPlaces l (length column.old) turn → IsColumn (Tells label first f) l (length column.old) column.old → IsColumn (Tells label second g) l (length column.old) other.old → IsColumn (spec.Joins way (Tells label first f) (Tells label second g)) l (length column.old) column.new }
{
    match way {
        Join::Both => both(column, &*other),
        Join::Either => either(column, &*other),
        Join::Until => put_until(column, other, turn),
        Join::Release => {
            both(column, &*other);
            scan(column, &*other, turn, true);
        }
        Join::Never => fill(column, false),
    }
}

/// Puts the column of the until whose left operand has the column, and whose right one stands first in the other.
fn put_until(column: &mut [bool], other: &mut [bool], turn: usize)
    requires room { length column.old ≤ length other.old }
    requires there { turn < length column.old }
    ensures { (label : State → Expr → Bool) (first second : Bool) (f g : Formula Expr) (l : Lasso State) → HasPlaces l (length column.old) turn → IsColumn (Tells label first f) l (length column.old) column.old → IsColumn (Tells label second g) l (length column.old) other.old → IsColumn (spec.Joins join.Until (Tells label first f) (Tells label second g)) l (length column.old) column.new }
{
    let (ends, _rest) = other.split_at_mut(column.len());
    scan(ends, &*column, turn, false);
    copy(column, &*ends);
}
