//! What one lasso tells of a formula.

ghost use Rattle.std.specs.Prelude.{◌≡◌, ◌<◌, ◌≤◌, ◌*◌, Bool, IsTrue, if◌then◌else◌, length, not};
ghost use Rattle.cov_ctl.specs.Formulas.{formula_of};
ghost use Rattle.cov_logic.specs.Formula.{Atom};
ghost use Rattle.cov_model.specs.Atoms.{IsAtomOf};
ghost use Rattle.cov_model.specs.Machine.{IsScratchOf};
ghost use Rattle.cov_claims.specs.Claims.{claim_labelling};
ghost use Rattle.cov_replay.specs.Columns.{IsColumn};
ghost use Rattle.cov_replay.specs.Operators as operators;
ghost use Rattle.cov_claims.specs.Places.{lasso_of, places_of};
ghost use Rattle.cov_replay.specs.Ready.{IsAsked, IsPlain};
ghost use Rattle.cov_replay.specs.Told.{Tells};

use crate::columns::copy;
use crate::operators::{Join, Walk, put_join, put_walk};
use crate::places::{flip_at, state_at};
use cov_ctl::Formula;
use cov_evid::Evidence;
use cov_model::{Model, Scratch, atom_at};
use cov_syntax::Expr;

/// Whether an atom with this truth is shown, or else refuted.
fn is_told(truth: bool, shown: bool) -> bool
    ensures { result ≡ (if shown then truth else not truth) }
{
    if shown { truth } else { !truth }
}

/// Puts the column of an atom.
fn put_atom(
    m: &Model,
    sc: &mut Scratch,
    e: &Evidence,
    atom: &Expr,
    shown: bool,
    column: &mut [bool],
)
    requires made { IsScratchOf m.now sc.old }
    requires plain { IsPlain m.now e.now.lasso }
    requires atom { IsAtomOf m.now atom.now }
    requires places { length column.old ≡ places_of e.now.lasso }
    ensures kept { IsScratchOf m.now sc.new }
    ensures column { IsColumn (Tells (claim_labelling m.now e.now.claim) shown (Atom atom.now)) (lasso_of e.now.lasso) (places_of e.now.lasso) column.new }
{
    for place in 0..column.len() {
        let s = state_at(&e.lasso, place);
        let truth = atom_at(m, sc, atom, s, flip_at(&e.claim, s));
        column[place] = is_told(truth, shown);
    }
}

/// How the operator is shown, or else refuted, by its operand.
fn walk_of(f: &Formula, shown: bool) -> Walk
    ensures { result ≡ operators.walk_of (formula_of f.now) shown }
{
    match f {
        Formula::Ex(_) => if shown { Walk::Next } else { Walk::Never },
        Formula::Ef(_) => if shown { Walk::Sometime } else { Walk::Never },
        Formula::Eg(_) => if shown { Walk::Always } else { Walk::Never },
        Formula::Ax(_) => if shown { Walk::Never } else { Walk::Next },
        Formula::Af(_) => if shown { Walk::Never } else { Walk::Always },
        Formula::Ag(_) => if shown { Walk::Never } else { Walk::Sometime },
        _ => Walk::Never,
    }
}

/// How the operator is shown, or else refuted, by its operands.
fn join_of(f: &Formula, shown: bool) -> Join
    ensures { result ≡ operators.join_of (formula_of f.now) shown }
{
    match f {
        Formula::And(_, _) => if shown { Join::Both } else { Join::Either },
        Formula::Or(_, _) => if shown { Join::Either } else { Join::Both },
        Formula::Implies(_, _) => if shown { Join::Either } else { Join::Both },
        Formula::Eu(_, _) => if shown { Join::Until } else { Join::Never },
        Formula::Au(_, _) => if shown { Join::Never } else { Join::Release },
        _ => Join::Never,
    }
}

/// Whether the first operand is to be shown.
fn first_shown(f: &Formula, shown: bool) -> bool
    ensures { result ≡ operators.first_shown (formula_of f.now) shown }
{
    match f {
        Formula::Implies(_, _) => !shown,
        _ => shown,
    }
}

/// Puts into the first cells the column of the formula: at each place whether what is left of the lasso shows it, or else
/// refutes it. A level of cells is as many as there are places.
pub(crate) fn put_column(
    m: &Model,
    sc: &mut Scratch,
    e: &Evidence,
    f: &Formula,
    shown: bool,
    cells: &mut [bool],
    levels: usize,
)
    requires made { IsScratchOf m.now sc.old }
    requires plain { IsPlain m.now e.now.lasso }
    requires asked { IsAsked m.now (formula_of f.now) levels }
    requires room { places_of e.now.lasso * levels ≤ length cells.old }
    ensures kept { IsScratchOf m.now sc.new }
    ensures column { IsColumn (Tells (claim_labelling m.now e.now.claim) shown (formula_of f.now)) (lasso_of e.now.lasso) (places_of e.now.lasso) cells.new }
{
    let turn = e.lasso.stem.len();
    let places = turn + e.lasso.turn.len();
    let (column, rest) = cells.split_at_mut(places);
    match f {
        Formula::Atom(atom) => put_atom(m, sc, e, atom, shown, column),
        Formula::Not(a) => {
            put_column(m, sc, e, a.get(), !shown, rest, levels - 1);
            copy(column, &*rest);
        }
        Formula::Ex(a)
        | Formula::Ef(a)
        | Formula::Eg(a)
        | Formula::Ax(a)
        | Formula::Af(a)
        | Formula::Ag(a) => {
            put_column(m, sc, e, a.get(), shown, rest, levels - 1);
            put_walk(walk_of(f, shown), column, rest, turn);
        }
        Formula::And(a, b)
        | Formula::Or(a, b)
        | Formula::Implies(a, b)
        | Formula::Eu(a, b)
        | Formula::Au(a, b) => {
            put_column(m, sc, e, a.get(), first_shown(f, shown), rest, levels - 1);
            copy(column, &*rest);
            put_column(m, sc, e, b.get(), shown, rest, levels - 1);
            put_join(join_of(f, shown), column, rest, turn);
        }
    }
}
