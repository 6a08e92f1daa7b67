//! The judge.

ghost use Rattle.std.specs.Prelude.{◌≡◌, ◌<◌, ◌≤◌, ◌*◌, ◌^◌, ◌↔◌, ℕ, Some, IsTrue, false, length, slice_index_or, [], slice_get};
ghost use Rattle.cov_ctl.specs.Formulas.{formula_of};
ghost use Rattle.cov_model.specs.Machine.{IsScratchOf};
ghost use Rattle.cov_model.specs.States.{is_typed};
ghost use Rattle.cov_replay.specs.Benches.{IsBenchFor, IsClaimed};
ghost use Rattle.cov_replay.specs.Heights.{height};
ghost use Rattle.cov_claims.specs.Places.{places_of, states_of};
ghost use Rattle.cov_replay.specs.Ready.{IsPlain};
ghost use Rattle.cov_claims.specs.Valid as valid;
ghost use Rattle.cov_claims.specs.Valid.{IsValid};
ghost use Rattle.cov_replay.specs.Verdicts.{IsVerdict};
ghost use Rattle.cov_claims.specs.Proved.{IsProved};
ghost use Rattle.cov_replay.specs.declared.verdict.Verdict.TheVariants.{Accept};

use crate::bench::{Bench, Subject};
use crate::places::state_at;
use crate::running::run_fault;
use crate::telling::put_column;
use crate::verdict::Verdict;
use cov_ctl::{Formula, is_linear};
use cov_evid::{Claim, Evidence};
use cov_model::{Lasso, Model, Scratch, State};
use cov_types::Checked;

/// The verdict on evidence. Its states are typed, its turn is not empty, and its stem and turn have together fewer than 2^32
/// states. Acceptance proves that the claimed formula does not pass, and that a mutant's state is reachable; it does not say
/// that the specification itself passes. Takes no memory.
pub fn judge(m: &Checked, b: &mut Bench, e: &Evidence) -> Verdict
    requires made { IsBenchFor m.now e.now b.old }
    requires typed { (p : ℕ) → p < places_of e.now.lasso → IsTrue (is_typed m.now (slice_index_or (states_of e.now.lasso) p [])) }
    requires turn { 0 < length e.now.lasso.turn }
    requires few { places_of e.now.lasso < 2 ^ 32 }
    ensures verdict { IsVerdict m.now e.now result }
    ensures valid { (result ≡ Accept) ↔ IsValid m.now e.now }
    ensures accept { result ≡ Accept → IsProved m.now e.now }
    ensures kept { IsBenchFor m.now e.now b.new }
{
    let _bound = m.roots();
    match &b.subject {
        Subject::NoSpec => Verdict::NoSuchSpec,
        Subject::NoOccurrence => Verdict::NoSuchOccurrence,
        Subject::Claimed(f) => judge_claimed(
            m.model(),
            &mut b.scratch,
            e,
            f,
            b.cells.as_mut_slice(),
            b.levels,
        ),
    }
}

/// The verdict where the formula is the claimed one.
fn judge_claimed(
    m: &Model,
    sc: &mut Scratch,
    e: &Evidence,
    f: &Formula,
    cells: &mut [bool],
    levels: usize,
) -> Verdict
    requires made { IsScratchOf m.now sc.old }
    requires plain { IsPlain m.now e.now.lasso }
    requires few { length m.now.fair < 2 ^ 32 }
    requires claimed { IsClaimed m.now e.now f.now }
    requires levels { height (formula_of f.now) ≡ levels }
    requires room { places_of e.now.lasso * levels ≤ length cells.old }
    ensures kept { IsScratchOf m.now sc.new }
    ensures verdict { IsVerdict m.now e.now result }
{
    if !is_linear(f) {
        return Verdict::NotLinear;
    }
    if let Some(fault) = run_fault(m, sc, &e.lasso) {
        return fault;
    }
    if !goes_through(&e.claim, &e.lasso) {
        return Verdict::NotAt;
    }
    put_column(m, sc, e, f, false, cells, levels);
    if first(&*cells) {
        Verdict::Accept
    } else {
        Verdict::NotRefuted
    }
}

fn first(cells: &[bool]) -> bool
    requires { 0 < length cells.now }
    ensures { result ≡ slice_index_or cells.now 0 false }
{
    cells[0]
}

/// Whether the state of a mutant is one of the states.
fn goes_through(claim: &Claim, l: &Lasso) -> bool
    requires { places_of l.now < 2 ^ 32 }
    ensures { IsTrue result ↔ valid.GoesThrough claim.now l.now }
{
    match claim {
        Claim::Mutant { at, .. } => has_state(l, at),
        Claim::Occurrence(_) => true,
    }
}

/// Whether the state is one of the stem or the turn.
fn has_state(l: &Lasso, s: &State) -> bool
    requires { places_of l.now < 2 ^ 32 }
    ensures { IsTrue result ↔ ((p : ℕ) × (slice_get (states_of l.now) p ≡ Some s.now)) }
{
    let places = l.stem.len() + l.turn.len();
    for place in 0..places {
        if state_at(l, place).as_slice() == s.as_slice() {
            return true;
        }
    }
    false
}
