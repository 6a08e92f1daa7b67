//! Whether the states of evidence are a fair lasso of the model, from an initial state.

ghost use Rattle.std.specs.Prelude.{◌≡◌, ◌-◌, ◌<◌, ◌^◌, ◌↔◌, IsTrue, MatchOption, length};
ghost use Rattle.cov_model.specs.Machine.{IsScratchOf};
ghost use Rattle.cov_model.specs.Paths.{structure};
ghost use Rattle.cov_claims.specs.Places.{places_of};
ghost use Rattle.cov_replay.specs.Ready.{IsPlain};
ghost use Rattle.cov_claims.specs.Valid as valid;
ghost use Rattle.cov_replay.specs.Verdicts.{Each, FailsFirst, IsRunFault};

use crate::places::state_at;
use crate::verdict::Verdict;
use cov_model::{Lasso, Model, Scratch, fair_at, is_initial, is_state, is_step};

/// The number of the first state that is none of the model.
fn first_stranger(m: &Model, sc: &mut Scratch, l: &Lasso) -> Option<u32>
    requires made { IsScratchOf m.now sc.old }
    requires plain { IsPlain m.now l.now }
    ensures kept { IsScratchOf m.now sc.new }
    ensures first { MatchOption result (Each (valid.IsStateAt m.now l.now) (places_of l.now)) (λ i. FailsFirst (valid.IsStateAt m.now l.now) (places_of l.now) i) }
{
    let places = l.stem.len() + l.turn.len();
    for place in 0..places {
        if !is_state(m, sc, state_at(l, place)) {
            return Some(place as u32 + 1);
        }
    }
    None
}

/// The number of the first state that does not step to the next one.
fn first_break(m: &Model, sc: &mut Scratch, l: &Lasso) -> Option<u32>
    requires made { IsScratchOf m.now sc.old }
    requires plain { IsPlain m.now l.now }
    ensures kept { IsScratchOf m.now sc.new }
    ensures first { MatchOption result (Each (valid.StepsAt m.now l.now) (places_of l.now - 1)) (λ i. FailsFirst (valid.StepsAt m.now l.now) (places_of l.now - 1) i) }
{
    let places = l.stem.len() + l.turn.len();
    for place in 0..places - 1 {
        if !is_step(m, sc, state_at(l, place), state_at(l, place + 1)) {
            return Some(place as u32 + 1);
        }
    }
    None
}

/// Whether the last state steps to the first of the turn.
fn closes(m: &Model, sc: &mut Scratch, l: &Lasso) -> bool
    requires made { IsScratchOf m.now sc.old }
    requires plain { IsPlain m.now l.now }
    ensures kept { IsScratchOf m.now sc.new }
    ensures value { IsTrue result ↔ valid.Closes m.now l.now }
{
    let turn = l.stem.len();
    let places = turn + l.turn.len();
    is_step(m, sc, state_at(l, places - 1), state_at(l, turn))
}

/// Whether the FAIRNESS expression is true at some state of the turn.
fn is_visited(m: &Model, sc: &mut Scratch, l: &Lasso, k: u32) -> bool
    requires made { IsScratchOf m.now sc.old }
    requires plain { IsPlain m.now l.now }
    requires there { k < length m.now.fair }
    ensures kept { IsScratchOf m.now sc.new }
    ensures value { IsTrue result ↔ valid.IsVisited m.now l.now k }
{
    let turn = l.stem.len();
    let places = turn + l.turn.len();
    for place in turn..places {
        if fair_at(m, sc, k, state_at(l, place)) {
            return true;
        }
    }
    false
}

/// The number of the first FAIRNESS expression that is true at no state of the turn.
fn first_unvisited(m: &Model, sc: &mut Scratch, l: &Lasso) -> Option<u32>
    requires made { IsScratchOf m.now sc.old }
    requires plain { IsPlain m.now l.now }
    requires few { length m.now.fair < 2 ^ 32 }
    ensures kept { IsScratchOf m.now sc.new }
    ensures first { MatchOption result (Each (valid.IsVisited m.now l.now) (length m.now.fair)) (λ i. FailsFirst (valid.IsVisited m.now l.now) (length m.now.fair) i) }
{
    for k in 0..m.fair.len() {
        let k = k as u32;
        if !is_visited(m, sc, l, k) {
            return Some(k + 1);
        }
    }
    None
}

/// What is wrong with the states, if they are no fair lasso from an initial state.
pub(crate) fn run_fault(m: &Model, sc: &mut Scratch, l: &Lasso) -> Option<Verdict>
    requires made { IsScratchOf m.now sc.old }
    requires plain { IsPlain m.now l.now }
    requires few { length m.now.fair < 2 ^ 32 }
    ensures kept { IsScratchOf m.now sc.new }
    ensures fault { MatchOption result (valid.IsRun m.now l.now) (λ v. IsRunFault m.now l.now v) }
{
    if let Some(i) = first_stranger(m, sc, l) {
        return Some(Verdict::NotState(i));
    }
    if !is_initial(m, sc, state_at(l, 0)) {
        return Some(Verdict::NotInitial);
    }
    if let Some(i) = first_break(m, sc, l) {
        return Some(Verdict::BadStep(i));
    }
    if !closes(m, sc, l) {
        return Some(Verdict::NotClosed);
    }
    match first_unvisited(m, sc, l) {
        Some(k) => Some(Verdict::Unfair(k)),
        None => None,
    }
}
