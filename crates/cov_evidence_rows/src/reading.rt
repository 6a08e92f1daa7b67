ghost use Rattle.std.specs.Prelude.{IfOk, OnOk, OnErr, ◌<◌, ◌≤◌, ◌^◌, ◌+◌, ◌≡◌, Some, ℕ, IsTrue, length, slice_get, slice_index_or, []};
ghost use Rattle.cov_model.specs.Flat.{IsFlat};
ghost use Rattle.cov_model.specs.States.{is_typed};
ghost use Rattle.cov_claims.specs.Places.{places_of, states_of};

use cov_evid::{Claim, Evidence};
use cov_flat::flatten;
use cov_lex::lex;
use cov_model::{Lasso, Model, State};
use cov_parse::parse;
use cov_programs::flattenable;
use cov_replay::{Bench, Verdict, judge};
use cov_syntax::{NoMemory, Refused, Seq};
use cov_types::{Checked, check_kinds};
use std::alloc::Global;

/// The model of a text.
pub(crate) fn model_of(alloc: Global, text: &[u8]) -> Result<Checked, Refused> {
    check_kinds(alloc, flat_model(alloc, text)?)
}

fn flat_model(alloc: Global, text: &[u8]) -> Result<Model, Refused>
    ensures { IfOk result (λ m. IsFlat m) }
{
    flattenable();
    let tokens = lex(alloc, text)?;
    let program = parse(alloc, text, &tokens)?;
    flatten(alloc, program)
}

/// The state in which every one of so many variables has its value at this place.
fn state(alloc: Global, vars: usize, place: u16) -> Result<State, NoMemory> {
    let mut s = Seq::new(alloc);
    for _ in 0..vars {
        s.push(place)?;
    }
    Ok(s)
}

fn states(alloc: Global, vars: usize, places: &[u16]) -> Result<Seq<State>, NoMemory> {
    let mut all = Seq::new(alloc);
    for place in places {
        all.push(state(alloc, vars, *place)?)?;
    }
    Ok(all)
}

fn state_at(l: &Lasso, place: usize) -> &State
    requires { place < places_of l.now }
    ensures { slice_get (states_of l.now) place ≡ Some result.now }
{
    let stem = l.stem.len();
    if place < stem {
        l.stem.get(place)
    } else {
        l.turn.get(place - stem)
    }
}

/// Whether each state is typed.
fn are_typed(m: &Model, l: &Lasso) -> bool
    requires { places_of l.now < 2 ^ 32 }
    ensures { IsTrue result → (p : ℕ) → p < places_of l.now → IsTrue (is_typed m.now (slice_index_or (states_of l.now) p [])) }
{
    let places = l.stem.len() + l.turn.len();
    for place in 0..places {
        if !cov_model::is_typed(m, state_at(l, place)) {
            return false;
        }
    }
    true
}

/// The judge's verdict, or None where it may not be asked.
fn judged(alloc: Global, m: &Checked, e: &Evidence) -> Result<Option<Verdict>, NoMemory> {
    let few = e.lasso.stem.len() < 1000 && e.lasso.turn.len() < 1000;
    if !few || e.lasso.turn.len() == 0 || !are_typed(m.model(), &e.lasso) {
        return Ok(None);
    }
    let mut bench = Bench::make(alloc, m, e)?;
    Ok(Some(judge(m, &mut bench, e)))
}

/// The verdict on a claim about a model of a text. The states are given by the place at which all variables have their value.
pub(crate) fn verdict_on(
    alloc: Global,
    text: &[u8],
    spec: u32,
    claim: Claim,
    stem: &[u16],
    turn: &[u16],
) -> Result<Option<Verdict>, NoMemory> {
    let Ok(m) = model_of(alloc, text) else {
        return Ok(None);
    };
    let vars = m.model().vars.len();
    let lasso = Lasso {
        stem: states(alloc, vars, stem)?,
        turn: states(alloc, vars, turn)?,
    };
    judged(alloc, &m, &Evidence { claim, spec, lasso })
}

/// The claim that the mutant of the first variable at a state of one variable does not pass.
pub(crate) fn mutant(alloc: Global, place: u16) -> Result<Claim, NoMemory> {
    Ok(Claim::Mutant {
        signal: cov_model::Signal::Var(0),
        at: state(alloc, 1, place)?,
    })
}
