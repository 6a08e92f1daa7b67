//! The places of a lasso.

ghost use Rattle.std.specs.Prelude.{◌≡◌, ◌<◌, Some, slice_get};
ghost use Rattle.cov_replay.specs.Flips as spec;
ghost use Rattle.cov_claims.specs.Places.{places_of, states_of};

use cov_evid::Claim;
use cov_model::{Lasso, Signal, State};

/// The state at a place, from 0, those of the stem before those of the turn.
pub(crate) fn state_at(l: &Lasso, place: usize) -> &State
    requires { place < places_of l.now }
    ensures { slice_get (states_of l.now) place ≡ Some result.now }
{
    let stem = l.stem.len();
    if place < stem {
        l.stem.get(place)
    } else {
        l.turn.get(place - stem)
    }
}

/// The signal that is read inverted at a state.
pub(crate) fn flip_at(claim: &Claim, s: &State) -> Option<Signal>
    ensures { result ≡ spec.flip_at claim.now s.now }
{
    match claim {
        Claim::Mutant { signal, at } => {
            if at.as_slice() == s.as_slice() {
                Some(*signal)
            } else {
                None
            }
        }
        Claim::Occurrence(_) => None,
    }
}
