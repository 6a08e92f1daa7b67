//! Walks along the places of a lasso.

ghost use Rattle.std.specs.Prelude.{◌≡◌, ◌<◌, ◌≤◌, ℕ, false, length, drop, slice_index_or};
ghost use Rattle.cov_replay.specs.Walks.{walks};

/// Whether a walk from the place `first` comes through places of `stays` to one of `ends`, or to what comes after the last
/// place, where it may end if `after`.
fn walks_from(ends: &[bool], stays: &[bool], first: usize, after: bool) -> bool
    requires same { length ends.now ≤ length stays.now }
    requires there { first ≤ length ends.now }
    ensures { result ≡ walks (drop first ends.now) (drop first stays.now) after }
{
    let mut found = after;
    for p in (first..ends.len()).rev() {
        found = ends[p] || (stays[p] && found);
    }
    found
}

/// Puts at each place whether a walk from it comes through places of `stays` to one of `ends`, or may stay for ever if
/// `for_ever`. After the last place comes the first of the turn.
pub(crate) fn scan(ends: &mut [bool], stays: &[bool], turn: usize, for_ever: bool)
    requires same { length ends.old ≤ length stays.now }
    requires there { turn ≤ length ends.old }
    ensures { (p : ℕ) → p < length ends.old → slice_index_or ends.new p false ≡ walks (drop p ends.old) (drop p stays.now) (walks (drop turn ends.old) (drop turn stays.now) for_ever) }
{
    let mut found = walks_from(ends, stays, turn, for_ever);
    for p in (0..ends.len()).rev() {
        found = ends[p] || (stays[p] && found);
        ends[p] = found;
    }
}
