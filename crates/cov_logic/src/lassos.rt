//! Laws of lassos.

ghost use Rattle.std.specs.Prelude.{◌+◌, ◌<◌, ◌^◌};
ghost use Rattle.cov_logic.specs.LassoLaws.{SuffixIsFair, JoinedIsFair, LassoRepeats, IsNextPlace};

/// A fair lasso goes on from each of its states: the state steps to the next one, and what is left
/// is a fair lasso.
pub fn suffix_is_fair<S>()
    ensures { SuffixIsFair S }
{}

/// A finite path to the first state of a fair lasso, and then that lasso, is a fair lasso.
pub fn joined_is_fair<S>()
    ensures { JoinedIsFair S }
{}

/// The states of a lasso are those of its stem, and then those of its turn, again and again.
pub fn lasso_repeats<S>()
    ensures { LassoRepeats S }
{}

/// The place that comes after a place of a lasso whose states are listed from 0, those of the stem
/// before those of the turn. `stem` and `turn` are how many each has.
pub fn next_place<S>(stem: usize, turn: usize, place: usize) -> usize
    requires fits { stem + turn < 2 ^ 64 }
    requires some { 0 < turn }
    requires there { place < stem + turn }
    ensures there { result < stem + turn }
    ensures next { IsNextPlace S stem turn place result }
{
    if place + 1 < stem + turn {
        place + 1
    } else {
        stem
    }
}
