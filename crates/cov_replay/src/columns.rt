//! Answers at the places of a lasso.

ghost use Rattle.std.specs.Prelude.{◌≡◌, ◌<◌, ◌≤◌, ℕ, false, ◌&&◌, ◌||◌, length, slice_index_or};
ghost use Rattle.cov_replay.specs.Columns.{IsNextAnswer};

use cov_logic::next_place;
use cov_model::State;

/// Puts one answer at every place.
pub(crate) fn fill(column: &mut [bool], answer: bool)
    ensures { (p : ℕ) → p < length column.old → slice_index_or column.new p false ≡ answer }
{
    for p in 0..column.len() {
        column[p] = answer;
    }
}

/// Puts the answers of the other column.
pub(crate) fn copy(column: &mut [bool], other: &[bool])
    requires { length column.old ≤ length other.now }
    ensures { (p : ℕ) → p < length column.old → slice_index_or column.new p false ≡ slice_index_or other.now p false }
{
    for p in 0..column.len() {
        column[p] = other[p];
    }
}

fn and(a: bool, b: bool) -> bool
    ensures { result ≡ (a && b) }
{
    a && b
}

fn or(a: bool, b: bool) -> bool
    ensures { result ≡ (a || b) }
{
    a || b
}

/// Puts at each place whether both columns say so.
pub(crate) fn both(column: &mut [bool], other: &[bool])
    requires { length column.old ≤ length other.now }
    ensures { (p : ℕ) → p < length column.old → slice_index_or column.new p false ≡ (slice_index_or column.old p false && slice_index_or other.now p false) }
{
    for p in 0..column.len() {
        column[p] = and(column[p], other[p]);
    }
}

/// Puts at each place whether one of the columns says so.
pub(crate) fn either(column: &mut [bool], other: &[bool])
    requires { length column.old ≤ length other.now }
    ensures { (p : ℕ) → p < length column.old → slice_index_or column.new p false ≡ (slice_index_or column.old p false || slice_index_or other.now p false) }
{
    for p in 0..column.len() {
        column[p] = or(column[p], other[p]);
    }
}

/// Puts at each place the answer of the other column at the place after it. After the last place comes the first of the turn.
pub(crate) fn next(column: &mut [bool], other: &[bool], turn: usize)
    requires room { length column.old ≤ length other.now }
    requires there { turn < length column.old }
    ensures { (p : ℕ) → p < length column.old → IsNextAnswer (length column.old) turn column.new other.now p }
{
    let places = column.len() - turn;
    for p in 0..column.len() {
        column[p] = other[next_place::<State>(turn, places, p)];
    }
}
