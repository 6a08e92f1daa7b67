//! Entries of lists of Booleans.

ghost use Rattle.std.specs.Prelude.{◌≡◌};
ghost use Rattle.cov_plain.specs.Sets.{set_of, row_of};

/// Whether the list has a true entry for the state.
pub(crate) fn has(set: &[bool], state: usize) -> bool
    ensures { result ≡ set_of set.now state }
{
    state < set.len() && set[state]
}

/// Whether one of the lists has a true entry for the state.
pub(crate) fn row_has(rows: &[Vec<bool>], row: usize, state: usize) -> bool
    ensures { result ≡ set_of (row_of rows.now row) state }
{
    match rows.get(row) {
        Some(set) => has(set, state),
        None => false,
    }
}
