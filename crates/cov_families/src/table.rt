use cov_syntax::Seq;

/// For each value of one list, and for each of another, the number of the value that an operator makes of the two,
/// where it is among those asked for.
#[derive(Drop)]
pub struct Table {
    /// How many values the first list has.
    pub rows: u16,
    /// How many values the second list has.
    pub columns: u16,
    /// Row by row.
    pub targets: Seq<Option<u16>>,
}
