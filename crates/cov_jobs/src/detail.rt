use cov_coverage::NamedSignal;
use cov_syntax::Seq;

/// What a report shows of a specification behind the line of its verdict.
#[derive(Drop)]
pub enum Detail {
    /// Nothing.
    Verdict,
    /// Its occurrences, and which of them are vacuous.
    Occurrences,
    /// The states that it covers for each signal, and those that it does not, at most so many cubes of each.
    Coverage {
        signals: Seq<NamedSignal>,
        cubes: u32,
    },
}
