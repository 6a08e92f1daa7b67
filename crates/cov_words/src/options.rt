//! The numbers of the options.

ghost use Rattle.std.specs.Prelude.{◌≡◌, ℕ, List};
ghost use Rattle.cov_words.specs.Words as spec;
ghost use Rattle.cov_words.specs.Sorting.{IsBrief, IsGiven};

use crate::brief::{Brief, Given};
use crate::job::Opts;
use crate::number::number_to;

const MOST_NODES: u32 = 16_000_000;

const MOST_CUBES: u32 = 100_000;

/// The number of an option that is given at most once, or its default.
fn option_number(default: u32, most: u32, given: Given) -> Option<u32>
    ensures { (vs : List (List ℕ)) → IsGiven given.entry vs → result ≡ spec.option_number default most vs }
{
    match given {
        Given::Never => Some(default),
        Given::Once(value) => number_to(most, value),
        Given::Again => None,
    }
}

/// The numbers of the options.
pub(crate) fn options(sorted: &Brief) -> Option<Opts>
    ensures { (s : spec.Sorted) → IsBrief sorted.now s → result ≡ spec.options s }
{
    let nodes = option_number(Opts::DEFAULT.nodes, MOST_NODES, sorted.nodes)?;
    let cubes = option_number(Opts::DEFAULT.cubes, MOST_CUBES, sorted.cubes)?;
    Some(Opts { nodes, cubes })
}
