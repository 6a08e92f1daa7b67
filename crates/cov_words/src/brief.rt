//! What is kept of words that are sorted.

ghost use Rattle.std.specs.Prelude.{◌≡◌, ℕ, List, ◌++◌, ◌∷◌, [], IfOk, map, string_bytes};
ghost use Rattle.cov_words.specs.Words as spec;
ghost use Rattle.cov_words.specs.Sorting.{IsBrief, IsGiven};

use crate::positional::{Positional, with_word, with_words};
use cov_syntax::NoMemory;
use std::alloc::Global;

/// What is given at most once, where two values are as good as more.
#[derive(Clone, Copy)]
pub(crate) enum Given<'a> {
    Never,
    Once(&'a [u8]),
    Again,
}

impl<'a> Given<'a> {
    /// Whether nothing is given.
    pub(crate) fn is_never(self) -> bool
        ensures { (vs : List (List ℕ)) → IsGiven self.entry vs → result ≡ spec.is_none vs }
    {
        matches!(self, Given::Never)
    }

    /// One value more.
    fn and(self, value: &'a [u8]) -> Given<'a>
        ensures { (vs : List (List ℕ)) → IsGiven self.entry vs → IsGiven result (vs ++ value.now ∷ []) }
    {
        match self {
            Given::Never => Given::Once(value),
            Given::Once(_) | Given::Again => Given::Again,
        }
    }
}

/// What is kept of sorted words.
#[derive(Drop)]
pub(crate) struct Brief<'a> {
    pub(crate) positional: Option<Positional>,
    pub(crate) nodes: Given<'a>,
    pub(crate) cubes: Given<'a>,
}

impl<'a> Brief<'a> {
    /// One positional word more.
    pub(crate) fn with_positional(self, alloc: Global, word: &[u8]) -> Result<Brief<'a>, NoMemory>
        ensures { (s : spec.Sorted) → IsBrief self.entry s → IfOk result (λ b. IsBrief b (spec.with_positional word.now s)) }
    {
        Ok(Brief {
            positional: Some(with_word(alloc, self.positional, word)?),
            nodes: self.nodes,
            cubes: self.cubes,
        })
    }

    /// All of these positional words more.
    pub(crate) fn with_all(self, alloc: Global, words: &[String]) -> Result<Brief<'a>, NoMemory>
        ensures { (s : spec.Sorted) → IsBrief self.entry s → IfOk result (λ b. IsBrief b (spec.with_all (map string_bytes words.now) s)) }
    {
        Ok(Brief {
            positional: with_words(alloc, self.positional, words)?,
            nodes: self.nodes,
            cubes: self.cubes,
        })
    }

    /// One value of `--nodes` more.
    pub(crate) fn with_nodes(self, value: &'a [u8]) -> Brief<'a>
        ensures { (s : spec.Sorted) → IsBrief self.entry s → IsBrief result (spec.with_nodes value.now s) }
    {
        Brief {
            nodes: self.nodes.and(value),
            ..self
        }
    }

    /// One value of `--cubes` more.
    pub(crate) fn with_cubes(self, value: &'a [u8]) -> Brief<'a>
        ensures { (s : spec.Sorted) → IsBrief self.entry s → IsBrief result (spec.with_cubes value.now s) }
    {
        Brief {
            cubes: self.cubes.and(value),
            ..self
        }
    }
}
