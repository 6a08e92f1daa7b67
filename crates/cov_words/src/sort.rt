//! The words behind the command, sorted into positional words and the values of options.

ghost use Rattle.std.specs.Prelude.{◌≡◌, ℕ, List, ◌∷◌, map, string_bytes};
ghost use Rattle.std.specs.Option.{option_copied};
ghost use Rattle.cov_words.specs.Words as spec;
ghost use Rattle.cov_words.specs.Sorting.{IsBrief, Sorts, Steps, next_value};

use crate::brief::{Brief, Given};
use crate::job::WordsFault;
use std::alloc::Global;

/// What is kept after a word, and how many of the next words belong to it.
#[derive(Drop)]
struct Step<'a> {
    sorted: Brief<'a>,
    taken: usize,
}

/// Whether a word is no option.
fn is_positional(word: &str) -> bool
    ensures { result ≡ spec.is_positional word.now }
{
    !word.starts_with('-')
}

/// Whether a word is an option whose value is the next word.
fn takes_value(word: &str) -> bool
    ensures { result ≡ spec.takes_value word.now }
{
    word == "--nodes" || word == "--cubes"
}

/// The next word, where it is the value of a word.
fn next_value<'a>(word: &str, rest: &'a [String]) -> Option<&'a [u8]>
    ensures { option_copied result ≡ next_value word.now (map string_bytes rest.now) }
{
    if !takes_value(word) {
        return None;
    }
    match rest {
        [value, ..] => Some(value.as_bytes()),
        [] => None,
    }
}

/// What stands behind a front in a word that begins with it.
fn behind<'a>(front: &[u8], word: &'a [u8]) -> Option<&'a [u8]>
    ensures { option_copied result ≡ spec.behind front.now word.now }
{
    word.strip_prefix(front)
}

/// With a word of the form `--nodes=V` or `--cubes=V`.
fn with_joined<'a>(sorted: Brief<'a>, word: &'a [u8]) -> Result<Brief<'a>, WordsFault>
    ensures { (s : spec.Sorted) → IsBrief sorted.entry s → Sorts result (spec.with_joined word.now s) }
{
    if let Some(value) = behind(b"--nodes=", word) {
        return Ok(sorted.with_nodes(value));
    }
    if let Some(value) = behind(b"--cubes=", word) {
        return Ok(sorted.with_cubes(value));
    }
    Err(WordsFault::Words)
}

/// With `--nodes` or `--cubes`, and the word behind it.
fn with_value<'a>(sorted: Brief<'a>, word: &str, value: &'a [u8]) -> Result<Brief<'a>, WordsFault>
    ensures { (s : spec.Sorted) → IsBrief sorted.entry s → Sorts result (spec.with_value word.now value.now s) }
{
    if word == "--nodes" {
        return Ok(sorted.with_nodes(value));
    }
    if word == "--cubes" {
        return Ok(sorted.with_cubes(value));
    }
    Err(WordsFault::Words)
}

/// What a word adds to what is kept, with the next one where it is its value.
fn sort_word<'a>(
    alloc: Global,
    sorted: Brief<'a>,
    word: &'a str,
    rest: &'a [String],
) -> Result<Step<'a>, WordsFault>
    ensures { (s : spec.Sorted) → IsBrief sorted.entry s → Steps word.now (map string_bytes rest.now) s result }
{
    if word == "--" {
        return Ok(Step {
            sorted: sorted.with_all(alloc, rest)?,
            taken: rest.len(),
        });
    }
    if is_positional(word) {
        return Ok(Step {
            sorted: sorted.with_positional(alloc, word.as_bytes())?,
            taken: 0,
        });
    }
    if let Some(value) = next_value(word, rest) {
        return Ok(Step {
            sorted: with_value(sorted, word, value)?,
            taken: 1,
        });
    }
    Ok(Step {
        sorted: with_joined(sorted, word.as_bytes())?,
        taken: 0,
    })
}

/// What is kept of the words behind the command.
pub(crate) fn sort(alloc: Global, words: &[String]) -> Result<Brief<'_>, WordsFault>
    ensures { Sorts result (spec.sorted (map string_bytes words.now) spec.nothing) }
{
    let mut sorted = Brief {
        positional: None,
        nodes: Given::Never,
        cubes: Given::Never,
    };
    let mut at = 0;
    while at < words.len() {
        let step = sort_word(alloc, sorted, words[at].as_str(), &words[at + 1..])?;
        sorted = step.sorted;
        at += 1 + step.taken;
    }
    Ok(sorted)
}
