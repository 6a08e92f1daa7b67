//! The positional words: a model, and the signals behind it.

ghost use Rattle.std.specs.Prelude.{◌≡◌, ℕ, List, ◌++◌, ◌∷◌, [], IfOk, map, string_bytes};
ghost use Rattle.cov_words.specs.Sorting.{IsPositional};

use cov_syntax::{NoMemory, Seq, Text};
use std::alloc::Global;

/// The first positional word, and those behind it in their order.
#[derive(Drop)]
pub(crate) struct Positional {
    pub(crate) model: Text,
    pub(crate) signals: Seq<Text>,
}

/// The bytes of a word.
fn copy(alloc: Global, word: &[u8]) -> Result<Text, NoMemory>
    ensures { IfOk result (λ text. text ≡ word.now) }
{
    let mut text = Seq::new(alloc);
    text.extend_from_slice(word)?;
    Ok(text)
}

/// One word more.
pub(crate) fn with_word(
    alloc: Global,
    words: Option<Positional>,
    word: &[u8],
) -> Result<Positional, NoMemory>
    ensures { (ps : List (List ℕ)) → IsPositional words ps → IfOk result (λ p. IsPositional (Some p) (ps ++ word.now ∷ [])) }
{
    let text = copy(alloc, word)?;
    match words {
        None => Ok(Positional {
            model: text,
            signals: Seq::new(alloc),
        }),
        Some(mut words) => {
            words.signals.push(text)?;
            Ok(words)
        }
    }
}

/// All of these words more.
pub(crate) fn with_words(
    alloc: Global,
    words: Option<Positional>,
    more: &[String],
) -> Result<Option<Positional>, NoMemory>
    ensures { (ps : List (List ℕ)) → IsPositional words ps → IfOk result (λ p. IsPositional p (ps ++ map string_bytes more.now)) }
{
    let mut all = words;
    for word in more {
        all = Some(with_word(alloc, all, word.as_bytes())?);
    }
    Ok(all)
}
