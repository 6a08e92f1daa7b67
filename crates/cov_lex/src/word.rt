ghost use Rattle.std.specs.Prelude.{◌≡◌, ◌==◌, ◌++◌, length, filter, find};
ghost use Rattle.std.specs.Str.{bytes_eq};
ghost use Rattle.cov_syntax.specs.Tokens.{spelled_word};
ghost use Rattle.cov_syntax.specs.Words.{word_spelling, used_words, left_out_words};

use cov_syntax::Word;

/// The reserved word that a name is.
pub fn spelled(name: &[u8]) -> Option<Word>
    ensures { result ≡ spelled_word name.now }
{
    spelled_among(words_of_length(name.len()), name)
}

fn spelled_among(words: &[Word], name: &[u8]) -> Option<Word>
    ensures { result ≡ find (λ w. bytes_eq (word_spelling w) name.now) words.now }
{
    words
        .iter()
        .copied()
        .find(|w| w.spelling().as_bytes() == name)
}

/// The reserved words of so many bytes.
fn words_of_length(len: usize) -> &'static [Word]
    ensures { result.now ≡ filter (λ w. length (word_spelling w) == len) (used_words ++ left_out_words) }
{
    use Word::*;
    match len {
        1 => &[A, E, U],
        2 => &[In, Ex, Ef, Eg, Ax, Af, Ag, Bu],
        3 => &[Var, Mod, Xor, Isa, Ebf, Abf, Ebg, Abg],
        4 => &[
            Init, Spec, InitOf, NextOf, Case, Esac, True, Ivar, Itself, BitVector, Real, Xnor,
        ],
        5 => &[Trans, Invar, Union, False, Array],
        6 => &[Module, Assign, Define],
        7 => &[Justice, CtlSpec, Boolean, Process, LtlSpec, Compute],
        8 => &[Fairness],
        9 => &[InvarSpec, FrozenVar, Constants],
        10 => &[Compassion],
        _ => &[],
    }
}
