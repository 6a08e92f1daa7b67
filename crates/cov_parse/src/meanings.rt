//! The meaning of tokens: names by their places, numbers by their values.

ghost use Rattle.std.specs.Prelude.{◌≡◌, ◌+◌, ◌-◌, ◌<◌, ◌≤◌, ◌^◌, min, take, drop, length, IfOk, OnOk};
ghost use Rattle.cov_syntax.specs.Lexemes as spec;
ghost use Rattle.cov_syntax.specs.Texts.{IsDistinctTexts};

use crate::steps::GREATEST_NUMBER;
use cov_syntax::{Lexeme, Mark, Names, NoMemory, Seq, Span, Terminal, Token, TokenKind, Word};
use std::alloc::Global;

/// The bytes of a place, as far as the text has them.
fn slice_at(text: &[u8], place: Span) -> &[u8]
    ensures { result.now ≡ take (place.stop - place.start) (drop place.start text.now) }
{
    let start = (place.start as usize).min(text.len());
    let stop = (place.stop as usize).min(text.len()).max(start);
    &text[start..stop]
}

/// The value of digits, where all that are too great count as one.
fn value_of(digits: &[u8]) -> u32
    ensures { result ≡ min (spec.value_of digits.now) (GREATEST_NUMBER + 1) }
{
    let mut value = 0u32;
    for digit in digits {
        value = (10 * value + digit.saturating_sub(48) as u32).min(GREATEST_NUMBER + 1);
    }
    value
}

fn terminal_of(kind: TokenKind) -> Terminal
    ensures { result ≡ spec.terminal_of kind }
{
    match kind {
        TokenKind::Name => Terminal::Name,
        TokenKind::Number => Terminal::Number,
        TokenKind::Word(n) => match Word::from_number(n) {
            Some(word) => Terminal::Word(word),
            None => Terminal::Nothing,
        },
        TokenKind::Mark(n) => match Mark::from_number(n) {
            Some(mark) => Terminal::Mark(mark),
            None => Terminal::Nothing,
        },
    }
}

/// The meaning of a token, whose name is put to the names.
fn meaning(names: &mut Names, kind: TokenKind, spelled: &[u8]) -> Result<u32, NoMemory>
    requires distinct { IsDistinctTexts names.old }
    requires room { length names.old < 2 ^ 32 - 1 }
    ensures names { OnOk result (names.new ≡ spec.names_after names.old kind spelled.now) }
    ensures value { IfOk result (λ v. v ≡ spec.meaning names.new kind spelled.now) }
{
    match kind {
        TokenKind::Name => names.add(spelled),
        TokenKind::Number => Ok(value_of(spelled)),
        TokenKind::Word(_) | TokenKind::Mark(_) => Ok(0),
    }
}

/// The names of the text, and its tokens with their meaning.
pub fn lexemes(
    alloc: Global,
    text: &[u8],
    tokens: &[Token],
) -> Result<(Names, Seq<Lexeme>), NoMemory>
    requires { length tokens.now < 2 ^ 32 - 1 }
    ensures { IfOk result (λ r. (r.0 ≡ spec.names_of text.now tokens.now) × (r.1 ≡ spec.lexemes_of text.now tokens.now)) }
{
    let mut names = Names::new(alloc);
    let mut found = Seq::new(alloc);
    for token in tokens {
        let value = meaning(&mut names, token.kind, slice_at(text, token.span))?;
        found.push(Lexeme {
            kind: terminal_of(token.kind),
            value,
            place: token.span,
        })?;
    }
    Ok((names, found))
}
