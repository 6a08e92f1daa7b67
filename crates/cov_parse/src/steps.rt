//! The front of a list of lexemes, and single words there.

ghost use Rattle.std.specs.Prelude.{◌≡◌, ◌≤◌, ◌<◌, ◌+◌, ◌-◌, ◌*◌, length, pos, neg_ℤ, IfOk};
ghost use Rattle.cov_syntax.specs.Lexemes as lists;
ghost use Rattle.cov_grammar.specs.Steps as spec;
ghost use Rattle.cov_parse.specs.Gives.{Gives};

use crate::error::ParseError;
use crate::tables::same;
use cov_syntax::{Lexeme, Mark, Span, Spelled, Terminal};

/// The greatest number that may stand in a text.
pub const GREATEST_NUMBER: u32 = 1_000_000;

pub fn kind(lexemes: &[Lexeme]) -> Terminal
    ensures { result ≡ lists.kind lexemes.now }
{
    match lexemes {
        [] => Terminal::Nothing,
        [first, ..] => first.kind,
    }
}

pub fn value(lexemes: &[Lexeme]) -> u32
    ensures { result ≡ lists.value lexemes.now }
{
    match lexemes {
        [] => 0,
        [first, ..] => first.value,
    }
}

pub fn next(lexemes: &[Lexeme]) -> &[Lexeme]
    ensures { result.now ≡ lists.next lexemes.now }
{
    match lexemes {
        [] => lexemes,
        [_, rest @ ..] => rest,
    }
}

pub fn is_next(lexemes: &[Lexeme], want: Terminal) -> bool
    ensures { result ≡ lists.same (lists.kind lexemes.now) want }
{
    same(kind(lexemes), want)
}

fn start(lexemes: &[Lexeme]) -> u32
    ensures { result ≡ lists.start lexemes.now }
{
    match lexemes {
        [] => 0,
        [first, ..] => first.place.start,
    }
}

fn stop_of(last: Option<Lexeme>) -> u32
    ensures { result ≡ lists.stop_of last }
{
    match last {
        None => 0,
        Some(last) => last.place.stop,
    }
}

/// The bytes from the first lexeme to the last one before the rest.
#[tactic(auto, unfolding(cov_syntax::specs::Lexemes::span))]
pub fn place(lexemes: &[Lexeme], rest: &[Lexeme]) -> Span
    ensures { result ≡ lists.span lexemes.now rest.now }
{
    let taken = lexemes.len().saturating_sub(rest.len());
    let last = lexemes.get(taken.saturating_sub(1)).copied();
    Span {
        start: start(lexemes),
        stop: stop_of(last),
    }
}

fn spelled(lexemes: &[Lexeme]) -> Spelled
    ensures { result ≡ lists.spelled lexemes.now }
{
    Spelled {
        name: value(lexemes),
        place: place(lexemes, next(lexemes)),
    }
}

/// The lexemes after one of this kind.
#[tactic(auto, unfolding(cov_grammar::specs::Steps::expect))]
pub fn expect(want: Terminal, lexemes: &[Lexeme]) -> Result<&[Lexeme], ParseError>
    ensures { Gives (λ rest. rest.now) result (spec.expect want lexemes.now) }
{
    if is_next(lexemes, want) {
        Ok(next(lexemes))
    } else {
        Err(ParseError::Unread(lexemes.len()))
    }
}

#[tactic(auto, unfolding(cov_grammar::specs::Steps::name))]
pub fn name(lexemes: &[Lexeme]) -> Result<(u32, &[Lexeme]), ParseError>
    ensures { Gives (λ x. (x.0, x.1.now)) result (spec.name lexemes.now) }
{
    if is_next(lexemes, Terminal::Name) {
        Ok((value(lexemes), next(lexemes)))
    } else {
        Err(ParseError::Unread(lexemes.len()))
    }
}

#[tactic(auto, unfolding(cov_grammar::specs::Steps::spelled_name))]
pub fn spelled_name(lexemes: &[Lexeme]) -> Result<(Spelled, &[Lexeme]), ParseError>
    ensures { Gives (λ x. (x.0, x.1.now)) result (spec.spelled_name lexemes.now) }
{
    if is_next(lexemes, Terminal::Name) {
        Ok((spelled(lexemes), next(lexemes)))
    } else {
        Err(ParseError::Unread(lexemes.len()))
    }
}

#[tactic(auto, unfolding(cov_grammar::specs::Steps::magnitude))]
fn magnitude(lexemes: &[Lexeme]) -> Result<(u32, &[Lexeme]), ParseError>
    ensures reads { Gives (λ x. (x.0, x.1.now)) result (spec.magnitude lexemes.now) }
    ensures small { IfOk result (λ x. x.0 ≤ GREATEST_NUMBER) }
{
    if !is_next(lexemes, Terminal::Number) {
        return Err(ParseError::Unread(lexemes.len()));
    }
    let number = value(lexemes);
    if number > GREATEST_NUMBER {
        return Err(ParseError::TooGreat(lexemes.len()));
    }
    Ok((number, next(lexemes)))
}

/// A number, or a `-` and a number.
#[tactic(auto, unfolding(cov_grammar::specs::Steps::int))]
pub fn int(lexemes: &[Lexeme]) -> Result<(i32, &[Lexeme]), ParseError>
    ensures { Gives (λ x. (x.0, x.1.now)) result (spec.int lexemes.now) }
{
    if is_next(lexemes, Terminal::Mark(Mark::Minus)) {
        let (number, rest) = magnitude(next(lexemes))?;
        return Ok((-(number as i32), rest));
    }
    let (number, rest) = magnitude(lexemes)?;
    Ok((number as i32, rest))
}
