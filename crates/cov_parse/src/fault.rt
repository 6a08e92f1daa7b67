//! Faults of a text, and where they are.

ghost use Rattle.std.specs.Prelude.{◌≡◌, ◌≢◌, ◌<◌, ◌^◌, length};
ghost use Rattle.cov_first_fault.specs.Stops as stops;
ghost use Rattle.cov_syntax.specs.declared.fault.Refused.TheVariants as Refused;
ghost use Rattle.cov_parse.specs.Faults.{refusal};

use crate::error::ParseError;
use crate::modules::program;
use cov_syntax::{FaultKind, Lexeme, Refused, Span, Terminal};
use std::alloc::Global;

/// The lexeme with so many left.
fn lexeme_at(lexemes: &[Lexeme], left: usize) -> Option<Lexeme>
    ensures { result ≡ stops.lexeme_at lexemes.now left }
{
    lexemes.get(lexemes.len().saturating_sub(left)).copied()
}

/// The place of the lexeme, or the end of the text.
fn place_at(text: &[u8], lexeme: Option<Lexeme>) -> Span
    requires { length text.now < 2 ^ 32 }
    ensures { result ≡ stops.place_at (length text.now) lexeme }
{
    let end = text.len() as u32;
    match lexeme {
        Some(lexeme) => lexeme.place,
        None => Span {
            start: end,
            stop: end,
        },
    }
}

fn is_left_out(lexeme: Option<Lexeme>) -> bool
    ensures { result ≡ stops.is_left_out lexeme }
{
    match lexeme {
        Some(lexeme) => match lexeme.kind {
            Terminal::Word(word) => word.number() >= 100,
            _ => false,
        },
        None => false,
    }
}

fn unread_kind(lexeme: Option<Lexeme>) -> FaultKind
    ensures { result ≡ stops.unread_at lexeme }
{
    if is_left_out(lexeme) {
        FaultKind::LeftOut
    } else {
        FaultKind::Syntax
    }
}

/// Why nothing is read, with its place in the text.
pub fn refused(text: &[u8], lexemes: &[Lexeme], error: ParseError) -> Refused
    requires { length text.now < 2 ^ 32 }
    ensures { result ≡ refusal text.now lexemes.now error }
{
    let (kind, left) = match error {
        ParseError::Memory => return Refused::Memory,
        ParseError::TooGreat(left) => (FaultKind::RangeTooWide, left),
        ParseError::Unread(left) => (unread_kind(lexeme_at(lexemes, left)), left),
    };
    Refused::Fault(kind.at(place_at(text, lexeme_at(lexemes, left))))
}

/// The first fault of a text in which the lexeme with so many left is too deep.
#[tactic(auto, using(std::proofs::lemmas::List::take_min), unfolding(cov_first_fault::specs::Stops::deep_fault))]
pub fn deep_fault(alloc: Global, text: &[u8], lexemes: &[Lexeme], left: usize) -> Refused
    requires { length text.now < 2 ^ 32 }
    ensures { result ≢ Refused.Memory → result ≡ Refused.Fault (stops.deep_fault (length text.now) lexemes.now left) }
{
    let before = lexemes.len().saturating_sub(left);
    let front = &lexemes[..(before + 1).min(lexemes.len())];
    match program(alloc, front) {
        Ok(_) | Err(ParseError::Unread(0)) => {
            let place = place_at(text, lexeme_at(lexemes, left));
            Refused::Fault(FaultKind::TooDeep.at(place))
        }
        Err(error) => refused(text, front, error),
    }
}
