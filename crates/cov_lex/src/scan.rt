ghost use Rattle.std.specs.Prelude.{◌≡◌, ℕ, ◌+◌, ◌<◌, ◌^◌, List, IfOk, length};
ghost use Rattle.cov_syntax.specs.declared.fault.FaultKind.{FaultKind};
ghost use Rattle.cov_syntax.specs.declared.token.Token.{Token};
ghost use Rattle.cov_syntax.specs.Cuts.{IsBadByte, IsCut};
ghost use Rattle.cov_syntax.specs.Faults.{Gives};
ghost use Rattle.cov_syntax.specs.Tokens.{fault_at, or_bad_byte, tokens, tokens_from};

use crate::front::{Front, read_front};
use cov_syntax::{FaultKind, Refused, Seq, Span, Token};
use std::alloc::Global;

/// The most bytes of a text.
const LONGEST_TEXT: usize = 1_048_576;

/// The tokens of a text, from left to right. It takes time linear in the text.
pub fn lex(alloc: Global, text: &[u8]) -> Result<Seq<Token>, Refused>
    ensures answer { Gives result (tokens text.now) }

    // Each token is the longest at its place, and blanks and comments stand between them.
    ensures cut { IfOk result (λ ts. IsCut text.now 0 ts (length text.now)) }

    // The same holds before the first byte that begins no token and separates none.
    ensures bad_byte { (at : ℕ) → result ≡ Err (Refused.Fault (fault_at FaultKind.BadByte at (at + 1)))
        → (ts : List Token) × IsCut text.now 0 ts at × IsBadByte text.now at }
{
    if text.len() > LONGEST_TEXT {
        let start = span(0, 0);
        return Err(Refused::Fault(FaultKind::FileTooLong.at(start)));
    }
    scan(alloc, text)
}

fn scan(alloc: Global, text: &[u8]) -> Result<Seq<Token>, Refused>
    requires { length text.now < 2 ^ 31 }
    ensures { Gives result (or_bad_byte (tokens_from 0 0 text.now)) }
{
    let mut found = Seq::new(alloc);
    let mut at = 0;
    while at < text.len() {
        match read_front(&text[at..]) {
            Front::Blank(len) => at += len,
            Front::Token(kind, len) => {
                found.push(Token {
                    kind,
                    span: span(at, at + len),
                })?;
                at += len;
            }
            Front::Nothing => return Err(Refused::Fault(FaultKind::BadByte.at(span(at, at + 1)))),
        }
    }
    Ok(found)
}

fn span(start: usize, stop: usize) -> Span
    requires from { start < 2 ^ 32 }
    requires to { stop < 2 ^ 32 }
    ensures { result ≡ record { start = start; stop = stop } }
{
    Span {
        start: start as u32,
        stop: stop as u32,
    }
}
