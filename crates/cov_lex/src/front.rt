ghost use Rattle.std.specs.Prelude.{◌≡◌, ◌<◌, length};
ghost use Rattle.cov_syntax.specs.Tokens as spec;
ghost use Rattle.cov_lex.specs.Fronts.{front_of, IsWithin};

use crate::bytes::{begins_name, byte, is_blank, line_len, name_len, number_len};
use crate::mark::mark;
use crate::word::spelled;
use cov_syntax::TokenKind;

/// What a text begins with, and how many bytes it has.
#[derive(Clone, Copy, Debug, PartialEq, Eq)]
pub enum Front {
    /// A blank or a comment.
    Blank(usize),
    Token(TokenKind, usize),
    /// A byte that begins no token and separates none.
    Nothing,
}

fn name_kind(name: &[u8]) -> TokenKind
    ensures { result ≡ spec.name_kind (spec.spelled_word name.now) }
{
    match spelled(name) {
        Some(word) => TokenKind::Word(word.number()),
        None => TokenKind::Name,
    }
}

fn mark_front(text: &[u8]) -> Front
    requires { 0 < length text.now }
    ensures value { front_of result ≡ spec.mark_front (spec.front_mark text.now) }
    ensures within { IsWithin result (length text.now) }
{
    match mark(text) {
        Some(mark) => Front::Token(TokenKind::Mark(mark.number()), mark.spelling().len()),
        None => Front::Nothing,
    }
}

#[tactic(auto, unfolding(cov_syntax::specs::Tokens::front))]
pub fn read_front(text: &[u8]) -> Front
    requires { 0 < length text.now }
    ensures value { front_of result ≡ spec.front text.now }
    ensures within { IsWithin result (length text.now) }
{
    let first = byte(text, 0);
    if is_blank(first) {
        Front::Blank(1)
    } else if first == b'-' && byte(text, 1) == b'-' {
        Front::Blank(line_len(text))
    } else if begins_name(first) {
        let len = name_len(text);
        Front::Token(name_kind(&text[..len]), len)
    } else if first.is_ascii_digit() {
        Front::Token(TokenKind::Number, number_len(text))
    } else {
        mark_front(text)
    }
}
