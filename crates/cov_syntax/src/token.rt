use crate::tree::Span;

/// What a token is. Reserved words have the numbers of `Word`, and marks those of `Mark`.
#[derive(Clone, Copy, Debug, PartialEq, Eq)]
pub enum TokenKind {
    Name,
    Number,
    Word(u8),
    Mark(u8),
}

/// A token of a text, with the bytes that it takes.
#[derive(Clone, Copy, Debug, PartialEq, Eq)]
pub struct Token {
    pub kind: TokenKind,
    pub span: Span,
}
