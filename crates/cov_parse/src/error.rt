ghost use Rattle.std.specs.Prelude.{◌≡◌};
ghost use Rattle.cov_parse.specs.declared.error.ParseError.TheVariants.{Memory};

use cov_syntax::NoMemory;
use std::alloc::{AllocError, AllocFailed};

/// Why nothing is read. A fault is at the lexeme with so many left, itself among them.
#[derive(Clone, Copy, Debug, PartialEq, Eq)]
pub enum ParseError {
    Memory,
    Unread(usize),
    /// The number is too great.
    TooGreat(usize),
}

impl From<AllocError> for ParseError {
    ghost from_gives = { λ _ e. e ≡ Memory };

    fn from(_e: AllocError) -> ParseError {
        ParseError::Memory
    }
}

impl<T: Drop> From<AllocFailed<T>> for ParseError {
    ghost from_gives = { λ _ e. e ≡ Memory };

    fn from(_e: AllocFailed<T>) -> ParseError {
        ParseError::Memory
    }
}

impl From<NoMemory> for ParseError {
    ghost from_gives = { λ _ e. e ≡ Memory };

    fn from(_e: NoMemory) -> ParseError {
        ParseError::Memory
    }
}
