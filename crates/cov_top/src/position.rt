ghost use Rattle.std.specs.Prelude.{◌≡◌, ◌<◌, ◌^◌, length};
ghost use Rattle.cov_top.specs.Position.{column_of, line_of, told_word};

use cov_lex::spelled;
use cov_syntax::{FaultKind, ModelFault, Word};

/// A place in a text. The first line and the first column have the number 1; columns count bytes.
#[derive(Clone, Copy, Debug, PartialEq, Eq)]
pub(crate) struct Position {
    pub(crate) line: u32,
    pub(crate) column: u32,
}

impl Position {
    /// The start of a text.
    pub(crate) const START: Position = Position { line: 1, column: 1 };
}

/// The line and the column of the byte at a place, or of the end where the place is behind it.
pub(crate) fn position_of(text: &[u8], at: usize) -> Position
    requires { length text.now < 2 ^ 31 }
    ensures line { result.line ≡ line_of text.now at }
    ensures column { result.column ≡ column_of text.now at }
{
    let mut position = Position { line: 1, column: 1 };
    let front = &text[..at.min(text.len())];
    for byte in front {
        if *byte == b'\n' {
            position.line += 1;
            position.column = 1;
        } else {
            position.column += 1;
        }
    }
    position
}

/// The word at the place of a fault that tells one.
pub(crate) fn told_word(text: &[u8], fault: ModelFault) -> Option<Word>
    ensures { result ≡ told_word text.now fault }
{
    let (from, to) = (fault.place.start as usize, fault.place.stop as usize);
    if fault.code == FaultKind::LeftOut.code() && from <= to && to <= text.len() {
        spelled(&text[from..to])
    } else {
        None
    }
}
