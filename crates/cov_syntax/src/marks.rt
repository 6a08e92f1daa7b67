ghost use Rattle.std.specs.Prelude.{◌≡◌, IfSome};

use crate::table::entry;

/// A token of one to three bytes that are no letters or digits.
#[derive(Clone, Copy, Debug, PartialEq, Eq)]
pub enum Mark {
    /// `(`
    OpenParen = 0,
    /// `)`
    CloseParen = 1,
    /// `{`
    OpenBrace = 2,
    /// `}`
    CloseBrace = 3,
    /// `[`
    OpenBracket = 4,
    /// `]`
    CloseBracket = 5,
    /// `,`
    Comma = 6,
    /// `;`
    Semicolon = 7,
    /// `:`
    Colon = 8,
    /// `.`
    Dot = 9,
    /// `..`
    Dots = 10,
    /// `:=`
    Becomes = 11,
    /// `=`
    Equal = 12,
    /// `!=`
    NotEqual = 13,
    /// `<`
    Less = 14,
    /// `<=`
    LessEqual = 15,
    /// `>`
    Greater = 16,
    /// `>=`
    GreaterEqual = 17,
    /// `+`
    Plus = 18,
    /// `-`
    Minus = 19,
    /// `*`
    Star = 20,
    /// `/`
    Slash = 21,
    /// `!`
    Not = 22,
    /// `&`
    And = 23,
    /// `|`
    Or = 24,
    /// `->`
    Implies = 25,
    /// `<->`
    Iff = 26,
}

/// The marks, by their numbers.
const MARKS: [Mark; 27] = [
    Mark::OpenParen,
    Mark::CloseParen,
    Mark::OpenBrace,
    Mark::CloseBrace,
    Mark::OpenBracket,
    Mark::CloseBracket,
    Mark::Comma,
    Mark::Semicolon,
    Mark::Colon,
    Mark::Dot,
    Mark::Dots,
    Mark::Becomes,
    Mark::Equal,
    Mark::NotEqual,
    Mark::Less,
    Mark::LessEqual,
    Mark::Greater,
    Mark::GreaterEqual,
    Mark::Plus,
    Mark::Minus,
    Mark::Star,
    Mark::Slash,
    Mark::Not,
    Mark::And,
    Mark::Or,
    Mark::Implies,
    Mark::Iff,
];

impl Mark {
    ghost use Rattle.cov_syntax.specs.declared.marks.Mark.{Mark};
    ghost use Rattle.cov_syntax.specs.Marks.{mark_number, mark_spelling, mark_numbered};

    /// The number of the mark in tokens, from 0.
    pub fn number(self) -> u8
        ensures { result ≡ mark_number self }
    {
        self as u8
    }

    /// The mark with a number, if there is one.
    pub fn from_number(n: u8) -> Option<Mark>
        ensures value { result ≡ mark_numbered n }
        ensures number { IfSome result (λ m. mark_number m ≡ n) }
        ensures only { (m : Mark) → mark_number m ≡ n → result ≡ Some m }
    {
        entry(&MARKS, n)
    }

    /// The mark as it is written.
    pub fn spelling(self) -> &'static str
        ensures { result.now ≡ mark_spelling self }
    {
        match self {
            Mark::OpenParen => "(",
            Mark::CloseParen => ")",
            Mark::OpenBrace => "{",
            Mark::CloseBrace => "}",
            Mark::OpenBracket => "[",
            Mark::CloseBracket => "]",
            Mark::Comma => ",",
            Mark::Semicolon => ";",
            Mark::Colon => ":",
            Mark::Dot => ".",
            Mark::Dots => "..",
            Mark::Becomes => ":=",
            Mark::Equal => "=",
            Mark::NotEqual => "!=",
            Mark::Less => "<",
            Mark::LessEqual => "<=",
            Mark::Greater => ">",
            Mark::GreaterEqual => ">=",
            Mark::Plus => "+",
            Mark::Minus => "-",
            Mark::Star => "*",
            Mark::Slash => "/",
            Mark::Not => "!",
            Mark::And => "&",
            Mark::Or => "|",
            Mark::Implies => "->",
            Mark::Iff => "<->",
        }
    }
}
