use crate::marks::Mark;
use crate::tree::Span;
use crate::words::Word;

/// What the grammar sees of a token. `Nothing` stands past the last one.
#[derive(Clone, Copy, Debug, PartialEq, Eq)]
pub enum Terminal {
    Nothing,
    Name,
    Number,
    Word(Word),
    Mark(Mark),
}

/// A token with its meaning: the place of a name among the names of the text, the value of a number, else 0.
#[derive(Clone, Copy, Debug, PartialEq, Eq)]
pub struct Lexeme {
    pub kind: Terminal,
    pub value: u32,
    pub place: Span,
}

/// What a section opens: a list of declarations, assignments or definitions.
#[derive(Clone, Copy, Debug, PartialEq, Eq)]
pub enum Block {
    Vars,
    Assigns,
    Defines,
}

/// What a lexeme does to the brackets and operators that are open at it.
#[derive(Clone, Copy, Debug, PartialEq, Eq)]
pub enum Role {
    Operator,
    /// `(`, which opens no bracket where it begins the arguments of an instance.
    OpensParen,
    Opens,
    Closes,
    Separates,
    /// The word of a section of declarations.
    Declares,
    /// Any other word of a section, the word of a module, and `:=`.
    Begins,
    Other,
}
