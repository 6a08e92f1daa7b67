//! Lists, names, tokens, syntax trees and faults, which contracts see as plain data.
#![tactic(auto)]

mod error;
mod fault;
mod lexeme;
mod marks;
mod names;
mod program;
mod seq;
mod table;
mod token;
mod tree;
mod words;

pub use error::NoMemory;
pub use fault::{FaultKind, ModelFault, Refused};
pub use lexeme::{Block, Lexeme, Role, Terminal};
pub use marks::Mark;
pub use names::{Names, Text};
pub use program::{CondKind, ModuleTree, Program, Section, Spelled, TypeTree, When};
pub use seq::Seq;
pub use token::{Token, TokenKind};
pub use tree::{Branch, Expr, Node, Op1, Op2, Span, Value};
pub use words::Word;
