//! The words and marks of the grammar, by what they stand for.

ghost use Rattle.std.specs.Prelude.{◌≡◌, ◌≢◌, true, false};
ghost use Rattle.cov_syntax.specs.Lexemes as lists;
ghost use Rattle.cov_grammar.specs.Modules as spec;

use cov_syntax::{Block, CondKind, Mark, Op1, Op2, Terminal, When, Word};

#[tactic(auto, unfolding(cov_syntax::specs::Lexemes::same))]
pub fn same(a: Terminal, b: Terminal) -> bool
    ensures { result ≡ lists.same a b }
{
    match (a, b) {
        (Terminal::Nothing, Terminal::Nothing) => true,
        (Terminal::Name, Terminal::Name) => true,
        (Terminal::Number, Terminal::Number) => true,
        (Terminal::Word(a), Terminal::Word(b)) => a == b,
        (Terminal::Mark(a), Terminal::Mark(b)) => a == b,
        _ => false,
    }
}

/// The level of an operator that groups to the left, and what it is.
pub fn left(kind: Terminal) -> Option<(u8, Op2)>
    ensures { result ≡ lists.left kind }
{
    match kind {
        Terminal::Mark(Mark::Iff) => Some((2, Op2::Iff)),
        Terminal::Mark(Mark::Or) => Some((3, Op2::Or)),
        Terminal::Word(Word::Xor) => Some((3, Op2::Xor)),
        Terminal::Mark(Mark::And) => Some((4, Op2::And)),
        Terminal::Mark(Mark::Equal) => Some((6, Op2::Eq)),
        Terminal::Mark(Mark::NotEqual) => Some((6, Op2::Ne)),
        Terminal::Mark(Mark::Less) => Some((6, Op2::Lt)),
        Terminal::Mark(Mark::LessEqual) => Some((6, Op2::Le)),
        Terminal::Mark(Mark::Greater) => Some((6, Op2::Gt)),
        Terminal::Mark(Mark::GreaterEqual) => Some((6, Op2::Ge)),
        Terminal::Word(Word::In) => Some((7, Op2::Member)),
        Terminal::Word(Word::Union) => Some((8, Op2::Union)),
        Terminal::Word(Word::Mod) => Some((9, Op2::Mod)),
        Terminal::Mark(Mark::Plus) => Some((10, Op2::Add)),
        Terminal::Mark(Mark::Minus) => Some((10, Op2::Sub)),
        Terminal::Mark(Mark::Star) => Some((11, Op2::Mul)),
        Terminal::Mark(Mark::Slash) => Some((11, Op2::Div)),
        _ => None,
    }
}

pub fn prefix(kind: Terminal) -> Option<Op1>
    ensures { result ≡ lists.prefix kind }
{
    match kind {
        Terminal::Mark(Mark::Not) => Some(Op1::Not),
        Terminal::Word(Word::Ex) => Some(Op1::Ex),
        Terminal::Word(Word::Ef) => Some(Op1::Ef),
        Terminal::Word(Word::Eg) => Some(Op1::Eg),
        Terminal::Word(Word::Ax) => Some(Op1::Ax),
        Terminal::Word(Word::Af) => Some(Op1::Af),
        Terminal::Word(Word::Ag) => Some(Op1::Ag),
        _ => None,
    }
}

pub fn equality(kind: Terminal) -> Option<Op2>
    ensures { result ≡ lists.equality kind }
{
    match kind {
        Terminal::Mark(Mark::Equal) => Some(Op2::Eq),
        Terminal::Mark(Mark::NotEqual) => Some(Op2::Ne),
        _ => None,
    }
}

pub fn moment(kind: Terminal) -> Option<When>
    ensures { result ≡ lists.moment kind }
{
    match kind {
        Terminal::Word(Word::InitOf) => Some(When::First),
        Terminal::Word(Word::NextOf) => Some(When::Next),
        _ => None,
    }
}

pub fn block_of(kind: Terminal) -> Option<Block>
    ensures { result ≡ lists.block_of kind }
{
    match kind {
        Terminal::Word(Word::Var) => Some(Block::Vars),
        Terminal::Word(Word::Assign) => Some(Block::Assigns),
        Terminal::Word(Word::Define) => Some(Block::Defines),
        _ => None,
    }
}

pub fn condition_of(kind: Terminal) -> Option<CondKind>
    ensures { result ≡ lists.condition_of kind }
{
    match kind {
        Terminal::Word(Word::Trans) => Some(CondKind::Trans),
        Terminal::Word(Word::Init) => Some(CondKind::Init),
        Terminal::Word(Word::Invar) => Some(CondKind::Invar),
        Terminal::Word(Word::Fairness | Word::Justice) => Some(CondKind::Fair),
        Terminal::Word(Word::Spec | Word::CtlSpec) => Some(CondKind::Spec),
        _ => None,
    }
}

pub fn begins_section(kind: Terminal) -> bool
    ensures { result ≡ spec.begins_section kind }
{
    block_of(kind).is_some() || condition_of(kind).is_some()
}

pub fn begins_entry(block: Block, kind: Terminal) -> bool
    ensures { result ≡ spec.begins_entry block kind }
{
    match block {
        Block::Assigns => same(kind, Terminal::Name) || moment(kind).is_some(),
        Block::Vars | Block::Defines => same(kind, Terminal::Name),
    }
}
