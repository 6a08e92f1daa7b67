//! Paths and nodes of expressions.

ghost use Rattle.std.specs.Prelude.{◌≡◌, [], IfOk};
ghost use Rattle.cov_syntax.specs.declared.tree.Node.TheVariants as Node;
ghost use Rattle.cov_syntax.specs.Lexemes as lists;
ghost use Rattle.cov_grammar.specs.Expressions as spec;
ghost use Rattle.cov_grammar.specs.Steps as steps;
ghost use Rattle.cov_parse.specs.Gives.{Gives};

use crate::error::ParseError;
use crate::steps::{int, is_next, name, next, place};
use cov_syntax::{Expr, Lexeme, Mark, Node, Op1, Op2, Seq, Terminal, Value};
use sqlite_items::Boxed;
use std::alloc::{AllocError, Global};

/// A node that takes the lexemes before the rest.
pub fn at(node: Node, lexemes: &[Lexeme], rest: &[Lexeme]) -> Expr
    ensures { result ≡ lists.at node lexemes.now rest.now }
{
    Expr {
        node,
        place: place(lexemes, rest),
    }
}

pub fn one(alloc: Global, op: Op1, a: Expr) -> Result<Node, AllocError>
    ensures { IfOk result (λ n. n ≡ Node.One op a) }
{
    Ok(Node::One(op, Boxed::new(alloc, a)?))
}

pub fn two(alloc: Global, op: Op2, a: Expr, b: Expr) -> Result<Node, AllocError>
    ensures { IfOk result (λ n. n ≡ Node.Two op a b) }
{
    Ok(Node::Two(op, Boxed::new(alloc, a)?, Boxed::new(alloc, b)?))
}

#[tactic(auto, unfolding(cov_grammar::specs::Steps::path, cov_grammar::specs::Steps::separated))]
fn names<'a>(alloc: Global, lexemes: &'a [Lexeme]) -> Result<(Seq<u32>, &'a [Lexeme]), ParseError>
    ensures { Gives (λ x. (x.0, x.1.now)) result (steps.path lexemes.now) }
{
    let mut found = Seq::new(alloc);
    let mut rest = lexemes;
    for _turn in 0..lexemes.len() {
        let (part, after) = name(rest)?;
        found.push(part)?;
        if !is_next(after, Terminal::Mark(Mark::Dot)) {
            return Ok((found, after));
        }
        rest = next(after);
    }
    Err(ParseError::Unread(rest.len()))
}

/// Names with dots between.
#[tactic(auto, unfolding(cov_grammar::specs::Expressions::path_expr))]
pub fn path<'a>(alloc: Global, lexemes: &'a [Lexeme]) -> Result<(Expr, &'a [Lexeme]), ParseError>
    ensures { Gives (λ x. (x.0, x.1.now)) result (spec.path_expr lexemes.now) }
{
    let (found, rest) = names(alloc, lexemes)?;
    Ok((at(Node::Path(found), lexemes, rest), rest))
}

/// An integer, or a range of two.
#[tactic(auto, unfolding(cov_grammar::specs::Expressions::ranged))]
pub fn ranged(lexemes: &[Lexeme]) -> Result<(Expr, &[Lexeme]), ParseError>
    ensures { Gives (λ x. (x.0, x.1.now)) result (spec.ranged lexemes.now) }
{
    let (low, after) = int(lexemes)?;
    if !is_next(after, Terminal::Mark(Mark::Dots)) {
        return Ok((at(Node::Lit(Value::Int(low)), lexemes, after), after));
    }
    let (high, rest) = int(next(after))?;
    Ok((at(Node::Range(low, high), lexemes, rest), rest))
}
