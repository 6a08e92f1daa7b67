//! Expressions, by levels.

ghost use Rattle.std.specs.Prelude.{◌≡◌, ◌<◌, ◌≤◌, ◌+◌, ◌*◌, [], length};
ghost use Rattle.cov_syntax.specs.Lexemes as lists;
ghost use Rattle.cov_grammar.specs.Expressions as spec;
ghost use Rattle.cov_grammar.specs.Steps as steps;
ghost use Rattle.cov_syntax.specs.declared.lexeme.Terminal.TheVariants as Terminal;
ghost use Rattle.cov_syntax.specs.declared.marks.Mark.TheVariants as Mark;
ghost use Rattle.cov_parse.specs.Gives.{Gives};

use crate::error::ParseError;
use crate::parts::{at, one, path, ranged, two};
use crate::steps::{expect, is_next, kind, next};
use crate::tables::{equality, left, prefix};
use cov_syntax::{Branch, Expr, Lexeme, Mark, Node, Op1, Op2, Seq, Terminal, Value, Word};
use std::alloc::Global;

fn ends_comparison(lexemes: &[Lexeme]) -> bool
    ensures { result ≡ spec.ends_comparison lexemes.now }
{
    equality(kind(lexemes)).is_some() && prefix(kind(next(lexemes))).is_some()
}

/// The operator that goes on with a chain of this level.
#[tactic(auto, unfolding(cov_grammar::specs::Expressions::joint))]
fn joint(level: u8, lexemes: &[Lexeme]) -> Option<Op2>
    ensures { result ≡ spec.joint level lexemes.now }
{
    if ends_comparison(lexemes) {
        return None;
    }
    let (at, op) = left(kind(lexemes))?;
    if level == at { Some(op) } else { None }
}

/// An expression of the level at the front, and the lexemes after it, by a recursion no deeper than `depth`.
#[cycle(expr)]
#[tactic(auto, unfolding(cov_grammar::specs::Expressions::expr, cov_grammar::specs::Expressions::level))]
fn expr<'a>(
    alloc: Global,
    depth: usize,
    level: u8,
    lexemes: &'a [Lexeme],
) -> Result<(Expr, &'a [Lexeme]), ParseError>
    requires { level ≤ 12 }
    ensures { Gives (λ x. (x.0, x.1.now)) result (spec.expr depth level lexemes.now) }
{
    if depth == 0 {
        return Err(ParseError::Unread(lexemes.len()));
    }
    if level == 1 {
        implication(alloc, depth - 1, lexemes)
    } else if level == 5 {
        prefixed(alloc, depth - 1, lexemes)
    } else if level == 12 {
        primary(alloc, depth - 1, lexemes)
    } else {
        chain(alloc, depth - 1, level, lexemes)
    }
}

#[cycle(expr)]
#[tactic(auto, unfolding(cov_grammar::specs::Expressions::implication))]
fn implication<'a>(
    alloc: Global,
    depth: usize,
    lexemes: &'a [Lexeme],
) -> Result<(Expr, &'a [Lexeme]), ParseError>
    ensures { Gives (λ x. (x.0, x.1.now)) result (spec.implication (spec.expr depth) lexemes.now) }
{
    let (a, after) = expr(alloc, depth, 2, lexemes)?;
    if !is_next(after, Terminal::Mark(Mark::Implies)) {
        return Ok((a, after));
    }
    let (b, rest) = expr(alloc, depth, 1, next(after))?;
    Ok((at(two(alloc, Op2::Implies, a, b)?, lexemes, rest), rest))
}

#[cycle(expr)]
#[tactic(auto, unfolding(cov_grammar::specs::Expressions::prefixed))]
fn prefixed<'a>(
    alloc: Global,
    depth: usize,
    lexemes: &'a [Lexeme],
) -> Result<(Expr, &'a [Lexeme]), ParseError>
    ensures { Gives (λ x. (x.0, x.1.now)) result (spec.prefixed (spec.expr depth) lexemes.now) }
{
    if let Some(op) = prefix(kind(lexemes)) {
        let (e, rest) = expr(alloc, depth, 5, next(lexemes))?;
        return Ok((at(one(alloc, op, e)?, lexemes, rest), rest));
    }
    let (a, after) = expr(alloc, depth, 6, lexemes)?;
    match (equality(kind(after)), prefix(kind(next(after)))) {
        (Some(op), Some(pre)) => {
            let (b, rest) = expr(alloc, depth, 5, next(next(after)))?;
            let b = at(one(alloc, pre, b)?, next(after), rest);
            Ok((at(two(alloc, op, a, b)?, lexemes, rest), rest))
        }
        _ => Ok((a, after)),
    }
}

#[cycle(expr)]
#[tactic(auto, unfolding(cov_grammar::specs::Expressions::chain))]
fn chain<'a>(
    alloc: Global,
    depth: usize,
    level: u8,
    lexemes: &'a [Lexeme],
) -> Result<(Expr, &'a [Lexeme]), ParseError>
    requires { level < 12 }
    ensures { Gives (λ x. (x.0, x.1.now)) result (spec.chain (spec.expr depth) level lexemes.now) }
{
    let (mut left, mut after) = expr(alloc, depth, level + 1, lexemes)?;
    for _turn in 0..after.len() {
        let Some(op) = joint(level, after) else {
            return Ok((left, after));
        };
        let (longer, rest) = operated(alloc, depth, level, op, lexemes, left, after)?;
        left = longer;
        after = rest;
    }
    Ok((left, after))
}

/// The operator at the front of `after`, and its right operand.
#[cycle(expr)]
fn operated<'a>(
    alloc: Global,
    depth: usize,
    level: u8,
    op: Op2,
    lexemes: &'a [Lexeme],
    left: Expr,
    after: &'a [Lexeme],
) -> Result<(Expr, &'a [Lexeme]), ParseError>
    requires { level < 12 }
    ensures { Gives (λ x. (x.0, x.1.now)) result (spec.operated (spec.expr depth) level lexemes.now left after.now op) }
{
    let (b, rest) = expr(alloc, depth, level + 1, next(after))?;
    Ok((at(two(alloc, op, left, b)?, lexemes, rest), rest))
}

#[cycle(expr)]
#[tactic(auto, unfolding(cov_grammar::specs::Expressions::primary, cov_grammar::specs::Expressions::negated, cov_grammar::specs::Expressions::next_value))]
fn primary<'a>(
    alloc: Global,
    depth: usize,
    lexemes: &'a [Lexeme],
) -> Result<(Expr, &'a [Lexeme]), ParseError>
    ensures { Gives (λ x. (x.0, x.1.now)) result (spec.primary (spec.expr depth) lexemes.now) }
{
    match kind(lexemes) {
        Terminal::Name => path(alloc, lexemes),
        Terminal::Number => ranged(lexemes),
        Terminal::Mark(Mark::Minus) => {
            if is_next(next(lexemes), Terminal::Number) {
                return ranged(lexemes);
            }
            let (e, rest) = expr(alloc, depth, 12, next(lexemes))?;
            Ok((at(one(alloc, Op1::Neg, e)?, lexemes, rest), rest))
        }
        Terminal::Mark(Mark::OpenParen) => grouped(alloc, depth, lexemes),
        Terminal::Mark(Mark::OpenBrace) => set(alloc, depth, lexemes),
        Terminal::Word(Word::True) => Ok(literal(true, lexemes)),
        Terminal::Word(Word::False) => Ok(literal(false, lexemes)),
        Terminal::Word(Word::Case) => choice(alloc, depth, lexemes),
        Terminal::Word(Word::NextOf) => {
            let (e, rest) = grouped(alloc, depth, next(lexemes))?;
            Ok((at(one(alloc, Op1::Next, e)?, lexemes, rest), rest))
        }
        Terminal::Word(Word::A) => until(alloc, depth, Op2::Au, lexemes),
        Terminal::Word(Word::E) => until(alloc, depth, Op2::Eu, lexemes),
        _ => Err(ParseError::Unread(lexemes.len())),
    }
}

#[cycle(expr)]
#[tactic(auto, unfolding(cov_grammar::specs::Expressions::grouped))]
fn grouped<'a>(
    alloc: Global,
    depth: usize,
    lexemes: &'a [Lexeme],
) -> Result<(Expr, &'a [Lexeme]), ParseError>
    ensures { Gives (λ x. (x.0, x.1.now)) result (spec.grouped (spec.expr depth) lexemes.now) }
{
    let inner = expect(Terminal::Mark(Mark::OpenParen), lexemes)?;
    let (e, after) = expr(alloc, depth, 1, inner)?;
    Ok((e, expect(Terminal::Mark(Mark::CloseParen), after)?))
}

#[cycle(expr)]
#[tactic(auto, unfolding(cov_grammar::specs::Expressions::set, cov_grammar::specs::Expressions::exprs))]
fn set<'a>(
    alloc: Global,
    depth: usize,
    lexemes: &'a [Lexeme],
) -> Result<(Expr, &'a [Lexeme]), ParseError>
    ensures { Gives (λ x. (x.0, x.1.now)) result (spec.set (spec.expr depth) lexemes.now) }
{
    let (found, after) = items(alloc, depth, next(lexemes))?;
    let rest = expect(Terminal::Mark(Mark::CloseBrace), after)?;
    Ok((at(Node::Set(found), lexemes, rest), rest))
}

/// Expressions with commas between.
#[cycle(expr)]
#[tactic(auto, unfolding(cov_grammar::specs::Expressions::exprs, cov_grammar::specs::Steps::separated))]
fn items<'a>(
    alloc: Global,
    depth: usize,
    lexemes: &'a [Lexeme],
) -> Result<(Seq<Expr>, &'a [Lexeme]), ParseError>
    ensures { Gives (λ x. (x.0, x.1.now)) result (spec.exprs (spec.expr depth) lexemes.now) }
{
    let mut found = Seq::new(alloc);
    let mut rest = lexemes;
    for _turn in 0..lexemes.len() {
        let (e, after) = expr(alloc, depth, 1, rest)?;
        found.push(e)?;
        if !is_next(after, Terminal::Mark(Mark::Comma)) {
            return Ok((found, after));
        }
        rest = next(after);
    }
    Err(ParseError::Unread(rest.len()))
}

#[cycle(expr)]
#[tactic(auto, unfolding(cov_grammar::specs::Expressions::branch))]
fn branch<'a>(
    alloc: Global,
    depth: usize,
    lexemes: &'a [Lexeme],
) -> Result<(Branch, &'a [Lexeme]), ParseError>
    ensures { Gives (λ x. (x.0, x.1.now)) result (spec.branch (spec.expr depth) lexemes.now) }
{
    let (guard, after) = expr(alloc, depth, 1, lexemes)?;
    let (body, after) = expr(alloc, depth, 1, expect(Terminal::Mark(Mark::Colon), after)?)?;
    let rest = expect(Terminal::Mark(Mark::Semicolon), after)?;
    Ok((Branch { guard, body }, rest))
}

/// Branches up to `esac`.
#[cycle(expr)]
#[tactic(auto, unfolding(cov_grammar::specs::Expressions::branches))]
fn branches<'a>(
    alloc: Global,
    depth: usize,
    turns: usize,
    lexemes: &'a [Lexeme],
) -> Result<(Seq<Branch>, &'a [Lexeme]), ParseError>
    ensures { Gives (λ x. (x.0, x.1.now)) result (spec.branches (spec.expr depth) turns [] lexemes.now) }
{
    let mut found = Seq::new(alloc);
    let mut rest = lexemes;
    for _turn in 0..turns {
        let (b, after) = branch(alloc, depth, rest)?;
        found.push(b)?;
        if is_next(after, Terminal::Word(Word::Esac)) {
            return Ok((found, next(after)));
        }
        rest = after;
    }
    Err(ParseError::Unread(rest.len()))
}

#[cycle(expr)]
#[tactic(auto, unfolding(cov_grammar::specs::Expressions::choice))]
fn choice<'a>(
    alloc: Global,
    depth: usize,
    lexemes: &'a [Lexeme],
) -> Result<(Expr, &'a [Lexeme]), ParseError>
    ensures { Gives (λ x. (x.0, x.1.now)) result (spec.choice (spec.expr depth) lexemes.now) }
{
    let (found, rest) = branches(alloc, depth, lexemes.len(), next(lexemes))?;
    Ok((at(Node::Case(found), lexemes, rest), rest))
}

#[cycle(expr)]
#[tactic(auto, unfolding(cov_grammar::specs::Expressions::until))]
fn until<'a>(
    alloc: Global,
    depth: usize,
    op: Op2,
    lexemes: &'a [Lexeme],
) -> Result<(Expr, &'a [Lexeme]), ParseError>
    ensures { Gives (λ x. (x.0, x.1.now)) result (spec.until (spec.expr depth) op lexemes.now) }
{
    let first = expect(Terminal::Mark(Mark::OpenBracket), next(lexemes))?;
    let (a, after) = expr(alloc, depth, 1, first)?;
    let (b, after) = expr(alloc, depth, 1, expect(Terminal::Word(Word::U), after)?)?;
    let rest = expect(Terminal::Mark(Mark::CloseBracket), after)?;
    Ok((at(two(alloc, op, a, b)?, lexemes, rest), rest))
}

fn literal(truth: bool, lexemes: &[Lexeme]) -> (Expr, &[Lexeme])
    ensures tree { result.0 ≡ lists.at (Node.Lit (Value.Bool truth)) lexemes.now (lists.next lexemes.now) }
    ensures rest { result.1.now ≡ lists.next lexemes.now }
{
    let rest = next(lexemes);
    (at(Node::Lit(Value::Bool(truth)), lexemes, rest), rest)
}

/// How deep the recursion goes at most.
fn enough(lexemes: &[Lexeme]) -> usize
    ensures { result ≡ spec.enough (length lexemes.now) }
{
    13 * lexemes.len() + 13
}

/// An expression at the front.
#[tactic(auto, unfolding(cov_grammar::specs::Expressions::whole_expr))]
pub fn whole_expr<'a>(
    alloc: Global,
    lexemes: &'a [Lexeme],
) -> Result<(Expr, &'a [Lexeme]), ParseError>
    ensures { Gives (λ x. (x.0, x.1.now)) result (spec.whole_expr lexemes.now) }
{
    expr(alloc, enough(lexemes), 1, lexemes)
}

/// Expressions with commas between.
#[tactic(auto, unfolding(cov_grammar::specs::Expressions::whole_exprs, cov_grammar::specs::Steps::separated))]
pub fn whole_exprs<'a>(
    alloc: Global,
    lexemes: &'a [Lexeme],
) -> Result<(Seq<Expr>, &'a [Lexeme]), ParseError>
    ensures { Gives (λ x. (x.0, x.1.now)) result (spec.whole_exprs lexemes.now) }
{
    let mut found = Seq::new(alloc);
    let mut rest = lexemes;
    for _turn in 0..lexemes.len() {
        let (e, after) = whole_expr(alloc, rest)?;
        found.push(e)?;
        if !is_next(after, Terminal::Mark(Mark::Comma)) {
            return Ok((found, after));
        }
        rest = next(after);
    }
    Err(ParseError::Unread(rest.len()))
}
