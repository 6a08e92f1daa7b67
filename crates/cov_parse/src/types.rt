//! Types of declarations.

ghost use Rattle.std.specs.Prelude.{◌≡◌, [], length};
ghost use Rattle.cov_grammar.specs.Expressions as exprs;
ghost use Rattle.cov_grammar.specs.Modules as spec;
ghost use Rattle.cov_grammar.specs.Steps as steps;
ghost use Rattle.cov_parse.specs.Gives.{Gives};

use crate::error::ParseError;
use crate::expressions::whole_exprs;
use crate::steps::{expect, int, is_next, kind, next, spelled_name, value};
use cov_syntax::{Expr, Lexeme, Mark, Seq, Terminal, TypeTree, Value, Word};
use std::alloc::Global;

/// A value of an enumeration.
#[tactic(auto, unfolding(cov_grammar::specs::Modules::item))]
fn item(lexemes: &[Lexeme]) -> Result<(Value, &[Lexeme]), ParseError>
    ensures { Gives (λ x. (x.0, x.1.now)) result (spec.item lexemes.now) }
{
    if is_next(lexemes, Terminal::Name) {
        return Ok((Value::Sym(value(lexemes)), next(lexemes)));
    }
    let (i, rest) = int(lexemes)?;
    Ok((Value::Int(i), rest))
}

#[tactic(auto, unfolding(cov_grammar::specs::Modules::items, cov_grammar::specs::Steps::separated))]
fn items<'a>(alloc: Global, lexemes: &'a [Lexeme]) -> Result<(Seq<Value>, &'a [Lexeme]), ParseError>
    ensures { Gives (λ x. (x.0, x.1.now)) result (spec.items lexemes.now) }
{
    let mut found = Seq::new(alloc);
    let mut rest = lexemes;
    for _turn in 0..lexemes.len() {
        let (value, after) = item(rest)?;
        found.push(value)?;
        if !is_next(after, Terminal::Mark(Mark::Comma)) {
            return Ok((found, after));
        }
        rest = next(after);
    }
    Err(ParseError::Unread(rest.len()))
}

#[tactic(auto, unfolding(cov_grammar::specs::Modules::listed))]
fn listed<'a>(alloc: Global, lexemes: &'a [Lexeme]) -> Result<(TypeTree, &'a [Lexeme]), ParseError>
    ensures { Gives (λ x. (x.0, x.1.now)) result (spec.listed lexemes.now) }
{
    let (values, after) = items(alloc, next(lexemes))?;
    let rest = expect(Terminal::Mark(Mark::CloseBrace), after)?;
    Ok((TypeTree::List(values), rest))
}

#[tactic(auto, unfolding(cov_grammar::specs::Modules::between))]
fn between(lexemes: &[Lexeme]) -> Result<(TypeTree, &[Lexeme]), ParseError>
    ensures { Gives (λ x. (x.0, x.1.now)) result (spec.between lexemes.now) }
{
    let (low, after) = int(lexemes)?;
    let (high, rest) = int(expect(Terminal::Mark(Mark::Dots), after)?)?;
    Ok((TypeTree::Between(low, high), rest))
}

/// The arguments of an instance.
#[tactic(auto, unfolding(cov_grammar::specs::Steps::in_parens))]
fn arguments<'a>(
    alloc: Global,
    lexemes: &'a [Lexeme],
) -> Result<(Seq<Expr>, &'a [Lexeme]), ParseError>
    ensures { Gives (λ x. (x.0, x.1.now)) result (steps.in_parens exprs.whole_exprs lexemes.now) }
{
    if !is_next(lexemes, Terminal::Mark(Mark::OpenParen)) {
        return Ok((Seq::new(alloc), lexemes));
    }
    let inner = next(lexemes);
    if is_next(inner, Terminal::Mark(Mark::CloseParen)) {
        return Ok((Seq::new(alloc), next(inner)));
    }
    let (found, after) = whole_exprs(alloc, inner)?;
    Ok((found, expect(Terminal::Mark(Mark::CloseParen), after)?))
}

#[tactic(auto, unfolding(cov_grammar::specs::Modules::instance_type))]
fn instance<'a>(
    alloc: Global,
    lexemes: &'a [Lexeme],
) -> Result<(TypeTree, &'a [Lexeme]), ParseError>
    ensures { Gives (λ x. (x.0, x.1.now)) result (spec.instance_type lexemes.now) }
{
    let (module, after) = spelled_name(lexemes)?;
    let (given, rest) = arguments(alloc, after)?;
    Ok((TypeTree::Instance { module, given }, rest))
}

#[tactic(auto, unfolding(cov_grammar::specs::Modules::type_tree))]
pub fn type_tree<'a>(
    alloc: Global,
    lexemes: &'a [Lexeme],
) -> Result<(TypeTree, &'a [Lexeme]), ParseError>
    ensures { Gives (λ x. (x.0, x.1.now)) result (spec.type_tree lexemes.now) }
{
    match kind(lexemes) {
        Terminal::Word(Word::Boolean) => Ok((TypeTree::Boolean, next(lexemes))),
        Terminal::Mark(Mark::OpenBrace) => listed(alloc, lexemes),
        Terminal::Name => instance(alloc, lexemes),
        _ => between(lexemes),
    }
}
