//! Declarations, assignments and definitions.

ghost use Rattle.std.specs.Prelude.{◌≡◌};
ghost use Rattle.cov_grammar.specs.Modules as spec;
ghost use Rattle.cov_parse.specs.Gives.{Gives};

use crate::error::ParseError;
use crate::expressions::whole_expr;
use crate::parts::path;
use crate::steps::{expect, kind, next, place, spelled_name};
use crate::tables::moment;
use crate::types::type_tree;
use cov_syntax::{Block, Expr, Lexeme, Mark, Section, Terminal, When};
use std::alloc::Global;

#[tactic(auto, unfolding(cov_grammar::specs::Modules::path_in_parens))]
fn path_in_parens<'a>(
    alloc: Global,
    lexemes: &'a [Lexeme],
) -> Result<(Expr, &'a [Lexeme]), ParseError>
    ensures { Gives (λ x. (x.0, x.1.now)) result (spec.path_in_parens lexemes.now) }
{
    let inner = expect(Terminal::Mark(Mark::OpenParen), lexemes)?;
    let (e, after) = path(alloc, inner)?;
    Ok((e, expect(Terminal::Mark(Mark::CloseParen), after)?))
}

/// What is assigned, and when.
#[tactic(auto, unfolding(cov_grammar::specs::Modules::target))]
fn target<'a>(
    alloc: Global,
    lexemes: &'a [Lexeme],
) -> Result<((When, Expr), &'a [Lexeme]), ParseError>
    ensures { Gives (λ x. (x.0, x.1.now)) result (spec.target lexemes.now) }
{
    match moment(kind(lexemes)) {
        None => {
            let (e, rest) = path(alloc, lexemes)?;
            Ok(((When::Now, e), rest))
        }
        Some(when) => {
            let (e, rest) = path_in_parens(alloc, next(lexemes))?;
            Ok(((when, e), rest))
        }
    }
}

/// The right side of `:=`, up to its `;`.
#[tactic(auto, unfolding(cov_grammar::specs::Modules::body))]
fn body<'a>(alloc: Global, lexemes: &'a [Lexeme]) -> Result<(Expr, &'a [Lexeme]), ParseError>
    ensures { Gives (λ x. (x.0, x.1.now)) result (spec.body lexemes.now) }
{
    let right = expect(Terminal::Mark(Mark::Becomes), lexemes)?;
    let (e, after) = whole_expr(alloc, right)?;
    Ok((e, expect(Terminal::Mark(Mark::Semicolon), after)?))
}

#[tactic(auto, unfolding(cov_grammar::specs::Modules::declared))]
fn declaration<'a>(
    alloc: Global,
    lexemes: &'a [Lexeme],
) -> Result<(Section, &'a [Lexeme]), ParseError>
    ensures { Gives (λ x. (x.0, x.1.now)) result (spec.declared lexemes.now) }
{
    let (name, after) = spelled_name(lexemes)?;
    let start = expect(Terminal::Mark(Mark::Colon), after)?;
    let (kind, after) = type_tree(alloc, start)?;
    let rest = expect(Terminal::Mark(Mark::Semicolon), after)?;
    let place = place(start, after);
    Ok((Section::Decl { name, kind, place }, rest))
}

#[tactic(auto, unfolding(cov_grammar::specs::Modules::assigned))]
fn assignment<'a>(
    alloc: Global,
    lexemes: &'a [Lexeme],
) -> Result<(Section, &'a [Lexeme]), ParseError>
    ensures { Gives (λ x. (x.0, x.1.now)) result (spec.assigned lexemes.now) }
{
    let ((when, target), after) = target(alloc, lexemes)?;
    let (body, rest) = body(alloc, after)?;
    Ok((Section::Assign { when, target, body }, rest))
}

#[tactic(auto, unfolding(cov_grammar::specs::Modules::defined))]
fn definition<'a>(
    alloc: Global,
    lexemes: &'a [Lexeme],
) -> Result<(Section, &'a [Lexeme]), ParseError>
    ensures { Gives (λ x. (x.0, x.1.now)) result (spec.defined lexemes.now) }
{
    let (name, after) = spelled_name(lexemes)?;
    let (body, rest) = body(alloc, after)?;
    Ok((Section::Define { name, body }, rest))
}

/// An entry of the block.
pub fn entry<'a>(
    alloc: Global,
    block: Block,
    lexemes: &'a [Lexeme],
) -> Result<(Section, &'a [Lexeme]), ParseError>
    ensures { Gives (λ x. (x.0, x.1.now)) result (spec.entry block lexemes.now) }
{
    match block {
        Block::Vars => declaration(alloc, lexemes),
        Block::Assigns => assignment(alloc, lexemes),
        Block::Defines => definition(alloc, lexemes),
    }
}
