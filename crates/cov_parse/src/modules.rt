//! Modules, up to the end of the text.

ghost use Rattle.std.specs.Prelude.{◌≡◌, [], length};
ghost use Rattle.cov_grammar.specs.Modules as spec;
ghost use Rattle.cov_grammar.specs.Steps as steps;
ghost use Rattle.cov_parse.specs.Gives.{Gives};

use crate::error::ParseError;
use crate::sections::sections;
use crate::steps::{expect, is_next, next, spelled_name};
use cov_syntax::{Lexeme, Mark, ModuleTree, Seq, Spelled, Terminal, Word};
use std::alloc::Global;

#[tactic(auto, unfolding(cov_grammar::specs::Modules::formals, cov_grammar::specs::Steps::separated))]
fn names<'a>(
    alloc: Global,
    lexemes: &'a [Lexeme],
) -> Result<(Seq<Spelled>, &'a [Lexeme]), ParseError>
    ensures { Gives (λ x. (x.0, x.1.now)) result (spec.formals lexemes.now) }
{
    let mut found = Seq::new(alloc);
    let mut rest = lexemes;
    for _turn in 0..lexemes.len() {
        let (name, after) = spelled_name(rest)?;
        found.push(name)?;
        if !is_next(after, Terminal::Mark(Mark::Comma)) {
            return Ok((found, after));
        }
        rest = next(after);
    }
    Err(ParseError::Unread(rest.len()))
}

#[tactic(auto, unfolding(cov_grammar::specs::Steps::in_parens))]
fn formals<'a>(
    alloc: Global,
    lexemes: &'a [Lexeme],
) -> Result<(Seq<Spelled>, &'a [Lexeme]), ParseError>
    ensures { Gives (λ x. (x.0, x.1.now)) result (steps.in_parens spec.formals lexemes.now) }
{
    if !is_next(lexemes, Terminal::Mark(Mark::OpenParen)) {
        return Ok((Seq::new(alloc), lexemes));
    }
    let inner = next(lexemes);
    if is_next(inner, Terminal::Mark(Mark::CloseParen)) {
        return Ok((Seq::new(alloc), next(inner)));
    }
    let (found, after) = names(alloc, inner)?;
    Ok((found, expect(Terminal::Mark(Mark::CloseParen), after)?))
}

#[tactic(auto, unfolding(cov_grammar::specs::Modules::module_tree))]
fn module_tree<'a>(
    alloc: Global,
    lexemes: &'a [Lexeme],
) -> Result<(ModuleTree, &'a [Lexeme]), ParseError>
    ensures { Gives (λ x. (x.0, x.1.now)) result (spec.module_tree lexemes.now) }
{
    let after = expect(Terminal::Word(Word::Module), lexemes)?;
    let (name, after) = spelled_name(after)?;
    let (formals, after) = formals(alloc, after)?;
    let (sections, rest) = sections(alloc, after)?;
    let tree = ModuleTree {
        name,
        formals,
        sections,
    };
    Ok((tree, rest))
}

#[tactic(auto, unfolding(cov_grammar::specs::Modules::modules))]
fn modules<'a>(
    alloc: Global,
    lexemes: &'a [Lexeme],
) -> Result<(Seq<ModuleTree>, &'a [Lexeme]), ParseError>
    ensures { Gives (λ x. (x.0, x.1.now)) result (spec.modules (length lexemes.now) [] lexemes.now) }
{
    let mut found = Seq::new(alloc);
    let mut rest = lexemes;
    for _turn in 0..lexemes.len() {
        let (tree, after) = module_tree(alloc, rest)?;
        found.push(tree)?;
        if !is_next(after, Terminal::Word(Word::Module)) {
            return Ok((found, after));
        }
        rest = after;
    }
    Err(ParseError::Unread(rest.len()))
}

/// Modules that are all that there is.
#[tactic(auto, unfolding(cov_grammar::specs::Modules::program))]
pub fn program(alloc: Global, lexemes: &[Lexeme]) -> Result<Seq<ModuleTree>, ParseError>
    ensures { Gives (λ x. x) result (spec.program lexemes.now) }
{
    let (found, rest) = modules(alloc, lexemes)?;
    if !rest.is_empty() {
        return Err(ParseError::Unread(rest.len()));
    }
    Ok(found)
}
