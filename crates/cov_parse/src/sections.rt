//! Sections of modules.

ghost use Rattle.std.specs.Prelude.{◌≡◌, [], length};
ghost use Rattle.cov_grammar.specs.Modules as spec;
ghost use Rattle.cov_grammar.specs.Steps as steps;
ghost use Rattle.cov_parse.specs.Gives.{Gives};

use crate::entries::entry;
use crate::error::ParseError;
use crate::expressions::whole_expr;
use crate::steps::{is_next, kind, next};
use crate::tables::{begins_entry, begins_section, block_of, condition_of};
use cov_syntax::{Block, CondKind, Lexeme, Mark, Section, Seq, Terminal};
use std::alloc::Global;

/// One more entry of the block, after those found before.
fn one_more<'a>(
    alloc: Global,
    block: Block,
    mut found: Seq<Section>,
    lexemes: &'a [Lexeme],
) -> Result<(Seq<Section>, &'a [Lexeme]), ParseError>
    ensures { Gives (λ x. (x.0, x.1.now)) result (spec.entry_after block found lexemes.now) }
{
    let (section, rest) = entry(alloc, block, lexemes)?;
    found.push(section)?;
    Ok((found, rest))
}

/// The entries of a block, after those found before.
#[tactic(auto, unfolding(cov_grammar::specs::Steps::many))]
fn entries<'a>(
    alloc: Global,
    block: Block,
    turns: usize,
    mut found: Seq<Section>,
    lexemes: &'a [Lexeme],
) -> Result<(Seq<Section>, &'a [Lexeme]), ParseError>
    ensures { Gives (λ x. (x.0, x.1.now)) result (steps.many (spec.begins_entry block) (spec.entry block) turns found lexemes.now) }
{
    let mut rest = lexemes;
    for _turn in 0..turns {
        if !begins_entry(block, kind(rest)) {
            return Ok((found, rest));
        }
        let (more, after) = one_more(alloc, block, found, rest)?;
        found = more;
        rest = after;
    }
    Ok((found, rest))
}

#[tactic(auto, unfolding(cov_grammar::specs::Modules::after_semicolon))]
fn after_semicolon(lexemes: &[Lexeme]) -> &[Lexeme]
    ensures { result.now ≡ spec.after_semicolon lexemes.now }
{
    if is_next(lexemes, Terminal::Mark(Mark::Semicolon)) {
        next(lexemes)
    } else {
        lexemes
    }
}

fn condition<'a>(
    alloc: Global,
    kind: CondKind,
    mut found: Seq<Section>,
    lexemes: &'a [Lexeme],
) -> Result<(Seq<Section>, &'a [Lexeme]), ParseError>
    ensures { Gives (λ x. (x.0, x.1.now)) result (spec.section_by None (Some kind) found lexemes.now) }
{
    let (body, after) = whole_expr(alloc, next(lexemes))?;
    found.push(Section::Cond { kind, body })?;
    Ok((found, after_semicolon(after)))
}

/// The entries of the section, after those found before.
#[tactic(auto, unfolding(cov_grammar::specs::Modules::section))]
fn section<'a>(
    alloc: Global,
    found: Seq<Section>,
    lexemes: &'a [Lexeme],
) -> Result<(Seq<Section>, &'a [Lexeme]), ParseError>
    ensures { Gives (λ x. (x.0, x.1.now)) result (spec.section found lexemes.now) }
{
    if let Some(block) = block_of(kind(lexemes)) {
        return entries(alloc, block, lexemes.len(), found, next(lexemes));
    }
    match condition_of(kind(lexemes)) {
        Some(kind) => condition(alloc, kind, found, lexemes),
        None => Err(ParseError::Unread(lexemes.len())),
    }
}

/// The entries of all sections.
#[tactic(auto, unfolding(cov_grammar::specs::Modules::sections))]
pub fn sections<'a>(
    alloc: Global,
    lexemes: &'a [Lexeme],
) -> Result<(Seq<Section>, &'a [Lexeme]), ParseError>
    ensures { Gives (λ x. (x.0, x.1.now)) result (spec.sections (length lexemes.now) [] lexemes.now) }
{
    let mut found = Seq::new(alloc);
    let mut rest = lexemes;
    for _turn in 0..lexemes.len() {
        if !begins_section(kind(rest)) {
            return Ok((found, rest));
        }
        let (more, after) = section(alloc, found, rest)?;
        found = more;
        rest = after;
    }
    Ok((found, rest))
}
