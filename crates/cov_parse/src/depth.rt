//! How deep expressions nest, by their lexemes alone.

ghost use Rattle.std.specs.Prelude.{◌≡◌, ◌≤◌, ◌<◌, ◌+◌, ◌^◌, [], ◌∷◌, false, length, sum, IfOk, OnOk};
ghost use Rattle.cov_syntax.specs.Limits as spec;

use cov_syntax::{Lexeme, Mark, Role, Terminal, Word};
use std::alloc::{AllocError, Global};

fn role_of(kind: Terminal) -> Role
    ensures { result ≡ spec.role_of kind }
{
    match kind {
        Terminal::Mark(mark) => role_of_mark(mark),
        Terminal::Word(word) => role_of_word(word),
        _ => Role::Other,
    }
}

fn role_of_mark(mark: Mark) -> Role
    ensures { result ≡ spec.role_of (Terminal.Mark mark) }
{
    match mark {
        Mark::Implies | Mark::Iff | Mark::Or | Mark::And | Mark::Not => Role::Operator,
        Mark::Equal | Mark::NotEqual => Role::Operator,
        Mark::Less | Mark::LessEqual | Mark::Greater | Mark::GreaterEqual => Role::Operator,
        Mark::Plus | Mark::Minus | Mark::Star | Mark::Slash => Role::Operator,
        Mark::OpenParen => Role::OpensParen,
        Mark::OpenBrace | Mark::OpenBracket => Role::Opens,
        Mark::CloseParen | Mark::CloseBrace | Mark::CloseBracket => Role::Closes,
        Mark::Comma | Mark::Semicolon | Mark::Colon => Role::Separates,
        Mark::Becomes => Role::Begins,
        Mark::Dot | Mark::Dots => Role::Other,
    }
}

fn role_of_word(word: Word) -> Role
    ensures { result ≡ spec.role_of (Terminal.Word word) }
{
    match word {
        Word::Ex | Word::Ef | Word::Eg | Word::Ax | Word::Af | Word::Ag => Role::Operator,
        Word::Xor | Word::In | Word::Union | Word::Mod => Role::Operator,
        Word::Case => Role::Opens,
        Word::Esac => Role::Closes,
        Word::U => Role::Separates,
        Word::Var => Role::Declares,
        Word::Module | Word::Assign | Word::Define | Word::Trans | Word::Init => Role::Begins,
        Word::Invar | Word::Fairness | Word::Justice | Word::Spec | Word::CtlSpec => Role::Begins,
        _ => Role::Other,
    }
}

fn separate(counts: &mut Vec<u32>)
    ensures { counts.new.items ≡ spec.further counts.old.items }
{
    if !counts.is_empty() {
        let last = counts.len() - 1;
        counts[last] = 0;
    }
}

fn begin(counts: &mut Vec<u32>) -> Result<(), AllocError>
    ensures { OnOk result (counts.new.items ≡ 0 ∷ []) }
{
    counts.clear();
    counts.push(0)?;
    Ok(())
}

/// Counts a lexeme of the role, where a `(` begins the arguments of an instance or not.
fn count(role: Role, declares: bool, counts: &mut Vec<u32>) -> Result<(), AllocError>
    requires { sum counts.old.items ≤ 1000 }
    ensures { OnOk result (counts.new.items ≡ spec.counts_after role declares counts.old.items) }
{
    match role {
        Role::Operator => {
            if !counts.is_empty() {
                let last = counts.len() - 1;
                counts[last] += 1;
            }
        }
        Role::OpensParen => {
            if declares {
                separate(counts);
            } else {
                counts.push(0)?;
            }
        }
        Role::Opens => counts.push(0)?,
        Role::Closes => counts.truncate(counts.len().saturating_sub(1).max(1)),
        Role::Separates => separate(counts),
        Role::Declares | Role::Begins => begin(counts)?,
        Role::Other => {}
    }
    Ok(())
}

/// Whether a `(` after a lexeme of the role begins the arguments of an instance.
fn declares_after(role: Role, declares: bool, counts: &[u32]) -> bool
    ensures { result ≡ spec.declares_after role declares counts.now }
{
    match role {
        Role::Declares => true,
        Role::Begins | Role::OpensParen => false,
        Role::Closes => declares || counts.len() == 1,
        _ => declares,
    }
}

fn is_over(counts: &[u32]) -> bool
    requires { sum counts.now < 2 ^ 32 }
    ensures { result ≡ spec.is_over counts.now }
{
    counts.len() > 129 || counts.iter().sum::<u32>() > 1000
}

/// The number of lexemes left at the first one that is too deep, itself among them.
#[tactic(auto, using(crate::proofs::DepthLemmas::count_sum, crate::proofs::DepthLemmas::deep_end))]
pub fn first_deep(alloc: Global, lexemes: &[Lexeme]) -> Result<Option<usize>, AllocError>
    ensures { IfOk result (λ found. found ≡ spec.deep false (0 ∷ []) lexemes.now) }
{
    let mut declares = false;
    let mut counts = Vec::new(alloc);
    counts.push(0)?;
    for (at, lexeme) in lexemes.iter().enumerate() {
        let role = role_of(lexeme.kind);
        let after = declares_after(role, declares, counts.as_slice());
        count(role, declares, &mut counts)?;
        declares = after;
        if is_over(counts.as_slice()) {
            return Ok(Some(lexemes.len() - at));
        }
    }
    Ok(None)
}
