ghost use Rattle.std.specs.Prelude.{◌≡◌, ◌++◌, OnOk, OnErr};
ghost use Rattle.cov_show.specs.Formulas as spec;
ghost use Rattle.cov_show.specs.Formulas.{formula_printed};
ghost use Rattle.cov_show.specs.Printing.{Labels as Texts, before, grouped, left_text, placed, right_text};

use crate::labels::Labels;
use crate::{leaves, tree, words};
use cov_ctl::Formula;
use cov_model::Model;
use cov_syntax::{NoMemory, Op1, Op2, Seq, Text};
use std::alloc::Global;

/// Appends the text of a formula, with the fewest parentheses and the flat names of variables and DEFINEs.
pub fn show_formula(alloc: Global, m: &Model, f: &Formula, into: &mut Text) -> Result<(), NoMemory>
    ensures ok { OnOk result (into.new ≡ into.old ++ spec.formula_text m.now f.now) }
    ensures err { OnErr result (into.new ≡ into.old) }
{
    // The text is put together first, so that a want of memory leaves no part of it.
    let mut text = Seq::new(alloc);
    show(&Labels::of_model(m), f, 1, &mut text)?;
    into.extend_from_slice(text.as_slice())
}

/// The level of a formula.
fn level(f: &Formula) -> u32
    ensures { (labels : Texts) → result ≡ (formula_printed labels f.now).level }
{
    match f {
        Formula::Atom(e) => leaves::level(e),
        Formula::Implies(_, _) => words::infix_level(Op2::Implies),
        Formula::Or(_, _) => words::infix_level(Op2::Or),
        Formula::And(_, _) => words::infix_level(Op2::And),
        Formula::Eu(_, _) | Formula::Au(_, _) => words::infix_level(Op2::Au),
        _ => words::prefix_level(Op1::Not),
    }
}

/// A formula where a level is asked.
#[cycle(show)]
fn show(labels: &Labels<'_>, f: &Formula, asked: u32, into: &mut Text) -> Result<(), NoMemory>
    ensures { OnOk result (into.new ≡ into.old ++ placed asked (formula_printed labels.now f.now)) }
{
    show_grouped(labels, f, level(f) < asked, into)
}

#[cycle(show)]
fn show_grouped(
    labels: &Labels<'_>,
    f: &Formula,
    in_parens: bool,
    into: &mut Text,
) -> Result<(), NoMemory>
    ensures { OnOk result (into.new ≡ into.old ++ grouped in_parens (formula_printed labels.now f.now).bytes) }
{
    if in_parens {
        into.push(b'(')?;
        show_operator(labels, f, into)?;
        into.push(b')')
    } else {
        show_operator(labels, f, into)
    }
}

/// A formula without the parentheses that its place may ask.
#[cycle(show)]
fn show_operator(labels: &Labels<'_>, f: &Formula, into: &mut Text) -> Result<(), NoMemory>
    ensures { OnOk result (into.new ≡ into.old ++ (formula_printed labels.now f.now).bytes) }
{
    match f {
        Formula::Atom(e) => tree::show_node(labels, &e.node, into),
        Formula::Not(f) => show_prefix(labels, Op1::Not, f.get(), into),
        Formula::And(f, g) => {
            show_left(labels, Op2::And, f.get(), into)?;
            show_right(labels, Op2::And, g.get(), into)
        }
        Formula::Or(f, g) => {
            show_left(labels, Op2::Or, f.get(), into)?;
            show_right(labels, Op2::Or, g.get(), into)
        }
        Formula::Implies(f, g) => {
            show_left(labels, Op2::Implies, f.get(), into)?;
            show_right(labels, Op2::Implies, g.get(), into)
        }
        Formula::Ex(f) => show_prefix(labels, Op1::Ex, f.get(), into),
        Formula::Ef(f) => show_prefix(labels, Op1::Ef, f.get(), into),
        Formula::Eg(f) => show_prefix(labels, Op1::Eg, f.get(), into),
        Formula::Eu(f, g) => {
            show_left(labels, Op2::Eu, f.get(), into)?;
            show_right(labels, Op2::Eu, g.get(), into)
        }
        Formula::Ax(f) => show_prefix(labels, Op1::Ax, f.get(), into),
        Formula::Af(f) => show_prefix(labels, Op1::Af, f.get(), into),
        Formula::Ag(f) => show_prefix(labels, Op1::Ag, f.get(), into),
        Formula::Au(f, g) => {
            show_left(labels, Op2::Au, f.get(), into)?;
            show_right(labels, Op2::Au, g.get(), into)
        }
    }
}

/// An operator of the prefix operators' level, and its operand.
#[cycle(show)]
fn show_prefix(labels: &Labels<'_>, op: Op1, f: &Formula, into: &mut Text) -> Result<(), NoMemory>
    ensures { OnOk result (into.new ≡ into.old ++ (before op ++ placed 5 (formula_printed labels.now f.now))) }
{
    into.extend_from_slice(words::before(op))?;
    show(labels, f, 5, into)
}

/// The left operand, with what stands before it and behind it.
#[cycle(show)]
fn show_left(labels: &Labels<'_>, op: Op2, f: &Formula, into: &mut Text) -> Result<(), NoMemory>
    ensures { OnOk result (into.new ≡ into.old ++ left_text op (formula_printed labels.now f.now)) }
{
    into.extend_from_slice(words::before_left(op))?;
    show(labels, f, words::left_asks(op), into)?;
    into.extend_from_slice(words::between(op))
}

/// The right operand, and what stands behind it.
#[cycle(show)]
fn show_right(labels: &Labels<'_>, op: Op2, g: &Formula, into: &mut Text) -> Result<(), NoMemory>
    ensures { OnOk result (into.new ≡ into.old ++ right_text op (formula_printed labels.now g.now)) }
{
    show(labels, g, words::right_asks(op), into)?;
    into.extend_from_slice(words::behind_right(op))
}
