ghost use Rattle.std.specs.Prelude.{◌≡◌, false, IfOk};
ghost use Rattle.cov_ctl.specs.Lowered as spec;
ghost use Rattle.cov_ctl.specs.declared.formula.Formula.TheVariants as f;

use crate::formula::Formula;
use crate::nodes::{and, every_until, implies, not, or, some_until};
use crate::temporal::is_temporal;
use cov_syntax::{Expr, NoMemory, Node, Op1, Op2};
use sqlite_items::Boxed;
use std::alloc::Global;

/// The formula that an expression is. A `<->` or `xor` over a CTL operator is written out; one without stays in its atom.
pub fn lower(alloc: Global, e: &Expr) -> Result<Formula, NoMemory>
    ensures { IfOk result (λ r. r ≡ spec.lowered e.now) }
{
    match &e.node {
        Node::One(op, a) => match op {
            Op1::Neg => atom(alloc, e),
            Op1::Next => atom(alloc, e),
            _ => {
                let a = lower(alloc, a.get())?;
                prefixed(alloc, e, *op, a)
            }
        },
        Node::Two(op, a, b) => match op {
            Op2::And | Op2::Or | Op2::Implies | Op2::Au | Op2::Eu => {
                let first = lower(alloc, a.get())?;
                let second = lower(alloc, b.get())?;
                joined(alloc, e, *op, first, second)
            }
            Op2::Iff | Op2::Xor => {
                if !is_temporal(a.get()) && !is_temporal(b.get()) {
                    return atom(alloc, e);
                }
                let first = lower(alloc, a.get())?;
                let second = lower(alloc, b.get())?;
                let first_again = lower(alloc, a.get())?;
                let second_again = lower(alloc, b.get())?;
                written_out(alloc, *op, first, second, first_again, second_again)
            }
            _ => atom(alloc, e),
        },
        _ => atom(alloc, e),
    }
}

fn atom(alloc: Global, e: &Expr) -> Result<Formula, NoMemory>
    ensures { IfOk result (λ r. r ≡ f.Atom e.now) }
{
    Ok(Formula::Atom(e.copy(alloc)?))
}

/// The operator on the formula of its operand.
fn prefixed(alloc: Global, e: &Expr, op: Op1, a: Formula) -> Result<Formula, NoMemory>
    ensures { IfOk result (λ r. r ≡ spec.lowered_one e.now op a) }
{
    match op {
        Op1::Not => Ok(Formula::Not(Boxed::new(alloc, a)?)),
        Op1::Ex => Ok(Formula::Ex(Boxed::new(alloc, a)?)),
        Op1::Ef => Ok(Formula::Ef(Boxed::new(alloc, a)?)),
        Op1::Eg => Ok(Formula::Eg(Boxed::new(alloc, a)?)),
        Op1::Ax => Ok(Formula::Ax(Boxed::new(alloc, a)?)),
        Op1::Af => Ok(Formula::Af(Boxed::new(alloc, a)?)),
        Op1::Ag => Ok(Formula::Ag(Boxed::new(alloc, a)?)),
        Op1::Neg | Op1::Next => atom(alloc, e),
    }
}

/// The operator on the formulas of its operands.
fn joined(alloc: Global, e: &Expr, op: Op2, a: Formula, b: Formula) -> Result<Formula, NoMemory>
    ensures { IfOk result (λ r. r ≡ spec.lowered_two e.now op false a b) }
{
    match op {
        Op2::And => and(alloc, a, b),
        Op2::Or => or(alloc, a, b),
        Op2::Implies => implies(alloc, a, b),
        Op2::Au => every_until(alloc, a, b),
        Op2::Eu => some_until(alloc, a, b),
        _ => atom(alloc, e),
    }
}

/// `xor` as `a & !b | !a & b`, any other operator as `a & b | !a & !b`. Each side is given twice.
fn written_out(
    alloc: Global,
    op: Op2,
    a: Formula,
    b: Formula,
    a_again: Formula,
    b_again: Formula,
) -> Result<Formula, NoMemory>
    requires first { a_again ≡ a }
    requires second { b_again ≡ b }
    ensures { IfOk result (λ r. r ≡ spec.written_out op a b) }
{
    match op {
        Op2::Xor => one_alone(alloc, a, b, a_again, b_again),
        _ => both_or_neither(alloc, a, b, a_again, b_again),
    }
}

/// `a & !b | !c & d`.
fn one_alone(
    alloc: Global,
    a: Formula,
    b: Formula,
    c: Formula,
    d: Formula,
) -> Result<Formula, NoMemory>
    ensures { IfOk result (λ r. r ≡ f.Or (f.And a (f.Not b)) (f.And (f.Not c) d)) }
{
    let first = and_not(alloc, a, b)?;
    let not_c = not(alloc, c)?;
    let second = and(alloc, not_c, d)?;
    or(alloc, first, second)
}

/// `a & b | !c & !d`.
fn both_or_neither(
    alloc: Global,
    a: Formula,
    b: Formula,
    c: Formula,
    d: Formula,
) -> Result<Formula, NoMemory>
    ensures { IfOk result (λ r. r ≡ f.Or (f.And a b) (f.And (f.Not c) (f.Not d))) }
{
    let both = and(alloc, a, b)?;
    let not_c = not(alloc, c)?;
    let neither = and_not(alloc, not_c, d)?;
    or(alloc, both, neither)
}

/// `a & !b`.
fn and_not(alloc: Global, a: Formula, b: Formula) -> Result<Formula, NoMemory>
    ensures { IfOk result (λ r. r ≡ f.And a (f.Not b)) }
{
    let not_b = not(alloc, b)?;
    and(alloc, a, not_b)
}
