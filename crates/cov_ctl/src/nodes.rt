//! Formulas made of formulas: each node of its operands, and a formula made again.

ghost use Rattle.std.specs.Prelude.{◌≡◌, IfOk};
ghost use Rattle.cov_ctl.specs.declared.formula.Formula.TheVariants as node;
ghost use Rattle.cov_ctl.specs.Formulas.{formula_of};
ghost use Rattle.cov_ctl.specs.Replacing as spec;

use crate::formula::Formula;
use cov_syntax::NoMemory;
use sqlite_items::Boxed;
use std::alloc::Global;

/// An equal formula.
pub(crate) fn copy(alloc: Global, f: &Formula) -> Result<Formula, NoMemory>
    ensures { IfOk result (λ r. formula_of r ≡ formula_of f.now) }
{
    match f {
        Formula::Atom(e) => Ok(Formula::Atom(e.copy(alloc)?)),
        Formula::Not(a)
        | Formula::Ex(a)
        | Formula::Ef(a)
        | Formula::Eg(a)
        | Formula::Ax(a)
        | Formula::Af(a)
        | Formula::Ag(a) => {
            let a = copy(alloc, a.get())?;
            over(alloc, f, a)
        }
        Formula::And(a, b)
        | Formula::Or(a, b)
        | Formula::Implies(a, b)
        | Formula::Eu(a, b)
        | Formula::Au(a, b) => {
            let a = copy(alloc, a.get())?;
            let b = copy(alloc, b.get())?;
            over_both(alloc, f, a, b)
        }
    }
}

/// The operator of `like` over `a`.
pub(crate) fn over(alloc: Global, like: &Formula, a: Formula) -> Result<Formula, NoMemory>
    ensures { IfOk result (λ r. formula_of r ≡ spec.over (formula_of like.now) (formula_of a)) }
{
    match like {
        Formula::Not(_) => not(alloc, a),
        Formula::Ex(_) => Ok(Formula::Ex(Boxed::new(alloc, a)?)),
        Formula::Ef(_) => Ok(Formula::Ef(Boxed::new(alloc, a)?)),
        Formula::Eg(_) => Ok(Formula::Eg(Boxed::new(alloc, a)?)),
        Formula::Ax(_) => Ok(Formula::Ax(Boxed::new(alloc, a)?)),
        Formula::Af(_) => Ok(Formula::Af(Boxed::new(alloc, a)?)),
        Formula::Ag(_) => Ok(Formula::Ag(Boxed::new(alloc, a)?)),
        _ => Ok(a),
    }
}

/// The operator of `like` over `a` and `b`.
pub(crate) fn over_both(
    alloc: Global,
    like: &Formula,
    a: Formula,
    b: Formula,
) -> Result<Formula, NoMemory>
    ensures { IfOk result (λ r. formula_of r ≡ spec.over_both (formula_of like.now) (formula_of a) (formula_of b)) }
{
    match like {
        Formula::And(_, _) => and(alloc, a, b),
        Formula::Or(_, _) => or(alloc, a, b),
        Formula::Implies(_, _) => implies(alloc, a, b),
        Formula::Eu(_, _) => some_until(alloc, a, b),
        Formula::Au(_, _) => every_until(alloc, a, b),
        _ => Ok(a),
    }
}

/// `!a`.
pub(crate) fn not(alloc: Global, a: Formula) -> Result<Formula, NoMemory>
    ensures { IfOk result (λ r. r ≡ node.Not a) }
{
    Ok(Formula::Not(Boxed::new(alloc, a)?))
}

/// `a & b`.
pub(crate) fn and(alloc: Global, a: Formula, b: Formula) -> Result<Formula, NoMemory>
    ensures { IfOk result (λ r. r ≡ node.And a b) }
{
    let a = Boxed::new(alloc, a)?;
    Ok(Formula::And(a, Boxed::new(alloc, b)?))
}

/// `a | b`.
pub(crate) fn or(alloc: Global, a: Formula, b: Formula) -> Result<Formula, NoMemory>
    ensures { IfOk result (λ r. r ≡ node.Or a b) }
{
    let a = Boxed::new(alloc, a)?;
    Ok(Formula::Or(a, Boxed::new(alloc, b)?))
}

/// `a -> b`.
pub(crate) fn implies(alloc: Global, a: Formula, b: Formula) -> Result<Formula, NoMemory>
    ensures { IfOk result (λ r. r ≡ node.Implies a b) }
{
    let a = Boxed::new(alloc, a)?;
    Ok(Formula::Implies(a, Boxed::new(alloc, b)?))
}

/// `E [a U b]`.
pub(crate) fn some_until(alloc: Global, a: Formula, b: Formula) -> Result<Formula, NoMemory>
    ensures { IfOk result (λ r. r ≡ node.Eu a b) }
{
    let a = Boxed::new(alloc, a)?;
    Ok(Formula::Eu(a, Boxed::new(alloc, b)?))
}

/// `A [a U b]`.
pub(crate) fn every_until(alloc: Global, a: Formula, b: Formula) -> Result<Formula, NoMemory>
    ensures { IfOk result (λ r. r ≡ node.Au a b) }
{
    let a = Boxed::new(alloc, a)?;
    Ok(Formula::Au(a, Boxed::new(alloc, b)?))
}
