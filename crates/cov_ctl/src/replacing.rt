//! Another formula in the place of an occurrence.

ghost use Rattle.std.specs.Prelude.{◌≡◌, IfOk};
ghost use Rattle.cov_logic.specs.Occurrence.{IsOccurrence};
ghost use Rattle.cov_logic.specs.Replacement as logic;
ghost use Rattle.cov_ctl.specs.Formulas.{formula_of};
ghost use Rattle.cov_ctl.specs.Replacing as spec;

use crate::formula::Formula;
use crate::nodes::{copy, over, over_both};
use cov_syntax::NoMemory;
use std::alloc::Global;

/// A formula in which an occurrence is replaced, and how many numbers are left past the last node of the old one.
#[derive(Drop)]
struct Replaced {
    formula: Formula,
    left: u32,
}

/// The formula with a copy of `g` in the place of occurrence `n` (Kupferman and Vardi 1999).
pub fn replace(alloc: Global, f: &Formula, n: u32, g: &Formula) -> Result<Formula, NoMemory>
    requires occurrence { IsOccurrence (formula_of f.now) n }
    ensures { IfOk result (λ r. formula_of r ≡ logic.replace (formula_of f.now) n (formula_of g.now)) }
{
    Ok(walk(alloc, f, n, g)?.formula)
}

/// A copy of the formula, with a copy of `g` in the place of occurrence `n` where `n` is one.
fn walk(alloc: Global, f: &Formula, n: u32, g: &Formula) -> Result<Replaced, NoMemory>
    ensures { IfOk result (λ r. spec.IsReplaced (formula_of f.now) n (formula_of g.now) r) }
{
    if n == 1 {
        let formula = copy(alloc, g)?;
        return Ok(Replaced { formula, left: 0 });
    }
    let left = n.saturating_sub(1);
    match f {
        Formula::Atom(_) => {
            let formula = copy(alloc, f)?;
            Ok(Replaced { formula, left })
        }
        Formula::Not(a)
        | Formula::Ex(a)
        | Formula::Ef(a)
        | Formula::Eg(a)
        | Formula::Ax(a)
        | Formula::Af(a)
        | Formula::Ag(a) => {
            let a = walk(alloc, a.get(), left, g)?;
            let formula = over(alloc, f, a.formula)?;
            Ok(Replaced {
                formula,
                left: a.left,
            })
        }
        Formula::And(a, b)
        | Formula::Or(a, b)
        | Formula::Implies(a, b)
        | Formula::Eu(a, b)
        | Formula::Au(a, b) => {
            let a = walk(alloc, a.get(), left, g)?;
            let b = walk(alloc, b.get(), a.left, g)?;
            let formula = over_both(alloc, f, a.formula, b.formula)?;
            Ok(Replaced {
                formula,
                left: b.left,
            })
        }
    }
}
