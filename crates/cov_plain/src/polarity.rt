//! The polarity of the occurrences of a formula.

ghost use Rattle.std.specs.Prelude.{◌≡◌, ◌<◌, ◌^◌};
ghost use Rattle.cov_logic.specs.Occurrence.{size};
ghost use Rattle.cov_logic.specs.Polarity.{positive};
ghost use Rattle.cov_plain.specs.Formulas.{formula_of};

use crate::formula::Formula;

/// How many nodes the formula has.
fn node_count(formula: &Formula) -> u64
    requires { size (formula_of formula.now) < 2 ^ 64 }
    ensures { result ≡ size (formula_of formula.now) }
{
    match formula {
        Formula::Atom(_) => 1,
        Formula::Not(f)
        | Formula::Ex(f)
        | Formula::Ef(f)
        | Formula::Eg(f)
        | Formula::Ax(f)
        | Formula::Af(f)
        | Formula::Ag(f) => 1 + node_count(f.get()),
        Formula::And(f, g)
        | Formula::Or(f, g)
        | Formula::Implies(f, g)
        | Formula::Eu(f, g)
        | Formula::Au(f, g) => 1 + node_count(f.get()) + node_count(g.get()),
    }
}

/// Whether an occurrence of the formula is positive; they are numbered from 1 in preorder
/// (Kupferman and Vardi 1999).
pub fn is_positive(formula: &Formula, occurrence: u64) -> bool
    requires { size (formula_of formula.now) < 2 ^ 64 }
    ensures { result ≡ positive (formula_of formula.now) occurrence }
{
    if occurrence == 1 {
        return true;
    }
    let below = occurrence.saturating_sub(1);
    match formula {
        Formula::Atom(_) => true,
        Formula::Not(f) => !is_positive(f.get(), below),
        Formula::Ex(f)
        | Formula::Ef(f)
        | Formula::Eg(f)
        | Formula::Ax(f)
        | Formula::Af(f)
        | Formula::Ag(f) => is_positive(f.get(), below),
        Formula::Implies(f, g) => {
            let left = node_count(f.get());
            if occurrence <= 1 + left {
                !is_positive(f.get(), below)
            } else {
                is_positive(g.get(), below - left)
            }
        }
        Formula::And(f, g) | Formula::Or(f, g) | Formula::Eu(f, g) | Formula::Au(f, g) => {
            let left = node_count(f.get());
            if occurrence <= 1 + left {
                is_positive(f.get(), below)
            } else {
                is_positive(g.get(), below - left)
            }
        }
    }
}
