//! The formula that fails where an occurrence matters.

ghost use Rattle.std.specs.Prelude.{◌≡◌, not, IfOk};
ghost use Rattle.cov_logic.specs.Formula.{Atom};
ghost use Rattle.cov_logic.specs.Occurrence.{IsOccurrence};
ghost use Rattle.cov_logic.specs.Polarity.{positive};
ghost use Rattle.cov_ctl.specs.Constants.{constant_expr};
ghost use Rattle.cov_ctl.specs.Formulas.{formula_of};
ghost use Rattle.cov_claims.specs.Refuted as spec;

use cov_ctl::{Formula, constant, polarity, replace};
use cov_syntax::NoMemory;
use std::alloc::Global;

/// The constant that makes a formula hardest to pass in the place of the occurrence: FALSE where it is positive, TRUE where
/// it is negative, after Kupferman and Vardi (1999).
fn hardest_constant(f: &Formula, n: u32) -> Formula
    requires { IsOccurrence (formula_of f.now) n }
    ensures { formula_of result ≡ Atom (constant_expr (not (positive (formula_of f.now) n))) }
{
    match polarity(f, n) {
        Some(positive) => constant(!positive),
        None => constant(true),
    }
}

/// The formula with that constant in the place of the occurrence.
pub fn hardest(alloc: Global, f: &Formula, n: u32) -> Result<Formula, NoMemory>
    requires { IsOccurrence (formula_of f.now) n }
    ensures { IfOk result (λ g. formula_of g ≡ spec.hardest (formula_of f.now) n) }
{
    replace(alloc, f, n, &hardest_constant(f, n))
}
