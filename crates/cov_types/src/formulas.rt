ghost use Rattle.std.specs.Prelude.{◌≡◌, map, IfErr, OnOk, None};
ghost use Rattle.cov_model.specs.Walk.{first};
ghost use Rattle.cov_model.specs.Written.{formula_fault};
ghost use Rattle.cov_walk.specs.Found.{TellsFault};

use cov_ctl::lowered_size;
use cov_syntax::{Expr, FaultKind, Refused};

/// The greatest number of nodes of a formula.
const MOST_NODES: u32 = 4096;

/// Refuses the first specification whose formula is too large.
pub(crate) fn check_formulas(specs: &[Expr]) -> Result<(), Refused>
    ensures none { OnOk result (first (map formula_fault specs.now) ≡ None) }
    ensures err { IfErr result (TellsFault (first (map formula_fault specs.now))) }
{
    for e in specs {
        check_formula(e)?;
    }
    Ok(())
}

fn check_formula(e: &Expr) -> Result<(), Refused>
    ensures none { OnOk result (formula_fault e.now ≡ None) }
    ensures err { IfErr result (TellsFault (formula_fault e.now)) }
{
    let size = lowered_size(e);
    if size > MOST_NODES {
        return Err(Refused::Fault(FaultKind::TooLarge.at(e.place)));
    }
    Ok(())
}
