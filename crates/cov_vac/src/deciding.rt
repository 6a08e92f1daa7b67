ghost use Rattle.std.specs.Prelude.{◌≡◌, ◌≤◌, ◌+◌, ◌↔◌, not, length, IsTrue, IfOk, IfErr, OnOk};
ghost use Rattle.cov_logic.specs.Formula.{Atom};
ghost use Rattle.cov_logic.specs.Occurrence.{IsOccurrence};
ghost use Rattle.cov_logic.specs.Polarity.{positive};
ghost use Rattle.cov_logic.specs.Replacement as logic;
ghost use Rattle.cov_ctl.specs.Constants.{constant_expr};
ghost use Rattle.cov_ctl.specs.Formulas.{formula_of};
ghost use Rattle.cov_ctl.specs.Sizes.{size};
ghost use Rattle.cov_space.specs.Answers.{IsCallFault};
ghost use Rattle.cov_types.specs.Roots.{greatest_size};
ghost use Rattle.cov_formulas.specs.Formulas.{IsFormulaOf};
ghost use Rattle.cov_hold.specs.Prepared.{IsPrepared};
ghost use Rattle.cov_claims.specs.Truths.{IsPassing};
ghost use Rattle.cov_claims.specs.Vacuous.{IsVacuousIn};

use cov_check::verdict;
use cov_claims::hardest;
use cov_ctl::Formula;
use cov_space::SpaceFault;
use cov_sym::Sys;
use cov_types::Checked;
use std::alloc::Global;

/// Whether the formula passes with every formula over the model in the place of the occurrence. The sets stay as before.
pub fn vacuous(
    alloc: Global,
    m: &Checked,
    sys: &mut Sys,
    f: &Formula,
    n: u32,
) -> Result<bool, SpaceFault>
    requires prepared { IsPrepared m.now sys.old }
    requires alone { length sys.old.space.sets ≡ sys.old.built + 1 }
    requires formula { IsFormulaOf m.now f.now }
    requires small { size f.now ≤ greatest_size m.now.specs }
    requires passes { IsPassing m.now f.now }
    requires occurrence { IsOccurrence (formula_of f.now) n }
    ensures ok { IfOk result (λ answer. IsTrue answer ↔ IsVacuousIn m.now f.now n) }
    ensures kept { OnOk result (sys.new ≡ sys.old) }
    ensures same { sys.new ≡ record sys.old { space = sys.new.space } }
    ensures err { IfErr result (λ e. IsCallFault sys.old.space sys.new.space e) }
{
    let Ok(changed) = hardest(alloc, f, n) else {
        return Err(SpaceFault::Memory);
    };
    verdict(alloc, m, sys, &changed)
}
