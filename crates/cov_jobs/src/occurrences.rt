ghost use Rattle.std.specs.Prelude.{◌≡◌, ◌≤◌, ◌+◌, length, OnOk, IfErr};
ghost use Rattle.cov_logic.specs.Occurrence.{IsOccurrence};
ghost use Rattle.cov_ctl.specs.Formulas.{formula_of};
ghost use Rattle.cov_ctl.specs.Sizes as sizes;
ghost use Rattle.cov_claims.specs.Truths.{IsPassing};
ghost use Rattle.cov_formulas.specs.Formulas.{IsFormulaOf};
ghost use Rattle.cov_hold.specs.Prepared.{IsPrepared};
ghost use Rattle.cov_space.specs.Answers.{IsCallFault};
ghost use Rattle.cov_types.specs.Roots.{greatest_size};
ghost use Rattle.cov_jobs.specs.Occurrences.{AreOccurrenceLines, IsOccurrenceLine};
ghost use Rattle.cov_coverage.specs.Puts.{Puts};

use cov_ctl::{Formula, occurrence, size};
use cov_report::occurrence_line;
use cov_space::SpaceFault;
use cov_sym::Sys;
use cov_syntax::Text;
use cov_types::Checked;
use cov_vac::vacuous;
use std::alloc::Global;

/// Puts the line of an occurrence, by its number from 1.
fn put_occurrence(
    alloc: Global,
    m: &Checked,
    sys: &mut Sys,
    f: &Formula,
    number: u32,
    into: &mut Text,
) -> Result<(), SpaceFault>
    requires prepared { IsPrepared m.now sys.old }
    requires alone { length sys.old.space.sets ≡ sys.old.built + 1 }
    requires formula { IsFormulaOf m.now f.now }
    requires small { sizes.size f.now ≤ greatest_size m.now.specs }
    requires passes { IsPassing m.now f.now }
    requires occurrence { IsOccurrence (formula_of f.now) number }
    ensures ok { OnOk result (Puts into.old into.new (IsOccurrenceLine m.now f.now number)) }
    ensures kept { OnOk result (sys.new ≡ sys.old) }
    ensures same { sys.new ≡ record sys.old { space = sys.new.space } }
    ensures err { IfErr result (λ e. IsCallFault sys.old.space sys.new.space e) }
{
    let vacuous = vacuous(alloc, m, sys, f, number)?;
    let Some(part) = occurrence(f, number) else {
        return Ok(());
    };
    if occurrence_line(alloc, m.model(), number, vacuous, part, into).is_err() {
        return Err(SpaceFault::Memory);
    }
    Ok(())
}

/// Puts the lines of the occurrences of a formula that passes.
pub(crate) fn put_occurrences(
    alloc: Global,
    m: &Checked,
    sys: &mut Sys,
    f: &Formula,
    into: &mut Text,
) -> Result<(), SpaceFault>
    requires prepared { IsPrepared m.now sys.old }
    requires alone { length sys.old.space.sets ≡ sys.old.built + 1 }
    requires formula { IsFormulaOf m.now f.now }
    requires small { sizes.size f.now ≤ greatest_size m.now.specs }
    requires few { sizes.size f.now ≤ 4096 }
    requires passes { IsPassing m.now f.now }
    ensures ok { OnOk result (Puts into.old into.new (AreOccurrenceLines m.now f.now (sizes.size f.now))) }
    ensures kept { OnOk result (sys.new ≡ sys.old) }
    ensures same { sys.new ≡ record sys.old { space = sys.new.space } }
    ensures err { IfErr result (λ e. IsCallFault sys.old.space sys.new.space e) }
{
    for k in 0..size(f) {
        put_occurrence(alloc, m, sys, f, k + 1, into)?;
    }
    Ok(())
}
