ghost use Rattle.std.specs.Prelude.{◌≡◌, ◌≤◌, ◌+◌, None, length, OnOk, IfErr};
ghost use Rattle.cov_coverage.specs.Puts.{Puts};
ghost use Rattle.cov_coverage.specs.Sections.{AreSignalSections};
ghost use Rattle.cov_ctl.specs.Sizes.{size};
ghost use Rattle.cov_ctl.specs.Formulas.{formula_of};
ghost use Rattle.cov_formulas.specs.Formulas.{IsFormulaOf};
ghost use Rattle.cov_hold.specs.Prepared.{IsPrepared};
ghost use Rattle.cov_logic.specs.Verdict.{Passes};
ghost use Rattle.cov_model.specs.Paths.{labelling, structure};
ghost use Rattle.cov_space.specs.Answers.{IsCallFault};
ghost use Rattle.cov_types.specs.Roots.{greatest_size};

use crate::names::NamedSignal;
use crate::section::put_section;
use cov_ctl::Formula;
use cov_space::SpaceFault;
use cov_sym::Sys;
use cov_syntax::{Seq, Text};
use cov_types::Checked;
use std::alloc::Global;

/// Appends the sections of signals, in their order, for a formula that passes. `limit` is the greatest number of cubes
/// under each title. After a refusal the text may end in any part of them.
pub fn put_signals(
    alloc: Global,
    m: &Checked,
    sys: &mut Sys,
    f: &Formula,
    signals: &Seq<NamedSignal>,
    limit: u32,
    into: &mut Text,
) -> Result<(), SpaceFault>
    requires prepared { IsPrepared m.now sys.old }
    requires alone { length sys.old.space.sets ≡ sys.old.built + 1 }
    requires formula { IsFormulaOf m.now f.now }
    requires small { size f.now ≤ greatest_size m.now.specs }
    requires passes { Passes (structure m.now) (labelling m.now None) (formula_of f.now) }
    ensures ok { OnOk result (Puts into.old into.new (AreSignalSections limit m.now (formula_of f.now) signals.now)) }
    ensures kept { OnOk result (sys.new ≡ sys.old) }
    ensures same { sys.new ≡ record sys.old { space = sys.new.space } }
    ensures err { IfErr result (λ e. IsCallFault sys.old.space sys.new.space e) }
{
    for named in signals.as_slice() {
        put_section(alloc, m, sys, f, named, limit, into)?;
    }
    Ok(())
}
