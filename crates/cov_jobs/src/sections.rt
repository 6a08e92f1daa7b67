ghost use Rattle.std.specs.Prelude.{◌≡◌, ◌+◌, ◌<◌, ◌≤◌, Some, length, slice_get, IfOk, IfErr, OnOk};
ghost use Rattle.cov_syntax.specs.declared.tree.Expr.{Expr};
ghost use Rattle.cov_ctl.specs.Lowered.{lowered};
ghost use Rattle.cov_ctl.specs.Sizes.{size};
ghost use Rattle.cov_formulas.specs.Formulas.{IsFormulaOf};
ghost use Rattle.cov_hold.specs.Prepared.{IsPrepared};
ghost use Rattle.cov_space.specs.Answers.{IsCallFault};
ghost use Rattle.cov_types.specs.Roots.{greatest_size};
ghost use Rattle.cov_jobs.specs.Specifications.{AreSections, IsSection};
ghost use Rattle.cov_coverage.specs.Puts.{Puts};

use crate::detail::Detail;
use crate::details::put_details;
use cov_check::verdict;
use cov_ctl::{Formula, lower};
use cov_formulas::{specifications_are_formulas, specifications_are_small};
use cov_report::spec_line;
use cov_space::SpaceFault;
use cov_sym::Sys;
use cov_syntax::{NoMemory, Text};
use cov_types::Checked;
use std::alloc::Global;

/// The formula of a specification, by its place from 0.
fn specification(alloc: Global, m: &Checked, place: usize) -> Result<Formula, NoMemory>
    requires { place < length m.now.specs }
    ensures is { IfOk result (λ f. (spec : Expr) × (slice_get m.now.specs place ≡ Some spec) × (f ≡ lowered spec)) }
    ensures formula { IfOk result (λ f. IsFormulaOf m.now f) }
    ensures small { IfOk result (λ f. size f ≤ greatest_size m.now.specs) }
    ensures few { IfOk result (λ f. size f ≤ 4096) }
{
    specifications_are_formulas();
    specifications_are_small();
    lower(alloc, m.model().specs.get(place))
}

/// The number of a specification, from 1.
fn number_of(m: &Checked, place: usize) -> u32
    requires { place < length m.now.specs }
    ensures { result ≡ place + 1 }
{
    let _model = m.model();
    let before = place as u32;
    before + 1
}

/// Puts the section of the specification at a place, whose formula is this, and gives whether it passes.
fn put_formula(
    alloc: Global,
    m: &Checked,
    sys: &mut Sys,
    detail: &Detail,
    place: usize,
    f: &Formula,
    into: &mut Text,
) -> Result<bool, SpaceFault>
    requires prepared { IsPrepared m.now sys.old }
    requires alone { length sys.old.space.sets ≡ sys.old.built + 1 }
    requires there { place < length m.now.specs }
    requires formula { IsFormulaOf m.now f.now }
    requires small { size f.now ≤ greatest_size m.now.specs }
    requires few { size f.now ≤ 4096 }
    ensures ok { (spec : Expr) → slice_get m.now.specs place ≡ Some spec → f.now ≡ lowered spec → IfOk result (λ passes. Puts into.old into.new (IsSection detail.now m.now place passes)) }
    ensures kept { OnOk result (sys.new ≡ sys.old) }
    ensures same { sys.new ≡ record sys.old { space = sys.new.space } }
    ensures err { IfErr result (λ e. IsCallFault sys.old.space sys.new.space e) }
{
    let passes = verdict(alloc, m, sys, f)?;
    let number = number_of(m, place);
    if spec_line(alloc, m.model(), number, passes, f, into).is_err() {
        return Err(SpaceFault::Memory);
    }
    put_details(alloc, m, sys, detail, f, passes, into)?;
    Ok(passes)
}

/// Puts the section of a specification, and gives whether it passes.
fn put_section(
    alloc: Global,
    m: &Checked,
    sys: &mut Sys,
    detail: &Detail,
    place: usize,
    into: &mut Text,
) -> Result<bool, SpaceFault>
    requires prepared { IsPrepared m.now sys.old }
    requires alone { length sys.old.space.sets ≡ sys.old.built + 1 }
    requires there { place < length m.now.specs }
    ensures ok { IfOk result (λ passes. Puts into.old into.new (IsSection detail.now m.now place passes)) }
    ensures kept { OnOk result (sys.new ≡ sys.old) }
    ensures same { sys.new ≡ record sys.old { space = sys.new.space } }
    ensures err { IfErr result (λ e. IsCallFault sys.old.space sys.new.space e) }
{
    match specification(alloc, m, place) {
        Ok(f) => put_formula(alloc, m, sys, detail, place, &f, into),
        Err(_) => Err(SpaceFault::Memory),
    }
}

/// Puts the section of each specification, and gives whether all pass.
pub(crate) fn put_sections(
    alloc: Global,
    m: &Checked,
    sys: &mut Sys,
    detail: &Detail,
    into: &mut Text,
) -> Result<bool, SpaceFault>
    requires prepared { IsPrepared m.now sys.old }
    requires alone { length sys.old.space.sets ≡ sys.old.built + 1 }
    ensures ok { IfOk result (λ passes. Puts into.old into.new (AreSections detail.now m.now (length m.now.specs) passes)) }
    ensures kept { OnOk result (sys.new ≡ sys.old) }
    ensures same { sys.new ≡ record sys.old { space = sys.new.space } }
    ensures err { IfErr result (λ e. IsCallFault sys.old.space sys.new.space e) }
{
    let mut passes = true;
    for place in 0..m.model().specs.len() {
        let own = put_section(alloc, m, sys, detail, place, into)?;
        passes = passes && own;
    }
    Ok(passes)
}
