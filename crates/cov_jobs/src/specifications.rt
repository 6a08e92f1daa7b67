ghost use Rattle.std.specs.Prelude.{◌≡◌, ◌∷◌, [], List, Bool, length, IfOk, IfErr, OnOk};
ghost use Rattle.cov_space.specs.Answers.{IsCallFault};
ghost use Rattle.cov_space.specs.Steps.{with_more, Leaves};
ghost use Rattle.cov_sym.specs.Systems.{IsBuilt, IsBuiltFor, IsBuildFault};
ghost use Rattle.cov_jobs.specs.Specifications.{IsSpecificationReport};

use crate::detail::Detail;
use crate::head::put_head;
use crate::report::Report;
use crate::sections::put_sections;
use cov_hold::prepare;
use cov_space::{Meter, SpaceFault};
use cov_sym::Sys;
use cov_syntax::Seq;
use cov_types::Checked;
use cov_words::Opts;
use std::alloc::Global;

/// The report on the specifications, with the states that start a fair lasso still there.
fn report_steps(
    alloc: Global,
    m: &Checked,
    sys: &mut Sys,
    detail: &Detail,
) -> Result<Report, SpaceFault>
    requires built { IsBuiltFor m.now sys.old }
    requires alone { length sys.old.space.sets ≡ sys.old.built }
    ensures ok { IfOk result (λ r. IsSpecificationReport detail.now m.now r.passes r.text) }
    ensures behind { OnOk result ((set : List Bool) × (sys.new.space ≡ with_more sys.old.space (set ∷ []))) }
    ensures same { sys.new ≡ record sys.old { space = sys.new.space } }
    ensures err { IfErr result (λ e. Leaves sys.old.space sys.new.space e) }
{
    prepare(m, sys)?;
    let mut text = Seq::new(alloc);
    put_head(m, sys, &mut text)?;
    let passes = put_sections(alloc, m, sys, detail, &mut text)?;
    Ok(Report { text, passes })
}

/// The report on the specifications. The sets stay as before.
fn report_on(
    alloc: Global,
    m: &Checked,
    sys: &mut Sys,
    detail: &Detail,
) -> Result<Report, SpaceFault>
    requires built { IsBuiltFor m.now sys.old }
    requires alone { length sys.old.space.sets ≡ sys.old.built }
    ensures ok { IfOk result (λ r. IsSpecificationReport detail.now m.now r.passes r.text) }
    ensures kept { OnOk result (sys.new ≡ sys.old) }
    ensures err { IfErr result (λ e. IsCallFault sys.old.space sys.new.space e) }
{
    let n = sys.sets();
    let report = report_steps(alloc, m, sys, detail);
    sys.space.cut(n);
    report
}

/// The same of sets that were made for this report. The meter is told of a refusal.
fn told_report(
    alloc: Global,
    m: &Checked,
    mut sys: Sys,
    detail: &Detail,
    opts: Opts,
    meter: &mut Meter,
) -> Result<Report, SpaceFault>
    requires built { IsBuilt m.now opts.nodes sys }
    ensures ok { IfOk result (λ r. IsSpecificationReport detail.now m.now r.passes r.text) }
    ensures untold { OnOk result (meter.new ≡ meter.old) }
    ensures err { IfErr result (IsBuildFault m.now opts.nodes meter.old meter.new) }
{
    let report = report_on(alloc, m, &mut sys, detail);
    meter.tell(&sys.space);
    report
}

/// The report on the specifications of a model.
pub(crate) fn specification_report(
    alloc: Global,
    m: &Checked,
    detail: &Detail,
    opts: Opts,
    meter: &mut Meter,
) -> Result<Report, SpaceFault>
    ensures ok { IfOk result (λ r. IsSpecificationReport detail.now m.now r.passes r.text) }
    ensures untold { OnOk result (meter.new ≡ meter.old) }
    ensures err { IfErr result (IsBuildFault m.now opts.nodes meter.old meter.new) }
{
    let sys = Sys::build(alloc, m, opts.nodes, meter)?;
    told_report(alloc, m, sys, detail, opts, meter)
}
