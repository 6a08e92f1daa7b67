ghost use Rattle.std.specs.Prelude.{◌≡◌, List, IfOk, IfErr, OnOk};
ghost use Rattle.cov_coverage.specs.declared.names.NamedSignal.{NamedSignal as Named};
ghost use Rattle.cov_coverage.specs.Names.{AreNamed};
ghost use Rattle.cov_jobs.specs.declared.detail.Detail.TheVariants as details;
ghost use Rattle.cov_jobs.specs.Coverage.{IsCoverageFault};
ghost use Rattle.cov_jobs.specs.Specifications.{IsSpecificationReport};

use crate::detail::Detail;
use crate::fault::JobFault;
use crate::report::Report;
use crate::specifications::specification_report;
use cov_coverage::name_signals;
use cov_space::Meter;
use cov_syntax::{Seq, Text};
use cov_types::Checked;
use cov_words::Opts;
use std::alloc::Global;

/// The report on the states that the specifications cover for signals of these names.
pub(crate) fn coverage_report(
    alloc: Global,
    m: &Checked,
    names: &Seq<Text>,
    opts: Opts,
    meter: &mut Meter,
) -> Result<Report, JobFault>
    ensures ok { IfOk result (λ r. (signals : List Named) × AreNamed m.now names.now signals × IsSpecificationReport (details.Coverage signals opts.cubes) m.now r.passes r.text) }
    ensures untold { OnOk result (meter.new ≡ meter.old) }
    ensures err { IfErr result (IsCoverageFault m.now names.now opts.nodes meter.old meter.new) }
{
    let detail = Detail::Coverage {
        signals: name_signals(alloc, m, names)?,
        cubes: opts.cubes,
    };
    Ok(specification_report(alloc, m, &detail, opts, meter)?)
}
