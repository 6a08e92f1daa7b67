ghost use Rattle.std.specs.Prelude.{◌≡◌, None, IfOk, IfErr, OnOk};
ghost use Rattle.cov_jobs.specs.Faults.{IsJobFault};
ghost use Rattle.cov_jobs.specs.Jobs.{IsReportOn};
ghost use Rattle.cov_words.specs.Words.{evidence_name};

use crate::coverage::coverage_report;
use crate::detail::Detail;
use crate::fault::JobFault;
use crate::specifications::specification_report;
use crate::states::{init_report, reach_report};
use cov_space::Meter;
use cov_syntax::Text;
use cov_types::Checked;
use cov_words::Job;
use std::alloc::Global;

/// A whole report, and whether what it judges passes.
#[derive(Drop)]
pub struct Report {
    pub text: Text,
    pub passes: bool,
}

/// The report of a job that is no replay on a model, made whole. The meter is told of a refusal.
pub fn job_report(
    alloc: Global,
    job: &Job,
    m: &Checked,
    meter: &mut Meter,
) -> Result<Report, JobFault>
    requires { evidence_name job.now ≡ None }
    ensures ok { IfOk result (λ r. IsReportOn job.now m.now r.passes r.text) }
    ensures untold { OnOk result (meter.new ≡ meter.old) }
    ensures err { IfErr result (IsJobFault job.now m.now meter.old meter.new) }
{
    match job {
        Job::Init { model: _, opts } => Ok(init_report(alloc, m, *opts, meter)?),
        Job::Reach { model: _, opts } => Ok(reach_report(alloc, m, *opts, meter)?),
        Job::Check { model: _, opts } => {
            Ok(specification_report(alloc, m, &Detail::Verdict, *opts, meter)?)
        }
        Job::Vacuity { model: _, opts } => {
            Ok(specification_report(alloc, m, &Detail::Occurrences, *opts, meter)?)
        }
        Job::Cover {
            model: _,
            signals,
            opts,
        } => coverage_report(alloc, m, signals, *opts, meter),
        Job::Replay {
            model: _,
            evidence: _,
        } => unreachable!(),
    }
}
