//! The report of a replay.

ghost use Rattle.std.specs.Prelude.{◌≡◌, ◌≤◌, ◌+◌, Err, IfOk, IfErr, length};
ghost use Rattle.cov_claims.specs.declared.evidence.Evidence.{Evidence as AnEvidence};
ghost use Rattle.cov_evid.specs.Cursors.{IsRefusal};
ghost use Rattle.cov_evid.specs.FirstFault.{evid_fault};
ghost use Rattle.cov_evid.specs.Spelling.{IsProper};
ghost use Rattle.cov_jobs.specs.Replays.{IsEvidenceText, IsJudged, IsReplayReport};

use crate::report::Report;
use cov_evid::{EvidFault, EvidRefused, Evidence, read_evidence};
use cov_replay::{Bench, Verdict, judge};
use cov_report::verdict_line;
use cov_syntax::{NoMemory, Seq};
use cov_types::Checked;
use std::alloc::Global;

/// The report of a replay: the judge's verdict on the evidence that the text spells. No diagram is made.
pub fn replay_report(alloc: Global, m: &Checked, text: &[u8]) -> Result<Report, EvidRefused>
    ensures ok { IfOk result (λ r. IsReplayReport m.now text.now r.passes r.text) }
    ensures fault { IfErr result (IsRefusal (evid_fault m.now text.now)) }
    ensures unspelled { (f : EvidFault) → result ≡ Err (EvidRefused.Fault f) → (e : AnEvidence) → IsEvidenceText m.now text.now e → ⊥ }
{
    let evidence = read_evidence(alloc, m, text)?;
    Ok(judged_report(alloc, m, &evidence)?)
}

/// The report on evidence that is read.
fn judged_report(alloc: Global, m: &Checked, e: &Evidence) -> Result<Report, NoMemory>
    requires proper { IsProper m.now e.now }
    requires few { length e.now.lasso.stem + length e.now.lasso.turn ≤ 100000 }
    ensures { IfOk result (λ r. IsJudged m.now e.now r.passes r.text) }
{
    let mut bench = Bench::make(alloc, m, e)?;
    let verdict = judge(m, &mut bench, e);
    let mut text = Seq::new(alloc);
    verdict_line(&verdict, &mut text)?;
    Ok(Report {
        text,
        passes: verdict == Verdict::Accept,
    })
}
