ghost use Rattle.std.specs.Prelude.{◌≡◌, ◌≢◌, ◌≤◌, ℕ, Bool, true, false, List, [], ◌⊎◌, Option, None, Some, IfOk, IfErr, OnOk};
ghost use Rattle.cov_io.specs.Outside.{Rose, Gains};
ghost use Rattle.cov_top.specs.ErrorLine.{error_line, named, PutsLine};
ghost use Rattle.cov_top.specs.Nodes.{IsAmpleFile, IsJobShort};
ghost use Rattle.cov_top.specs.Run.{IsAskedFile, IsFaultyFile, IsInputFault, IsJobReport, IsAcceptedFile, IsMissing, IsPlace, IsRefusedFile, IsTextReport, IsUnknownFile, ProvesClaim, ProvesNothing};
ghost use Rattle.cov_top.specs.Refusal.{IsRefusal};
ghost use Rattle.cov_jobs.specs.Replays.{IsReplayReport};
ghost use Rattle.cov_top.specs.Inputs.{IsEvidenceInput};
ghost use Rattle.cov_top.specs.Stops.{IsReplayStop, IsTextStop};
ghost use Rattle.cov_top.specs.Transfer.{GainsPart};
ghost use Rattle.cov_words.specs.Words.{evidence_name, job};
ghost use Rattle.cov_words.specs.declared.job.Job.TheVariants.{Replay as replay};

use crate::error_line::put_error_line;
use crate::input::{Input, evidence_input, read_input};
use crate::position::Position;
use crate::reading::read_model;
use crate::refusal::{NoReport, Refusal, refuse, too_long, unread};
use crate::status::{InputFault, Status};
use crate::transfer::put_all;
use cov_evid::EvidFaultKind;
use cov_io::{Files, Sink};
use cov_jobs::{AskFault, Report, job_report, replay_report};
use cov_space::{Meter, NodesFull};
use cov_syntax::Word;
use cov_types::Checked;
use cov_words::{Job, WordsFault, read_words};
use std::alloc::Global;

/// The most bytes of a model's text.
const MOST_MODEL: u32 = 1_048_576;

/// The report of a job. Its files are read before any of them is judged.
fn report_on<F: Files>(
    alloc: Global,
    files: &mut F,
    job: &Job,
    meter: &mut Meter,
) -> Result<Report, Refusal>
    ensures ok { IfOk result (λ r. IsJobReport (F.told files.old) (Some job.now) r.passes r.text) }
    ensures err { IfErr result (λ r. IsRefusal (F.told files.old) (F.faults files.old) (F.faults files.new) (Some job.now) meter.old meter.new r) }
    ensures untold { OnOk result (meter.new ≡ meter.old) }
    ensures later { F.faults files.old ≤ F.faults files.new }
{
    let model = match read_input(alloc, files, job.model(), MOST_MODEL) {
        Ok(input) => input,
        Err(refusal) => return Err(refusal),
    };
    let evidence = match evidence_input(alloc, files, job) {
        Ok(input) => input,
        Err(refusal) => return Err(refusal),
    };
    let Input::Whole(text) = model else {
        return Err(too_long());
    };
    match report_on_text(alloc, job, text.as_slice(), &evidence, meter) {
        Ok(report) => Ok(report),
        Err(reason) => Err(unread(alloc, job, text.as_slice(), reason)),
    }
}

/// The report of a job on the text of a model, and on its evidence where it has some.
fn report_on_text(
    alloc: Global,
    job: &Job,
    text: &[u8],
    evidence: &Option<Input>,
    meter: &mut Meter,
) -> Result<Report, NoReport>
    requires alone { evidence.now ≡ None → evidence_name job.now ≡ None }
    ensures ok { (bytes : Option (List ℕ)) → IsEvidenceInput evidence.now bytes → IfOk result (λ r. IsTextReport job.now text.now bytes r.passes r.text) }
    ensures untold { OnOk result (meter.new ≡ meter.old) }
    ensures err { (bytes : Option (List ℕ)) → IsEvidenceInput evidence.now bytes → IfErr result (IsTextStop job.now text.now bytes meter.old meter.new) }
{
    let model = read_model(alloc, text)?;
    match evidence {
        None => Ok(job_report(alloc, job, &model, meter)?),
        Some(input) => replay_on(alloc, &model, input),
    }
}

/// The report of a replay on a model.
fn replay_on(alloc: Global, m: &Checked, evidence: &Input) -> Result<Report, NoReport>
    ensures ok { (bytes : List ℕ) → IsEvidenceInput (Some evidence.now) (Some bytes) → IfOk result (λ r. IsReplayReport m.now bytes r.passes r.text) }
    ensures err { (bytes : List ℕ) → IsEvidenceInput (Some evidence.now) (Some bytes) → IfErr result (IsReplayStop m.now bytes) }
{
    match evidence {
        Input::Whole(text) => Ok(replay_report(alloc, m, text.as_slice())?),
        Input::TooLong => Err(NoReport::Evidence(EvidFaultKind::TooLong.at(1))),
    }
}

/// The report of the words' job, made whole before any of it is put.
fn report_of<F: Files>(
    alloc: Global,
    words: &[String],
    files: &mut F,
    meter: &mut Meter,
) -> Result<Report, Refusal>
    ensures ok { IfOk result (λ r. IsJobReport (F.told files.old) (job words.now) r.passes r.text) }
    ensures err { IfErr result (λ r. IsRefusal (F.told files.old) (F.faults files.old) (F.faults files.new) (job words.now) meter.old meter.new r) }
    ensures untold { OnOk result (meter.new ≡ meter.old) }
    ensures later { F.faults files.old ≤ F.faults files.new }
{
    match read_words(alloc, words) {
        Ok(job) => report_on(alloc, files, &job, meter),
        Err(WordsFault::Words) => Err(refuse(Status::Words)),
        Err(WordsFault::Memory) => Err(refuse(Status::Memory)),
    }
}

/// Puts the whole report, or the line of a failed write.
fn put_report<O: Sink, E: Sink>(out: &mut O, err: &mut E, report: &Report) -> Status
    ensures done { result ≡ Status.Done → (report.now.passes ≡ true) × Gains (O.wrote out.old) (O.wrote out.new) report.now.text × (E.wrote err.new ≡ E.wrote err.old) }
    ensures fails { result ≡ Status.Fails → (report.now.passes ≡ false) × Gains (O.wrote out.old) (O.wrote out.new) report.now.text × (E.wrote err.new ≡ E.wrote err.old) }
    ensures part { result ≡ Status.Write → GainsPart (O.wrote out.old) (O.wrote out.new) report.now.text × Rose (O.faults out.old) (O.faults out.new) }
    ensures line { result ≡ Status.Write → PutsLine (E.wrote err.old) (E.wrote err.new) (E.faults err.old) (E.faults err.new) (error_line Status.Write 1 1 None []) }
    ensures which { (result ≡ Status.Done) ⊎ ((result ≡ Status.Fails) ⊎ (result ≡ Status.Write)) }
    ensures out_later { O.faults out.old ≤ O.faults out.new }
    ensures err_later { E.faults err.old ≤ E.faults err.new }
{
    match put_all(out, report.text.as_slice()) {
        Ok(()) if report.passes => Status::Done,
        Ok(()) => Status::Fails,
        Err(_) => {
            put_error_line(err, Status::Write, Position::START, None, b"");
            Status::Write
        }
    }
}

/// Puts the line of a refusal.
fn put_refusal<E: Sink>(err: &mut E, refusal: &Refusal)
    ensures line { PutsLine (E.wrote err.old) (E.wrote err.new) (E.faults err.old) (E.faults err.new) (error_line refusal.now.status refusal.now.position.line refusal.now.position.column refusal.now.word (named refusal.now.signal)) }
    ensures later { E.faults err.old ≤ E.faults err.new }
{
    let signal: &[u8] = match &refusal.signal {
        Some(signal) => signal.as_slice(),
        None => b"",
    };
    put_error_line(err, refusal.status, refusal.position, refusal.word, signal);
}

/// Does all that the program does: reads the file of the words' job, and puts its report, or else the
/// one line that says why there is none.
pub fn run<F: Files, O: Sink, E: Sink>(
    alloc: Global,
    words: &[String],
    files: &mut F,
    out: &mut O,
    err: &mut E,
    meter: &mut Meter,
) -> Status
    // What was put.
    ensures done { result ≡ Status.Done → (text : List ℕ) × IsJobReport (F.told files.old) (job words.now) true text
        × Gains (O.wrote out.old) (O.wrote out.new) text }
    ensures fails { result ≡ Status.Fails → (text : List ℕ) × IsJobReport (F.told files.old) (job words.now) false text
        × Gains (O.wrote out.old) (O.wrote out.new) text }
    ensures proved { (model evidence : List ℕ) → job words.now ≡ Some (replay model evidence) → result ≡ Status.Done → ProvesClaim (F.told files.old) model evidence }
    ensures unproved { (model evidence : List ℕ) → job words.now ≡ Some (replay model evidence) → result ≡ Status.Fails → ProvesNothing (F.told files.old) model evidence }
    ensures part { result ≡ Status.Write → (passes : Bool) × (text : List ℕ) × IsJobReport (F.told files.old) (job words.now) passes text
        × GainsPart (O.wrote out.old) (O.wrote out.new) text }
    ensures nothing { result ≢ Status.Done → result ≢ Status.Fails → result ≢ Status.Write → O.wrote out.new ≡ O.wrote out.old }

    // What was told on the error stream.
    ensures quiet { (result ≡ Status.Done) ⊎ (result ≡ Status.Fails) → E.wrote err.new ≡ E.wrote err.old }
    ensures line { result ≢ Status.Done → result ≢ Status.Fails → (line : ℕ) × (column : ℕ) × (word : Option Word) × (signal : List ℕ)
        × IsPlace (F.told files.old) (job words.now) result line column word signal
        × PutsLine (E.wrote err.old) (E.wrote err.new) (E.faults err.old) (E.faults err.new) (error_line result line column word signal) }

    // The cause of each status. Want of memory is free.
    ensures words { result ≡ Status.Words → job words.now ≡ None }
    ensures input { (f : InputFault) → result ≡ Status.Input f → IsInputFault (F.told files.old) (job words.now) f }
    ensures read { result ≡ Status.Read → Rose (F.faults files.old) (F.faults files.new) ⊎ IsMissing (F.told files.old) (job words.now) }
    ensures write { result ≡ Status.Write → Rose (O.faults out.old) (O.faults out.new) }
    ensures nodes { (full : NodesFull) → result ≡ Status.Nodes full → IsJobShort (F.told files.old) (job words.now) meter.old meter.new full }
    ensures asked { (a : AskFault) → result ≡ Status.Asked a → IsAskedFile (F.told files.old) (job words.now) a }
    ensures no_diagram { (full : NodesFull) → result ≡ Status.Nodes full → (model evidence : List ℕ) → job words.now ≡ Some (replay model evidence) → ⊥ }
    ensures untold { ((full : NodesFull) → result ≢ Status.Nodes full) → meter.new ≡ meter.old }

    // What can be answered nothing else.
    ensures no_job { job words.now ≡ None → (result ≡ Status.Words) ⊎ (result ≡ Status.Memory) }
    ensures missing { IsMissing (F.told files.old) (job words.now) → (result ≡ Status.Read) ⊎ (result ≡ Status.Memory) }
    ensures accepted { IsAcceptedFile (F.told files.old) (job words.now) → (f : InputFault) → result ≢ Status.Input f }
    ensures faulty { (f : InputFault) → IsFaultyFile (F.told files.old) (job words.now) f → (Rose (F.faults files.old) (F.faults files.new) → ⊥) → (result ≡ Status.Input f) ⊎ (result ≡ Status.Memory) }
    ensures refused { IsRefusedFile (F.told files.old) (job words.now) → (result ≢ Status.Done) × (result ≢ Status.Fails) × (result ≢ Status.Write) }
    ensures unknown { (a : AskFault) → IsUnknownFile (F.told files.old) (job words.now) a → (Rose (F.faults files.old) (F.faults files.new) → ⊥) → (result ≡ Status.Asked a) ⊎ (result ≡ Status.Memory) }
    ensures enough { IsAmpleFile (F.told files.old) (job words.now) → (full : NodesFull) → result ≢ Status.Nodes full }
    ensures complete { IsAmpleFile (F.told files.old) (job words.now) → (Rose (F.faults files.old) (F.faults files.new) → ⊥) → (Rose (O.faults out.old) (O.faults out.new) → ⊥)
        → (result ≡ Status.Done) ⊎ ((result ≡ Status.Fails) ⊎ (result ≡ Status.Memory)) }

    // Counts never fall.
    ensures files_later { F.faults files.old ≤ F.faults files.new }
    ensures out_later { O.faults out.old ≤ O.faults out.new }
    ensures err_later { E.faults err.old ≤ E.faults err.new }
{
    match report_of(alloc, words, files, meter) {
        Ok(report) => put_report(out, err, &report),
        Err(refusal) => {
            put_refusal(err, &refusal);
            refusal.status
        }
    }
}
