ghost use Rattle.std.specs.Prelude.{◌≡◌, ◌<◌, ◌^◌, ◌⊎◌, None, IfOk, length};
ghost use Rattle.cov_top.specs.ErrorLine.{named};
ghost use Rattle.cov_top.specs.Refusal.{IsAnswerable, IsTold, IsUnread, file_too_long};
ghost use Rattle.cov_top.specs.Run.{IsSignalAt};

use crate::position::{Position, position_of, told_word};
use crate::status::{InputFault, Status};
use cov_evid::{EvidFault, EvidRefused};
use cov_jobs::{AskFault, JobFault};
use cov_space::NodesFull;
use cov_syntax::{FaultKind, ModelFault, NoMemory, Refused, Seq, Span, Text, Word};
use cov_words::Job;
use std::alloc::Global;

/// Why there is no report on a text, and on its evidence.
#[derive(Clone, Copy, Debug)]
pub(crate) enum NoReport {
    Fault(ModelFault),
    Evidence(EvidFault),
    Asked(AskFault),
    Nodes(NodesFull),
    Memory,
}

impl From<Refused> for NoReport {
    ghost use Rattle.cov_top.specs.Stops.{of_refused};

    ghost from_gives = { λ r e. e ≡ of_refused r };

    fn from(refused: Refused) -> NoReport {
        match refused {
            Refused::Fault(fault) => NoReport::Fault(fault),
            Refused::Memory => NoReport::Memory,
        }
    }
}

impl From<EvidRefused> for NoReport {
    ghost use Rattle.cov_top.specs.Stops.{of_evidence};

    ghost from_gives = { λ r e. e ≡ of_evidence r };

    fn from(refused: EvidRefused) -> NoReport {
        match refused {
            EvidRefused::Fault(fault) => NoReport::Evidence(fault),
            EvidRefused::Memory => NoReport::Memory,
        }
    }
}

impl From<JobFault> for NoReport {
    ghost use Rattle.cov_top.specs.Stops.{of_job};

    ghost from_gives = { λ f e. e ≡ of_job f };

    fn from(fault: JobFault) -> NoReport {
        match fault {
            JobFault::Asked(fault) => NoReport::Asked(fault),
            JobFault::Nodes(full) => NoReport::Nodes(full),
            JobFault::Memory => NoReport::Memory,
        }
    }
}

/// The status of a run without a report, with the place of a model's fault and the word that is told there, or the signal
/// that the model does not have.
#[derive(Drop)]
pub(crate) struct Refusal {
    pub(crate) status: Status,
    pub(crate) position: Position,
    pub(crate) word: Option<Word>,
    pub(crate) signal: Option<Text>,
}

/// The refusal with a status that tells no place.
pub(crate) fn refuse(status: Status) -> Refusal
    ensures { result ≡ record { status = status; position = record { line = 1; column = 1 }; word = None; signal = None } }
{
    Refusal {
        status,
        position: Position::START,
        word: None,
        signal: None,
    }
}

/// The refusal of a text that has more bytes than the limit.
pub(crate) fn too_long() -> Refusal
    ensures { result ≡ record { status = Status.Input (InputFault.Model file_too_long); position = record { line = 1; column = 1 }; word = None; signal = None } }
{
    refuse(Status::Input(InputFault::Model(FaultKind::FileTooLong.at(Span { start: 0, stop: 0 }))))
}

/// A copy of the signal that a fault of a job's question tells.
fn told_signal(alloc: Global, job: &Job, fault: AskFault) -> Result<Text, NoMemory>
    requires { IsTold job.now fault }
    ensures { IfOk result (IsSignalAt job.now fault) }
{
    let AskFault::UnknownSignal(place) = fault;
    match job {
        Job::Cover {
            model: _,
            signals,
            opts: _,
        } => signals.get(place as usize - 1).copy(alloc),
        _ => Ok(Seq::new(alloc)),
    }
}

/// The refusal of what a job asks of its model.
fn unanswered(alloc: Global, job: &Job, fault: AskFault) -> Refusal
    requires { IsTold job.now fault }
    ensures { ((result.status ≡ Status.Asked fault) × IsSignalAt job.now fault (named result.signal)) ⊎ (result.status ≡ Status.Memory) }
{
    match told_signal(alloc, job, fault) {
        Ok(signal) => Refusal {
            signal: Some(signal),
            ..refuse(Status::Asked(fault))
        },
        Err(_) => refuse(Status::Memory),
    }
}

/// The refusal of a text that has no report.
pub(crate) fn unread(alloc: Global, job: &Job, text: &[u8], reason: NoReport) -> Refusal
    requires short { length text.now < 2 ^ 31 }
    requires told { IsAnswerable job.now reason }
    ensures { IsUnread job.now text.now reason result }
{
    match reason {
        NoReport::Fault(fault) => Refusal {
            status: Status::Input(InputFault::Model(fault)),
            position: position_of(text, fault.place.start as usize),
            word: told_word(text, fault),
            signal: None,
        },
        NoReport::Evidence(fault) => refuse(Status::Input(InputFault::Evidence(fault))),
        NoReport::Asked(fault) => unanswered(alloc, job, fault),
        NoReport::Nodes(full) => refuse(Status::Nodes(full)),
        NoReport::Memory => refuse(Status::Memory),
    }
}
