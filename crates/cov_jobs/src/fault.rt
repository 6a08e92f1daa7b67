ghost use Rattle.std.specs.Prelude.{◌≡◌};

use cov_coverage::NameFault;
use cov_space::{NodesFull, SpaceFault};

/// What is wrong with what a job asks of its model.
#[derive(Clone, Copy, Debug, PartialEq, Eq)]
pub enum AskFault {
    /// The place, from 1, of the first signal that the model does not have.
    UnknownSignal(u64),
}

/// Why a job has no report on a model.
#[derive(Clone, Copy, Debug, PartialEq, Eq)]
pub enum JobFault {
    Asked(AskFault),
    Nodes(NodesFull),
    Memory,
}

impl From<SpaceFault> for JobFault {
    ghost use Rattle.cov_jobs.specs.Faults.{of_space};

    ghost from_gives = { λ f e. e ≡ of_space f };

    fn from(fault: SpaceFault) -> JobFault {
        match fault {
            SpaceFault::Nodes(full) => JobFault::Nodes(full),
            SpaceFault::Memory => JobFault::Memory,
        }
    }
}

impl From<NameFault> for JobFault {
    ghost use Rattle.cov_jobs.specs.Faults.{of_names};

    ghost from_gives = { λ f e. e ≡ of_names f };

    fn from(fault: NameFault) -> JobFault {
        match fault {
            NameFault::Unknown(place) => JobFault::Asked(AskFault::UnknownSignal(place)),
            NameFault::Memory => JobFault::Memory,
        }
    }
}
