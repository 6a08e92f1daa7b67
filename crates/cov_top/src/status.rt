ghost use Rattle.std.specs.Prelude.{◌≡◌};
ghost use Rattle.cov_top.specs.Status.{code_of};

use cov_evid::EvidFault;
use cov_jobs::AskFault;
use cov_space::NodesFull;
use cov_syntax::ModelFault;

/// What is wrong with the bytes of an input.
#[derive(Clone, Copy, Debug, PartialEq, Eq)]
pub enum InputFault {
    Model(ModelFault),
    Evidence(EvidFault),
}

/// How the program ends.
#[derive(Clone, Copy, Debug, PartialEq, Eq)]
pub enum Status {
    Done,
    Fails,
    Words,
    Input(InputFault),
    Read,
    Write,
    Nodes(NodesFull),
    Memory,
    Asked(AskFault),
}

impl Status {
    /// The exit status.
    pub fn code(&self) -> u8
        ensures { result ≡ code_of self.now }
    {
        match self {
            Status::Done => 0,
            Status::Fails => 1,
            Status::Words => 2,
            Status::Input(_) => 3,
            Status::Read => 4,
            Status::Write => 5,
            Status::Nodes(_) => 6,
            Status::Memory => 7,
            Status::Asked(_) => 8,
        }
    }
}
