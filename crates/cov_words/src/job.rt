ghost use Rattle.std.specs.Prelude.{◌≡◌};
ghost use Rattle.std.specs.Option.{option_copied};
ghost use Rattle.cov_words.specs.Words as spec;

use cov_syntax::{NoMemory, Seq, Text};

/// The numbers of a job's options.
#[derive(Clone, Copy, Debug, PartialEq, Eq)]
pub struct Opts {
    /// How many nodes the table of diagrams may hold, from 1 to 16,000,000.
    pub nodes: u32,
    /// How many cubes of a set are printed at most, from 1 to 100,000.
    pub cubes: u32,
}

impl Opts {
    /// The numbers where no option is given.
    pub(crate) const DEFAULT: Opts = Opts {
        nodes: 1_000_000,
        cubes: 200,
    };
}

/// What the words ask for: a command, the file of its model, its signals in their order, and its options.
#[derive(Drop)]
pub enum Job {
    Init {
        model: Text,
        opts: Opts,
    },
    Reach {
        model: Text,
        opts: Opts,
    },
    Check {
        model: Text,
        opts: Opts,
    },
    Vacuity {
        model: Text,
        opts: Opts,
    },
    Cover {
        model: Text,
        signals: Seq<Text>,
        opts: Opts,
    },
    /// It has the file of its evidence, and no options.
    Replay {
        model: Text,
        evidence: Text,
    },
}

impl Job {
    /// The name of the model's file.
    pub fn model(&self) -> &[u8]
        ensures { result.now ≡ spec.model_name self.now }
    {
        match self {
            Job::Init { model, opts: _ }
            | Job::Reach { model, opts: _ }
            | Job::Check { model, opts: _ }
            | Job::Vacuity { model, opts: _ }
            | Job::Cover {
                model,
                signals: _,
                opts: _,
            }
            | Job::Replay { model, evidence: _ } => model.as_slice(),
        }
    }

    /// The name of the evidence's file, where the job has one.
    pub fn evidence(&self) -> Option<&[u8]>
        ensures { option_copied result ≡ spec.evidence_name self.now }
    {
        match self {
            Job::Replay { model: _, evidence } => Some(evidence.as_slice()),
            _ => None,
        }
    }

    /// The numbers of its options, those that are not given by their defaults.
    pub fn opts(&self) -> Opts
        ensures { result ≡ spec.opts_of self.now }
    {
        match self {
            Job::Init { model: _, opts }
            | Job::Reach { model: _, opts }
            | Job::Check { model: _, opts }
            | Job::Vacuity { model: _, opts }
            | Job::Cover {
                model: _,
                signals: _,
                opts,
            } => *opts,
            Job::Replay {
                model: _,
                evidence: _,
            } => Opts::DEFAULT,
        }
    }
}

/// Why the words ask for nothing.
#[derive(Clone, Copy, Debug, PartialEq, Eq)]
pub enum WordsFault {
    Words,
    Memory,
}

impl From<NoMemory> for WordsFault {
    ghost use Rattle.cov_words.specs.declared.job.WordsFault.TheVariants.{Memory};

    ghost from_gives = { λ _ e. e ≡ Memory };

    fn from(_: NoMemory) -> WordsFault {
        WordsFault::Memory
    }
}
