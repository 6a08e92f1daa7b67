ghost use Rattle.std.specs.Prelude.{◌≡◌};
ghost use Rattle.cov_show.specs.States.{code_of, fault_at};

use cov_syntax::NoMemory;

/// What is wrong with a text that should be a state.
#[derive(Clone, Copy, Debug, PartialEq, Eq)]
pub enum StateFaultKind {
    /// The name of the next variable and `=` should stand there, behind a `,` but for the first one.
    Expected,
    /// No value of the variable stands there.
    Value,
    /// There is more behind the last value.
    Trailing,
}

impl StateFaultKind {
    /// The number of the fault, from 1 in the order above.
    pub fn code(self) -> u8
        ensures { result ≡ code_of self }
    {
        match self {
            StateFaultKind::Expected => 1,
            StateFaultKind::Value => 2,
            StateFaultKind::Trailing => 3,
        }
    }

    /// This fault at a byte of the text, from 0.
    pub fn at(self, place: usize) -> StateFault
        ensures { result ≡ fault_at self place }
    {
        StateFault {
            code: self.code(),
            place: place as u64,
        }
    }
}

/// A fault of a text that should be a state: the number of a `StateFaultKind`, and its byte, from 0.
#[derive(Clone, Copy, Debug, PartialEq, Eq)]
pub struct StateFault {
    pub code: u8,
    pub place: u64,
}

/// Why a text gives no state.
#[derive(Debug, Drop)]
pub enum StateRefused {
    Fault(StateFault),
    Memory,
}

impl From<NoMemory> for StateRefused {
    ghost use Rattle.cov_show.specs.declared.state_fault.StateRefused.TheVariants.{Memory};

    ghost from_gives = { λ _ e. e ≡ Memory };

    fn from(_: NoMemory) -> StateRefused {
        StateRefused::Memory
    }
}

impl From<StateFault> for StateRefused {
    ghost use Rattle.cov_show.specs.declared.state_fault.StateRefused.TheVariants.{Fault};

    ghost from_gives = { λ f e. e ≡ Fault f };

    fn from(fault: StateFault) -> StateRefused {
        StateRefused::Fault(fault)
    }
}
