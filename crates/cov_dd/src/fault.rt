use std::alloc::{AllocError, AllocFailed};

/// There was no memory.
#[derive(Clone, Copy, PartialEq, Eq, Debug)]
pub struct NoMemory;

/// A new node is needed, and as many nodes stand as the budget allows.
#[derive(Clone, Copy, PartialEq, Eq, Debug)]
pub struct Full {
    pub held: u32,
    pub budget: u32,
}

/// Why an operation on diagrams gave none.
#[derive(Clone, Copy, PartialEq, Eq, Debug)]
pub enum TableFault {
    Full { held: u32, budget: u32 },
    Memory,
}

impl From<AllocError> for NoMemory {
    fn from(_: AllocError) -> Self {
        NoMemory
    }
}

impl<T: Drop> From<AllocFailed<T>> for NoMemory {
    fn from(_: AllocFailed<T>) -> Self {
        NoMemory
    }
}

impl From<Full> for TableFault {
    ghost use Rattle.std.specs.Prelude.{◌≡◌};
    ghost use Rattle.cov_dd.specs.Cofactors.{fault_of};

    ghost from_gives = { λ full e. e ≡ fault_of full };

    fn from(full: Full) -> TableFault {
        TableFault::Full {
            held: full.held,
            budget: full.budget,
        }
    }
}

impl From<NoMemory> for TableFault {
    ghost use Rattle.std.specs.Prelude.{◌≡◌};
    ghost use Rattle.cov_dd.specs.declared.fault.TableFault.TheVariants as cause;

    ghost from_gives = { λ _ e. e ≡ cause.Memory };

    fn from(_: NoMemory) -> TableFault {
        TableFault::Memory
    }
}
