ghost use Rattle.std.specs.Prelude.{◌≡◌, IfOk, IfErr};
ghost use Rattle.cov_coverage.specs.Names.{AreNamed, IsNameFault};

use cov_model::Signal;
use cov_syntax::{NoMemory, Seq, Text};
use cov_types::Checked;
use std::alloc::Global;

/// A signal of a model, with the flat name by which it was asked for.
#[derive(Drop)]
pub struct NamedSignal {
    pub name: Text,
    pub signal: Signal,
}

/// Why there are no signals: the place, from 1, of the first name that no signal of the model has, or no memory.
#[derive(Clone, Copy, Debug, PartialEq, Eq)]
pub enum NameFault {
    Unknown(u64),
    Memory,
}

impl From<NoMemory> for NameFault {
    ghost use Rattle.cov_coverage.specs.declared.names.NameFault.TheVariants.{Memory};

    ghost from_gives = { λ _ e. e ≡ Memory };

    fn from(_: NoMemory) -> NameFault {
        NameFault::Memory
    }
}

/// The signal with a copy of its name.
fn named(alloc: Global, name: &Text, signal: Signal) -> Result<NamedSignal, NoMemory>
    ensures { IfOk result (λ q. q ≡ record { name = name.now; signal = signal }) }
{
    Ok(NamedSignal {
        name: name.copy(alloc)?,
        signal,
    })
}

/// The signals of the model that have these flat names, in their order. A name that is given twice has two.
pub fn name_signals(
    alloc: Global,
    m: &Checked,
    names: &Seq<Text>,
) -> Result<Seq<NamedSignal>, NameFault>
    ensures ok { IfOk result (AreNamed m.now names.now) }
    ensures err { IfErr result (IsNameFault m.now names.now) }
{
    let mut signals = Seq::new(alloc);
    for (i, name) in names.as_slice().iter().enumerate() {
        let Some(signal) = m.signal(name.as_slice()) else {
            return Err(NameFault::Unknown(i as u64 + 1));
        };
        signals.push(named(alloc, name, signal)?)?;
    }
    Ok(signals)
}
