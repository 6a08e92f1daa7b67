ghost use Rattle.std.specs.Prelude.{◌≡◌, ◌-◌, ◌≤◌, length, IfErr, OnOk, None};
ghost use Rattle.cov_model.specs.Types.{bits_fault, digits};
ghost use Rattle.cov_walk.specs.Found.{TellsFault};

use cov_model::Var;
use cov_syntax::{FaultKind, Refused};

/// The greatest number of bits of a state.
const MOST_BITS: usize = 60;

/// Refuses the variable at which the bits pass 60.
pub(crate) fn check_bits(vars: &[Var]) -> Result<(), Refused>
    ensures none { OnOk result (bits_fault 0 vars.now ≡ None) }
    ensures err { IfErr result (TellsFault (bits_fault 0 vars.now)) }
{
    let mut total = 0;
    for x in vars {
        let bits = bits_of(x.values.len());
        if bits > MOST_BITS - total {
            return Err(Refused::Fault(FaultKind::TooManyBits.at(x.place)));
        }
        total += bits;
    }
    Ok(())
}

/// The number of binary digits of the last of so many places.
pub(crate) fn bits_of(values: usize) -> usize
    ensures { result ≡ digits values (values - 1) }
{
    let mut last = values.saturating_sub(1);
    let mut bits = 0;
    for _ in 0..values {
        if last == 0 {
            return bits;
        }
        last /= 2;
        bits += 1;
    }
    bits
}
