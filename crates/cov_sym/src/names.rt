ghost use Rattle.std.specs.Prelude.{◌≡◌, ◌≤◌, ◌-◌, IfOk, IfErr};
ghost use Rattle.cov_space.specs.declared.fault.SpaceFault.TheVariants as fault;
ghost use Rattle.cov_sym.specs.Rules.{places_from};

use cov_space::{Slot, Slots, SpaceFault};
use std::alloc::Global;

/// The names of the sets from one place up to another.
pub(crate) fn names(alloc: Global, from: Slot, to: Slot) -> Result<Slots, SpaceFault>
    requires { from ≤ to }
    ensures ok { IfOk result (λ s. s ≡ places_from from (to - from)) }
    ensures err { IfErr result (λ f. f ≡ fault.Memory) }
{
    let mut slots = Slots::new(alloc);
    for k in from..to {
        if slots.push(k).is_err() {
            return Err(SpaceFault::Memory);
        }
    }
    Ok(slots)
}
