ghost use Rattle.std.specs.Prelude.{◌≡◌, IfOk, IfErr, Ok};
ghost use Rattle.cov_model.specs.Accepted.{kinds, kinds_fault};
ghost use Rattle.cov_model.specs.Flat.{IsFlat};
ghost use Rattle.cov_types.specs.Checking.{IsChecked};
ghost use Rattle.cov_walk.specs.Found.{TellsFault};

use crate::bits::check_bits;
use crate::checked::Checked;
use crate::formulas::check_formulas;
use crate::roots::roots_of;
use crate::variables::check_types;
use crate::walk_model::{Settled, settle_model};
use cov_model::Model;
use cov_order::put_in_order;
use cov_syntax::Refused;
use std::alloc::Global;

/// The flat model with its DEFINEs in order of dependence and its kinds settled, or its first fault.
pub fn check_kinds(alloc: Global, m: Model) -> Result<Checked, Refused>
    requires { IsFlat m }
    ensures ok { IfOk result (λ c. kinds m ≡ Ok c) }
    ensures err { IfErr result (TellsFault (kinds_fault m)) }
{
    let settled = check_and_settle(alloc, m)?;
    let roots = roots_of(alloc, &settled.model, &settled.kinds)?;
    Ok(Checked {
        model: settled.model,
        kinds: settled.kinds,
        roots,
    })
}

/// The model in order and settled, with the kinds of its variables and DEFINEs, or its first fault.
fn check_and_settle(alloc: Global, m: Model) -> Result<Settled, Refused>
    requires { IsFlat m }
    ensures ok { IfOk result (λ s. kinds m ≡ Ok s.model) }
    ensures checked { IfOk result (λ s. IsChecked s.model s.kinds) }
    ensures err { IfErr result (TellsFault (kinds_fault m)) }
{
    check_types(alloc, m.vars.as_slice())?;
    check_bits(m.vars.as_slice())?;
    let ordered = put_in_order(alloc, m)?;
    let settled = settle_model(alloc, ordered)?;
    check_formulas(settled.model.specs.as_slice())?;
    Ok(settled)
}
