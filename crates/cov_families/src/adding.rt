ghost use Rattle.std.specs.Prelude.{◌≡◌, ◌<◌, ◌≤◌, ◌+◌, ◌-◌, ◌^◌, ◌&&◌, ◌==◌, length, OnOk, IfErr};
ghost use Rattle.cov_space.specs.Sets.{lies, set_at, HasRoom};
ghost use Rattle.cov_space.specs.Answers.{PutsSet, IsCallFault};
ghost use Rattle.cov_space.specs.Steps.{Leaves};
ghost use Rattle.cov_fields.specs.Fields.{IsField, held};
ghost use Rattle.cov_families.specs.Families.{FitsField};
ghost use Rattle.cov_families.specs.Steps.{Adds, named_set};

use cov_fields::{Field, put_number};
use cov_space::{Slot, Space, SpaceFault};

/// Puts the rows that hold the number in the field; where it is None, no rows.
pub(crate) fn put_named(sp: &mut Space, field: Field, number: Option<u16>) -> Result<(), SpaceFault>
    requires field { IsField sp.old.levels field }
    requires fits { FitsField field number }
    requires room { HasRoom sp.old 6 }
    ensures ok { OnOk result (PutsSet sp.old sp.new (named_set sp.old.levels field number)) }
    ensures err { IfErr result (λ e. IsCallFault sp.old sp.new e) }
{
    match number {
        Some(k) => put_number(sp, field, k),
        None => {
            sp.constant(false);
            Ok(())
        }
    }
}

/// Adds the last set to the one at a place, which is then the last one.
pub(crate) fn add_last(sp: &mut Space, place: Slot) -> Result<(), SpaceFault>
    requires place { place + 1 < length sp.old.sets }
    requires room { HasRoom sp.old 4 }
    ensures ok { OnOk result (Adds sp.old sp.new place (lies (set_at sp.old.sets (length sp.old.sets - 1)))) }
    ensures err { IfErr result (λ e. IsCallFault sp.old sp.new e) }
{
    let last = sp.sets() - 1;
    sp.or(place, last)?;
    sp.settle(place);
    Ok(())
}

/// Adds the rows of the last set that hold the number to the set at a place, which is then the last one.
pub(crate) fn add_with(sp: &mut Space, place: Slot, to: Field, k: u16) -> Result<(), SpaceFault>
    requires place { place + 1 < length sp.old.sets }
    requires to { IsField sp.old.levels to }
    requires fits { k < 2 ^ to.width }
    requires room { HasRoom sp.old 6 }
    ensures ok { OnOk result (Adds sp.old sp.new place (λ row. lies (set_at sp.old.sets (length sp.old.sets - 1)) row && (k == held to row))) }
    ensures err { IfErr result (λ e. Leaves sp.old sp.new e) }
{
    let last = sp.sets() - 1;
    put_number(sp, to, k)?;
    sp.and(last, last + 1)?;
    add_last(sp, place)
}
