ghost use Rattle.std.specs.Prelude.{◌≡◌, ◌<◌, ◌≤◌, ◌+◌, ◌^◌, ◌&&◌, ◌==◌, length, OnOk, IfErr};
ghost use Rattle.cov_space.specs.Sets.{HasRoom};
ghost use Rattle.cov_space.specs.Answers.{PutsSet, IsCallFault};
ghost use Rattle.cov_space.specs.Steps.{Leaves};
ghost use Rattle.cov_fields.specs.Fields.{IsField, held};
ghost use Rattle.cov_families.specs.Families.{index_of, listed_set};
ghost use Rattle.cov_families.specs.Steps.{Adds};

use crate::adding::add_last;
use crate::index::index_of;
use cov_fields::{Field, put_number};
use cov_space::{Slot, Space, SpaceFault};

/// Adds the rows that hold the number, where it is picked, to the set at a place.
fn add_pick(sp: &mut Space, place: Slot, field: Field, k: u16, pick: bool) -> Result<(), SpaceFault>
    requires place { place + 1 ≡ length sp.old.sets }
    requires field { IsField sp.old.levels field }
    requires fits { k < 2 ^ field.width }
    requires room { HasRoom sp.old 6 }
    ensures ok { OnOk result (Adds sp.old sp.new place (λ row. held field row == k && pick)) }
    ensures err { IfErr result (λ e. Leaves sp.old sp.new e) }
{
    let _sets = sp.sets();
    if !pick {
        return Ok(());
    }
    put_number(sp, field, k)?;
    add_last(sp, place)
}

fn listed_steps(sp: &mut Space, picks: &[bool]) -> Result<(), SpaceFault>
    requires some { 0 < length picks.now }
    requires few { length picks.now ≤ 1024 }
    requires field { IsField sp.old.levels (index_of (length picks.now)) }
    requires room { HasRoom sp.old 12 }
    ensures ok { OnOk result (PutsSet sp.old sp.new (listed_set sp.old.levels picks.now)) }
    ensures err { IfErr result (λ e. Leaves sp.old sp.new e) }
{
    let n = sp.sets();
    let field = index_of(picks.len() as u16);
    sp.constant(false);
    for (i, pick) in picks.iter().enumerate() {
        add_pick(sp, n, field, i as u16, *pick)?;
    }
    Ok(())
}

/// Puts the rows whose number is picked.
pub fn put_listed(sp: &mut Space, picks: &[bool]) -> Result<(), SpaceFault>
    requires some { 0 < length picks.now }
    requires few { length picks.now ≤ 1024 }
    requires field { IsField sp.old.levels (index_of (length picks.now)) }
    requires room { HasRoom sp.old 12 }
    ensures ok { OnOk result (PutsSet sp.old sp.new (listed_set sp.old.levels picks.now)) }
    ensures err { IfErr result (λ e. IsCallFault sp.old sp.new e) }
{
    let n = sp.sets();
    match listed_steps(sp, picks) {
        Ok(()) => Ok(()),
        Err(fault) => {
            sp.cut(n);
            Err(fault)
        }
    }
}
