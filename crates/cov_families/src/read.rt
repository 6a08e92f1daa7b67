ghost use Rattle.std.specs.Prelude.{◌≡◌, ◌<◌, ◌≤◌, ◌+◌, ◌*◌, ◌^◌, ◌&&◌, ◌==◌, length, OnOk, IfErr};
ghost use Rattle.cov_space.specs.Sets.{lies, set_at, HasRoom};
ghost use Rattle.cov_space.specs.Answers.{PutsSet, IsCallFault};
ghost use Rattle.cov_space.specs.Steps.{Leaves};
ghost use Rattle.cov_fields.specs.Fields.{IsField, held, written};
ghost use Rattle.cov_families.specs.Families.{FitsField, AllFit, names, read_set, carried_set};
ghost use Rattle.cov_families.specs.Steps.{Adds};

use crate::adding::add_with;
use cov_fields::{Field, put_number, restrict_to};
use cov_space::{Slot, Space, SpaceFault};

/// Adds the rows that hold a number in one field and its target in the other to the set at a place.
fn add_read(
    sp: &mut Space,
    place: Slot,
    from: Field,
    to: Field,
    i: u16,
    target: Option<u16>,
) -> Result<(), SpaceFault>
    requires place { place + 1 ≡ length sp.old.sets }
    requires from { IsField sp.old.levels from }
    requires to { IsField sp.old.levels to }
    requires there { i < 2 ^ from.width }
    requires fits { FitsField to target }
    requires room { HasRoom sp.old 7 }
    ensures ok { OnOk result (Adds sp.old sp.new place (λ row. held from row == i && names target (held to row))) }
    ensures err { IfErr result (λ e. Leaves sp.old sp.new e) }
{
    let _sets = sp.sets();
    let Some(k) = target else {
        return Ok(());
    };
    put_number(sp, from, i)?;
    add_with(sp, place, to, k)
}

fn read_steps(
    sp: &mut Space,
    from: Field,
    to: Field,
    targets: &[Option<u16>],
) -> Result<(), SpaceFault>
    requires from { IsField sp.old.levels from }
    requires to { IsField sp.old.levels to }
    requires few { length targets.now ≤ 2 ^ from.width }
    requires fit { AllFit to targets.now }
    requires room { HasRoom sp.old 12 }
    ensures ok { OnOk result (PutsSet sp.old sp.new (read_set sp.old.levels from to targets.now)) }
    ensures err { IfErr result (λ e. Leaves sp.old sp.new e) }
{
    let n = sp.sets();
    sp.constant(false);
    for (i, target) in targets.iter().enumerate() {
        add_read(sp, n, from, to, i as u16, *target)?;
    }
    Ok(())
}

/// Puts the rows that hold a number in one field and its target in the other.
pub fn put_read(
    sp: &mut Space,
    from: Field,
    to: Field,
    targets: &[Option<u16>],
) -> Result<(), SpaceFault>
    requires from { IsField sp.old.levels from }
    requires to { IsField sp.old.levels to }
    requires few { length targets.now ≤ 2 ^ from.width }
    requires fit { AllFit to targets.now }
    requires room { HasRoom sp.old 12 }
    ensures ok { OnOk result (PutsSet sp.old sp.new (read_set sp.old.levels from to targets.now)) }
    ensures err { IfErr result (λ e. IsCallFault sp.old sp.new e) }
{
    let n = sp.sets();
    match read_steps(sp, from, to, targets) {
        Ok(()) => Ok(()),
        Err(fault) => {
            sp.cut(n);
            Err(fault)
        }
    }
}

/// Adds the rows that hold the target of a number, and would lie in the set with that number, to the set at a place.
fn add_carried(
    sp: &mut Space,
    place: Slot,
    set: Slot,
    from: Field,
    to: Field,
    i: u16,
    target: Option<u16>,
) -> Result<(), SpaceFault>
    requires place { place + 1 ≡ length sp.old.sets }
    requires set { set < place }
    requires from { IsField sp.old.levels from }
    requires to { IsField sp.old.levels to }
    requires fits { FitsField to target }
    requires room { HasRoom sp.old 7 }
    ensures ok { OnOk result (Adds sp.old sp.new place (λ row. lies (set_at sp.old.sets set) (written from i row) && names target (held to row))) }
    ensures err { IfErr result (λ e. Leaves sp.old sp.new e) }
{
    let _sets = sp.sets();
    let Some(k) = target else {
        return Ok(());
    };
    restrict_to(sp, set, from, i)?;
    add_with(sp, place, to, k)
}

fn carried_steps(
    sp: &mut Space,
    set: Slot,
    from: Field,
    to: Field,
    targets: &[Option<u16>],
) -> Result<(), SpaceFault>
    requires set { set < length sp.old.sets }
    requires from { IsField sp.old.levels from }
    requires to { IsField sp.old.levels to }
    requires few { length targets.now ≤ 2 ^ from.width }
    requires fit { AllFit to targets.now }
    requires room { HasRoom sp.old 12 }
    ensures ok { OnOk result (PutsSet sp.old sp.new (carried_set sp.old.levels from to targets.now (set_at sp.old.sets set))) }
    ensures err { IfErr result (λ e. Leaves sp.old sp.new e) }
{
    let n = sp.sets();
    sp.constant(false);
    for (i, target) in targets.iter().enumerate() {
        add_carried(sp, n, set, from, to, i as u16, *target)?;
    }
    Ok(())
}

/// Puts the rows that hold the target of a number, and would lie in the set with that number in the field `from`.
pub fn put_carried(
    sp: &mut Space,
    set: Slot,
    from: Field,
    to: Field,
    targets: &[Option<u16>],
) -> Result<(), SpaceFault>
    requires set { set < length sp.old.sets }
    requires from { IsField sp.old.levels from }
    requires to { IsField sp.old.levels to }
    requires few { length targets.now ≤ 2 ^ from.width }
    requires fit { AllFit to targets.now }
    requires room { HasRoom sp.old 12 }
    ensures ok { OnOk result (PutsSet sp.old sp.new (carried_set sp.old.levels from to targets.now (set_at sp.old.sets set))) }
    ensures err { IfErr result (λ e. IsCallFault sp.old sp.new e) }
{
    let n = sp.sets();
    match carried_steps(sp, set, from, to, targets) {
        Ok(()) => Ok(()),
        Err(fault) => {
            sp.cut(n);
            Err(fault)
        }
    }
}
