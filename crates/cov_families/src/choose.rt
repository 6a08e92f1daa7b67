ghost use Rattle.std.specs.Prelude.{◌<◌, ◌≤◌, length, OnOk, IfErr};
ghost use Rattle.cov_space.specs.Sets.{set_at, HasRoom};
ghost use Rattle.cov_space.specs.Answers.{PutsSet, IsCallFault};
ghost use Rattle.cov_space.specs.Steps.{Leaves};
ghost use Rattle.cov_fields.specs.Fields.{IsField};
ghost use Rattle.cov_families.specs.Families.{FitsField, index_of, choice_set, if_set};

use crate::adding::put_named;
use crate::index::index_of;
use cov_space::{Slot, Space, SpaceFault};

fn choice_steps(
    sp: &mut Space,
    set: Slot,
    count: u16,
    inside: Option<u16>,
    outside: Option<u16>,
) -> Result<(), SpaceFault>
    requires set { set < length sp.old.sets }
    requires some { 0 < count }
    requires few { count ≤ 1024 }
    requires field { IsField sp.old.levels (index_of count) }
    requires inside { FitsField (index_of count) inside }
    requires outside { FitsField (index_of count) outside }
    requires room { HasRoom sp.old 12 }
    ensures ok { OnOk result (PutsSet sp.old sp.new (choice_set sp.old.levels (index_of count) inside outside (set_at sp.old.sets set))) }
    ensures err { IfErr result (λ e. Leaves sp.old sp.new e) }
{
    let n = sp.sets();
    let field = index_of(count);
    put_named(sp, field, inside)?;
    put_named(sp, field, outside)?;
    put_if(sp, set, n, n + 1)?;
    sp.settle(n);
    Ok(())
}

/// Puts the rows of the set with one number, and the others with another; where a number is None, no such rows.
pub fn put_choice(
    sp: &mut Space,
    set: Slot,
    count: u16,
    inside: Option<u16>,
    outside: Option<u16>,
) -> Result<(), SpaceFault>
    requires set { set < length sp.old.sets }
    requires some { 0 < count }
    requires few { count ≤ 1024 }
    requires field { IsField sp.old.levels (index_of count) }
    requires inside { FitsField (index_of count) inside }
    requires outside { FitsField (index_of count) outside }
    requires room { HasRoom sp.old 12 }
    ensures ok { OnOk result (PutsSet sp.old sp.new (choice_set sp.old.levels (index_of count) inside outside (set_at sp.old.sets set))) }
    ensures err { IfErr result (λ e. IsCallFault sp.old sp.new e) }
{
    let n = sp.sets();
    match choice_steps(sp, set, count, inside, outside) {
        Ok(()) => Ok(()),
        Err(fault) => {
            sp.cut(n);
            Err(fault)
        }
    }
}

fn if_steps(sp: &mut Space, guard: Slot, then: Slot, other: Slot) -> Result<(), SpaceFault>
    requires guard { guard < length sp.old.sets }
    requires then { then < length sp.old.sets }
    requires other { other < length sp.old.sets }
    requires room { HasRoom sp.old 7 }
    ensures ok { OnOk result (PutsSet sp.old sp.new (if_set sp.old.levels (set_at sp.old.sets guard) (set_at sp.old.sets then) (set_at sp.old.sets other))) }
    ensures err { IfErr result (λ e. Leaves sp.old sp.new e) }
{
    let n = sp.sets();
    sp.and(guard, then)?;
    sp.not(guard)?;
    sp.and(n + 1, other)?;
    sp.or(n, n + 2)?;
    sp.settle(n);
    Ok(())
}

/// Puts the rows of the second set that lie in the first, and the rows of the third that do not.
pub fn put_if(sp: &mut Space, guard: Slot, then: Slot, other: Slot) -> Result<(), SpaceFault>
    requires guard { guard < length sp.old.sets }
    requires then { then < length sp.old.sets }
    requires other { other < length sp.old.sets }
    requires room { HasRoom sp.old 7 }
    ensures ok { OnOk result (PutsSet sp.old sp.new (if_set sp.old.levels (set_at sp.old.sets guard) (set_at sp.old.sets then) (set_at sp.old.sets other))) }
    ensures err { IfErr result (λ e. IsCallFault sp.old sp.new e) }
{
    let n = sp.sets();
    match if_steps(sp, guard, then, other) {
        Ok(()) => Ok(()),
        Err(fault) => {
            sp.cut(n);
            Err(fault)
        }
    }
}
