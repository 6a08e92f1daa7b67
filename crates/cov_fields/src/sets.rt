ghost use Rattle.std.specs.Prelude.{◌≡◌, ◌<◌, ◌≤◌, ◌+◌, ◌^◌, ◌↔◌, ◌==◌, ◌∷◌, [], length, IsTrue, OnOk, IfErr};
ghost use Rattle.cov_space.specs.Sets.{set_at, HasRoom};
ghost use Rattle.cov_space.specs.Answers.{PutsSet, IsCallFault};
ghost use Rattle.cov_space.specs.Steps.{Leaves};
ghost use Rattle.cov_fields.specs.Fields.{IsField};
ghost use Rattle.cov_fields.specs.Sets.{number_set, rest_set, IsEmpty};
ghost use Rattle.cov_fields.specs.Steps.{rows_with_bit};

use crate::field::Field;
use cov_space::{Slot, Space, SpaceFault};

/// Puts the rows with this bit at a level.
fn put_bit(sp: &mut Space, level: u16, bit: bool) -> Result<(), SpaceFault>
    requires level { level < sp.old.levels }
    requires room { HasRoom sp.old 5 }
    ensures ok { OnOk result (PutsSet sp.old sp.new (rows_with_bit sp.old.levels level bit)) }
    ensures err { IfErr result (λ e. Leaves sp.old sp.new e) }
{
    let n = sp.sets();
    sp.bit(level)?;
    if bit {
        return Ok(());
    }
    sp.not(n)?;
    sp.settle(n);
    Ok(())
}

fn number_steps(sp: &mut Space, field: Field, k: u16) -> Result<(), SpaceFault>
    requires field { IsField sp.old.levels field }
    requires fits { k < 2 ^ field.width }
    requires room { HasRoom sp.old 6 }
    ensures ok { OnOk result (PutsSet sp.old sp.new (number_set sp.old.levels field k)) }
    ensures err { IfErr result (λ e. Leaves sp.old sp.new e) }
{
    let n = sp.sets();
    let _levels = sp.levels();
    sp.constant(true);
    for w in 0..field.width {
        put_bit(sp, field.level(field.width - 1 - w), (k >> w) % 2 == 1)?;
        sp.and(n + 1, n)?;
        sp.settle(n);
    }
    Ok(())
}

/// Puts the rows that hold the number in the field.
pub fn put_number(sp: &mut Space, field: Field, k: u16) -> Result<(), SpaceFault>
    requires field { IsField sp.old.levels field }
    requires fits { k < 2 ^ field.width }
    requires room { HasRoom sp.old 6 }
    ensures ok { OnOk result (PutsSet sp.old sp.new (number_set sp.old.levels field k)) }
    ensures err { IfErr result (λ e. IsCallFault sp.old sp.new e) }
{
    let n = sp.sets();
    match number_steps(sp, field, k) {
        Ok(()) => Ok(()),
        Err(fault) => {
            sp.cut(n);
            Err(fault)
        }
    }
}

fn restrict_steps(sp: &mut Space, set: Slot, field: Field, k: u16) -> Result<(), SpaceFault>
    requires set { set < length sp.old.sets }
    requires field { IsField sp.old.levels field }
    requires room { HasRoom sp.old 5 }
    ensures ok { OnOk result (PutsSet sp.old sp.new (rest_set sp.old.levels field k (set_at sp.old.sets set))) }
    ensures err { IfErr result (λ e. Leaves sp.old sp.new e) }
{
    let n = sp.sets();
    let _levels = sp.levels();
    sp.copy(set);
    for w in 0..field.width {
        sp.restrict(n, field.level(field.width - 1 - w), (k >> w) % 2 == 1)?;
        sp.settle(n);
    }
    Ok(())
}

/// Puts the rows that lie in the set with the number written in the field: the rest set of a value. It does not depend
/// on the field.
pub fn restrict_to(sp: &mut Space, set: Slot, field: Field, k: u16) -> Result<(), SpaceFault>
    requires set { set < length sp.old.sets }
    requires field { IsField sp.old.levels field }
    requires room { HasRoom sp.old 5 }
    ensures ok { OnOk result (PutsSet sp.old sp.new (rest_set sp.old.levels field k (set_at sp.old.sets set))) }
    ensures err { IfErr result (λ e. IsCallFault sp.old sp.new e) }
{
    let n = sp.sets();
    match restrict_steps(sp, set, field, k) {
        Ok(()) => Ok(()),
        Err(fault) => {
            sp.cut(n);
            Err(fault)
        }
    }
}

/// Whether no row lies in the set. It takes no memory, and leaves the sets as they were.
pub fn is_empty(sp: &mut Space, set: Slot) -> bool
    requires set { set < length sp.old.sets }
    requires room { HasRoom sp.old 1 }
    ensures empty { IsTrue result ↔ IsEmpty sp.old.levels (set_at sp.old.sets set) }
    ensures kept { sp.new ≡ sp.old }
{
    let n = sp.sets();
    sp.constant(false);
    let empty = sp.same(set, n);
    sp.cut(n);
    empty
}
