ghost use Rattle.std.specs.Prelude.{◌≡◌, ◌<◌, ◌≤◌, ◌+◌, ◌^◌, length, OnOk, IfErr};
ghost use Rattle.cov_space.specs.Sets.{set_at, HasRoom};
ghost use Rattle.cov_space.specs.Answers.{PutsSet, IsCallFault};
ghost use Rattle.cov_space.specs.Steps.{Leaves, with_more};
ghost use Rattle.cov_fields.specs.Fields.{IsField};
ghost use Rattle.cov_fields.specs.Sets.{number_set, rest_set};
ghost use Rattle.cov_families.specs.Families.{IsTable, combined_set};
ghost use Rattle.cov_families.specs.Steps.{in_turn};

use crate::index::index_of;
use crate::rows::put_rows;
use crate::table::Table;
use cov_fields::{Field, put_number, restrict_to};
use cov_space::{Slot, Space, SpaceFault};

/// Puts the rest set of each of so many numbers.
fn put_rests(sp: &mut Space, set: Slot, field: Field, count: u16) -> Result<(), SpaceFault>
    requires set { set < length sp.old.sets }
    requires field { IsField sp.old.levels field }
    requires room { HasRoom sp.old (count + 5) }
    ensures ok { OnOk result (sp.new ≡ with_more sp.old (in_turn count (λ j. rest_set sp.old.levels field j (set_at sp.old.sets set)))) }
    ensures err { IfErr result (λ e. Leaves sp.old sp.new e) }
{
    let _sets = sp.sets();
    for j in 0..count {
        restrict_to(sp, set, field, j)?;
    }
    Ok(())
}

/// Puts the code of each of so many numbers.
fn put_codes(sp: &mut Space, field: Field, count: u16) -> Result<(), SpaceFault>
    requires fits { count ≤ 2 ^ field.width }
    requires field { IsField sp.old.levels field }
    requires room { HasRoom sp.old (count + 6) }
    ensures ok { OnOk result (sp.new ≡ with_more sp.old (in_turn count (number_set sp.old.levels field))) }
    ensures err { IfErr result (λ e. Leaves sp.old sp.new e) }
{
    let _sets = sp.sets();
    for k in 0..count {
        put_number(sp, field, k)?;
    }
    Ok(())
}

fn combined_steps(
    sp: &mut Space,
    a: Slot,
    b: Slot,
    table: &Table,
    count: u16,
) -> Result<(), SpaceFault>
    requires a { a < length sp.old.sets }
    requires b { b < length sp.old.sets }
    requires table { IsTable sp.old.levels table.now count }
    requires room { HasRoom sp.old (table.now.columns + count + 12) }
    ensures ok { OnOk result (PutsSet sp.old sp.new (combined_set sp.old.levels table.now count (set_at sp.old.sets a) (set_at sp.old.sets b))) }
    ensures err { IfErr result (λ e. Leaves sp.old sp.new e) }
{
    let n = sp.sets();
    let codes = n + table.columns as u32;
    put_rests(sp, b, index_of(table.columns), table.columns)?;
    put_codes(sp, index_of(count), count)?;
    put_rows(sp, a, n, codes, table)?;
    sp.settle(n);
    Ok(())
}

/// Puts the rows that hold the target of two numbers, and would lie in the first set with the one number and in the
/// second with the other. It keeps the sets of the second operand and the codes of the results standing, so that it
/// makes a few operations for each pair.
pub fn put_combined(
    sp: &mut Space,
    a: Slot,
    b: Slot,
    table: &Table,
    count: u16,
) -> Result<(), SpaceFault>
    requires a { a < length sp.old.sets }
    requires b { b < length sp.old.sets }
    requires table { IsTable sp.old.levels table.now count }
    requires room { HasRoom sp.old (table.now.columns + count + 12) }
    ensures ok { OnOk result (PutsSet sp.old sp.new (combined_set sp.old.levels table.now count (set_at sp.old.sets a) (set_at sp.old.sets b))) }
    ensures err { IfErr result (λ e. IsCallFault sp.old sp.new e) }
{
    let n = sp.sets();
    match combined_steps(sp, a, b, table, count) {
        Ok(()) => Ok(()),
        Err(fault) => {
            sp.cut(n);
            Err(fault)
        }
    }
}
