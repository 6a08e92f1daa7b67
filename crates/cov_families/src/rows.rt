ghost use Rattle.std.specs.Prelude.{◌≡◌, ◌<◌, ◌+◌, ◌&&◌, length, OnOk, IfErr};
ghost use Rattle.cov_space.specs.Sets.{lies, set_at, HasRoom};
ghost use Rattle.cov_space.specs.Answers.{PutsSet};
ghost use Rattle.cov_space.specs.Steps.{Leaves};
ghost use Rattle.cov_families.specs.Steps.{Adds, Stands, HasColumns, HasRows, some_set, in_code, in_column, in_row};

use crate::adding::add_last;
use crate::index::index_of;
use crate::table::Table;
use cov_fields::restrict_to;
use cov_space::{Slot, Space, SpaceFault};

/// Adds the rows that lie in the set of a column and in that of its target to the set at a place.
fn add_column(
    sp: &mut Space,
    place: Slot,
    column: Slot,
    codes: Slot,
    target: Option<u16>,
) -> Result<(), SpaceFault>
    requires place { place + 1 ≡ length sp.old.sets }
    requires column { column < length sp.old.sets }
    requires target { Stands sp.old.sets codes target }
    requires room { HasRoom sp.old 5 }
    ensures ok { OnOk result (Adds sp.old sp.new place (λ row. lies (set_at sp.old.sets column) row && in_code sp.old.sets codes target row)) }
    ensures err { IfErr result (λ e. Leaves sp.old sp.new e) }
{
    let _sets = sp.sets();
    let Some(k) = target else {
        return Ok(());
    };
    sp.and(column, codes + k as u32)?;
    add_last(sp, place)
}

/// Puts the rows that lie in the set of some column, and in that of its target in a row of the table.
fn put_row(
    sp: &mut Space,
    rests: Slot,
    codes: Slot,
    table: &Table,
    i: u16,
) -> Result<(), SpaceFault>
    requires row { i < table.now.rows }
    requires table { HasColumns sp.old.sets rests codes table.now }
    requires room { HasRoom sp.old 6 }
    ensures ok { OnOk result (PutsSet sp.old sp.new (some_set sp.old.levels table.now.columns (in_column sp.old.sets rests codes table.now i))) }
    ensures err { IfErr result (λ e. Leaves sp.old sp.new e) }
{
    let n = sp.sets();
    let first = i as usize * table.columns as usize;
    sp.constant(false);
    for j in 0..table.columns {
        let target = *table.targets.get(first + j as usize);
        add_column(sp, n, rests + j as u32, codes, target)?;
    }
    Ok(())
}

/// Adds the rows that pass for one row of the table to the set at a place.
fn add_row(
    sp: &mut Space,
    place: Slot,
    a: Slot,
    rests: Slot,
    codes: Slot,
    table: &Table,
    i: u16,
) -> Result<(), SpaceFault>
    requires place { place + 1 ≡ length sp.old.sets }
    requires a { a < place }
    requires row { i < table.now.rows }
    requires table { HasColumns sp.old.sets rests codes table.now }
    requires rows { HasRows sp.old.levels table.now }
    requires room { HasRoom sp.old 7 }
    ensures ok { OnOk result (Adds sp.old sp.new place (λ row. in_row sp.old.sets rests codes table.now (set_at sp.old.sets a) row i)) }
    ensures err { IfErr result (λ e. Leaves sp.old sp.new e) }
{
    let _sets = sp.sets();
    restrict_to(sp, a, index_of(table.rows), i)?;
    put_row(sp, rests, codes, table, i)?;
    sp.and(place + 1, place + 2)?;
    add_last(sp, place)
}

/// Puts the rows that pass for some row of the table.
pub(crate) fn put_rows(
    sp: &mut Space,
    a: Slot,
    rests: Slot,
    codes: Slot,
    table: &Table,
) -> Result<(), SpaceFault>
    requires a { a < length sp.old.sets }
    requires table { HasColumns sp.old.sets rests codes table.now }
    requires rows { HasRows sp.old.levels table.now }
    requires room { HasRoom sp.old 8 }
    ensures ok { OnOk result (PutsSet sp.old sp.new (some_set sp.old.levels table.now.rows (in_row sp.old.sets rests codes table.now (set_at sp.old.sets a)))) }
    ensures err { IfErr result (λ e. Leaves sp.old sp.new e) }
{
    let n = sp.sets();
    sp.constant(false);
    for i in 0..table.rows {
        add_row(sp, n, a, rests, codes, table, i)?;
    }
    Ok(())
}
