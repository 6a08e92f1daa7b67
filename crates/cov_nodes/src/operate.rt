ghost use Rattle.std.specs.Prelude.{◌≡◌, ◌<◌, ◌≤◌, ◌+◌, ◌*◌, length, OnOk, IfErr};
ghost use Rattle.cov_model.specs.declared.model.Model as model;
ghost use Rattle.cov_space.specs.Sets.{HasRoom, set_at};
ghost use Rattle.cov_space.specs.Answers.{IsCallFault};
ghost use Rattle.cov_nodes.specs.Choices.{Choice, IsChunk, IsFamily, PutsFamily, negated_choices, operated_choices};
ghost use Rattle.cov_nodes.specs.declared.reading.Reading as reading;

use crate::targets::{negative_targets, table_of};
use cov_families::{index_of, put_carried, put_combined};
use cov_places::layers_are_apart;
use cov_space::{Slot, Space, SpaceFault};
use cov_syntax::{Op2, Value};
use std::alloc::Global;

/// Puts the family over the last values of what an operator makes of the choices of its sides among the first ones.
pub fn put_operated(
    alloc: Global,
    sp: &mut Space,
    op: Op2,
    a: Slot,
    b: Slot,
    xs: &[Value],
    ys: &[Value],
    results: &[Value],
) -> Result<(), SpaceFault>
    requires a { a < length sp.old.sets }
    requires b { b < length sp.old.sets }
    requires left { IsChunk sp.old.levels xs.now }
    requires right { IsChunk sp.old.levels ys.now }
    requires results { IsChunk sp.old.levels results.now }
    requires room { HasRoom sp.old (length ys.now + length results.now + 13) }
    ensures ok { (m : model.Model) (at : reading.Reading) (f g : Choice) → IsFamily sp.old.levels m at xs.now f (set_at sp.old.sets a) → IsFamily sp.old.levels m at ys.now g (set_at sp.old.sets b)
        → OnOk result (PutsFamily sp.old sp.new m at results.now (operated_choices op xs.now ys.now f g)) }
    ensures err { IfErr result (λ e. IsCallFault sp.old sp.new e) }
{
    layers_are_apart();
    let Ok(table) = table_of(alloc, op, xs, ys, results) else {
        return Err(SpaceFault::Memory);
    };
    put_combined(sp, a, b, &table, results.len() as u16)
}

/// Puts the family over the last values of the negatives of choices among the first ones.
pub fn put_negated(
    alloc: Global,
    sp: &mut Space,
    a: Slot,
    xs: &[Value],
    results: &[Value],
) -> Result<(), SpaceFault>
    requires a { a < length sp.old.sets }
    requires operand { IsChunk sp.old.levels xs.now }
    requires results { IsChunk sp.old.levels results.now }
    requires room { HasRoom sp.old 13 }
    ensures ok { (m : model.Model) (at : reading.Reading) (f : Choice) → IsFamily sp.old.levels m at xs.now f (set_at sp.old.sets a)
        → OnOk result (PutsFamily sp.old sp.new m at results.now (negated_choices xs.now f)) }
    ensures err { IfErr result (λ e. IsCallFault sp.old sp.new e) }
{
    layers_are_apart();
    let Ok(targets) = negative_targets(alloc, xs, results) else {
        return Err(SpaceFault::Memory);
    };
    let from = index_of(xs.len() as u16);
    let to = index_of(results.len() as u16);
    put_carried(sp, a, from, to, targets.as_slice())
}
