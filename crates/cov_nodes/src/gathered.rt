ghost use Rattle.std.specs.Prelude.{◌≡◌, ℕ, ◌<◌, ◌≤◌, ◌+◌, ◌*◌, length, OnOk, IfErr};
ghost use Rattle.cov_space.specs.Sets.{HasRoom, lies, set_at};
ghost use Rattle.cov_space.specs.Answers.{IsCallFault, PutsSet};
ghost use Rattle.cov_space.specs.Steps.{Leaves};
ghost use Rattle.cov_fields.specs.Fields.{IsField};
ghost use Rattle.cov_families.specs.Families as families;
ghost use Rattle.cov_families.specs.Steps.{Adds};
ghost use Rattle.cov_nodes.specs.Choices.{IsChunk};
ghost use Rattle.cov_nodes.specs.Chunks.{gathered_set, own_set};
ghost use Rattle.cov_nodes.specs.Standing as spec;

use crate::defined::chunk_size;
use crate::targets::own_targets;
use cov_families::{index_of, put_carried};
use cov_space::{Slot, Space, SpaceFault};
use cov_syntax::Value;
use std::alloc::Global;

/// The values of one chunk.
fn chunk_of(values: &[Value], size: usize, k: usize) -> &[Value]
    requires within { k * size < length values.now }
    requires few { length values.now ≤ 1024 }
    ensures { result.now ≡ spec.chunk size values.now k }
{
    let rest = &values[k * size..];
    &rest[..size.min(rest.len())]
}

/// Puts the set of a list's values as one over other values.
fn put_own(
    alloc: Global,
    sp: &mut Space,
    set: Slot,
    part: &[Value],
    xs: &[Value],
) -> Result<(), SpaceFault>
    requires set { set < length sp.old.sets }
    requires some { 0 < length part.now }
    requires few { length part.now ≤ 1024 }
    requires field { IsField sp.old.levels (families.index_of (length part.now)) }
    requires chunk { IsChunk sp.old.levels xs.now }
    requires room { HasRoom sp.old 12 }
    ensures ok { OnOk result (PutsSet sp.old sp.new (own_set sp.old.levels part.now xs.now (set_at sp.old.sets set))) }
    ensures err { IfErr result (λ e. IsCallFault sp.old sp.new e) }
{
    let Ok(targets) = own_targets(alloc, part, xs) else {
        return Err(SpaceFault::Memory);
    };
    let from = index_of(part.len() as u16);
    let to = index_of(xs.len() as u16);
    put_carried(sp, set, from, to, targets.as_slice())
}

/// Adds the set of a list's values to the set at a place, which is the last one.
fn add_own(
    alloc: Global,
    sp: &mut Space,
    place: Slot,
    set: Slot,
    part: &[Value],
    xs: &[Value],
) -> Result<(), SpaceFault>
    requires place { place + 1 ≡ length sp.old.sets }
    requires set { set < place }
    requires some { 0 < length part.now }
    requires few { length part.now ≤ 1024 }
    requires field { IsField sp.old.levels (families.index_of (length part.now)) }
    requires chunk { IsChunk sp.old.levels xs.now }
    requires room { HasRoom sp.old 13 }
    ensures ok { OnOk result (Adds sp.old sp.new place (lies (own_set sp.old.levels part.now xs.now (set_at sp.old.sets set)))) }
    ensures err { IfErr result (λ e. Leaves sp.old sp.new e) }
{
    let last = sp.sets();
    put_own(alloc, sp, set, part, xs)?;
    sp.or(place, last)?;
    sp.settle(place);
    Ok(())
}

fn gathered_steps(
    alloc: Global,
    sp: &mut Space,
    first: Slot,
    values: &[Value],
    xs: &[Value],
) -> Result<(), SpaceFault>
    requires few { length values.now ≤ 1024 }
    requires there { (k : ℕ) → k * spec.chunk_size sp.old.levels < length values.now → first + k < length sp.old.sets }
    requires chunk { IsChunk sp.old.levels xs.now }
    requires room { HasRoom sp.old 16 }
    ensures ok { OnOk result (PutsSet sp.old sp.new (gathered_set sp.old first values.now xs.now)) }
    ensures err { IfErr result (λ e. Leaves sp.old sp.new e) }
{
    let n = sp.sets();
    let size = chunk_size(sp) as usize;
    sp.constant(false);
    for k in 0..values.len().div_ceil(size) {
        add_own(
            alloc,
            sp,
            n,
            first + k as u32,
            chunk_of(values, size, k),
            xs,
        )?;
    }
    Ok(())
}

/// Puts the sets of all chunks of a list, as one over other values.
pub(crate) fn put_gathered(
    alloc: Global,
    sp: &mut Space,
    first: Slot,
    values: &[Value],
    xs: &[Value],
) -> Result<(), SpaceFault>
    requires few { length values.now ≤ 1024 }
    requires there { (k : ℕ) → k * spec.chunk_size sp.old.levels < length values.now → first + k < length sp.old.sets }
    requires chunk { IsChunk sp.old.levels xs.now }
    requires room { HasRoom sp.old 16 }
    ensures ok { OnOk result (PutsSet sp.old sp.new (gathered_set sp.old first values.now xs.now)) }
    ensures err { IfErr result (λ e. IsCallFault sp.old sp.new e) }
{
    let n = sp.sets();
    match gathered_steps(alloc, sp, first, values, xs) {
        Ok(()) => Ok(()),
        Err(fault) => {
            sp.cut(n);
            Err(fault)
        }
    }
}
