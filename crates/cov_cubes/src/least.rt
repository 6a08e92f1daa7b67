ghost use Rattle.std.specs.Prelude.{◌≡◌, ◌<◌, ◌≤◌, ◌+◌, ◌*◌, ◌∷◌, [], length, IsTrue, IfOk, IfErr, OnOk};
ghost use Rattle.cov_bits.specs.Layout as layout;
ghost use Rattle.cov_classes.specs.Partition.{first_state};
ghost use Rattle.cov_space.specs.Sets.{set_at, HasRoom};
ghost use Rattle.cov_space.specs.Answers.{IsCallFault};
ghost use Rattle.cov_space.specs.Steps.{Leaves};
ghost use Rattle.cov_fields.specs.Fields.{IsField};
ghost use Rattle.cov_cubes.specs.States.{states_in, IsStateSet};
ghost use Rattle.cov_cubes.specs.Rests.{PutsLeast};

use crate::variable::variable_at;
use cov_bits::Plan;
use cov_fields::{Field, is_empty, restrict_to};
use cov_model::{Model, State};
use cov_space::{Slot, Space, SpaceFault};
use cov_syntax::Seq;
use std::alloc::Global;

/// Puts the rest set of the least value that has one with a row. Where there is none, the sets stay as they are.
fn put_least(sp: &mut Space, set: Slot, field: Field, size: u16) -> Result<Option<u16>, SpaceFault>
    requires set { set < length sp.old.sets }
    requires field { IsField sp.old.levels field }
    requires room { HasRoom sp.old 5 }
    ensures ok { IfOk result (PutsLeast sp.old sp.new field (set_at sp.old.sets set) size) }
    ensures err { IfErr result (λ e. IsCallFault sp.old sp.new e) }
{
    let n = sp.sets();
    for v in 0..size {
        restrict_to(sp, set, field, v)?;
        if !is_empty(sp, n) {
            return Ok(Some(v));
        }
        sp.cut(n);
    }
    Ok(None)
}

fn first_steps(
    alloc: Global,
    m: &Model,
    plan: &Plan,
    sp: &mut Space,
    set: Slot,
) -> Result<Option<State>, SpaceFault>
    requires plan { plan.now ≡ layout.sizes m.now.vars }
    requires levels { sp.old.levels ≡ 3 * layout.bits plan.now }
    requires set { set < length sp.old.sets }
    requires states { IsStateSet plan.now sp.old.levels (set_at sp.old.sets set) }
    requires room { HasRoom sp.old 6 }
    ensures first { IfOk result (λ s. s ≡ first_state plan.now (states_in plan.now sp.old.levels (set_at sp.old.sets set))) }
    ensures kept { OnOk result (sp.new ≡ sp.old) }
    ensures err { IfErr result (λ e. Leaves sp.old sp.new e) }
{
    let n = sp.sets();
    let mut state = Seq::new(alloc);
    sp.copy(set);
    for x in 0..m.vars.len() {
        let Some(y) = variable_at(m, plan, x) else {
            return Err(SpaceFault::Memory);
        };
        let Some(v) = put_least(sp, n, y.field, y.size)? else {
            sp.cut(n);
            return Ok(None);
        };
        sp.settle(n);
        if state.push(v).is_err() {
            return Err(SpaceFault::Memory);
        }
    }
    let empty = is_empty(sp, n);
    sp.cut(n);
    if empty {
        return Ok(None);
    }
    Ok(Some(state))
}

/// The least state of the set by value places, the first variable counting most. None exactly where the set is empty.
pub(crate) fn first_in(
    alloc: Global,
    m: &Model,
    plan: &Plan,
    sp: &mut Space,
    set: Slot,
) -> Result<Option<State>, SpaceFault>
    requires plan { plan.now ≡ layout.sizes m.now.vars }
    requires levels { sp.old.levels ≡ 3 * layout.bits plan.now }
    requires set { set < length sp.old.sets }
    requires states { IsStateSet plan.now sp.old.levels (set_at sp.old.sets set) }
    requires room { HasRoom sp.old 6 }
    ensures first { IfOk result (λ s. s ≡ first_state plan.now (states_in plan.now sp.old.levels (set_at sp.old.sets set))) }
    ensures kept { OnOk result (sp.new ≡ sp.old) }
    ensures err { IfErr result (λ e. IsCallFault sp.old sp.new e) }
{
    let n = sp.sets();
    match first_steps(alloc, m, plan, sp, set) {
        Ok(state) => Ok(state),
        Err(fault) => {
            sp.cut(n);
            Err(fault)
        }
    }
}
