ghost use Rattle.std.specs.Prelude.{◌≡◌, ◌≢◌, ◌<◌, ◌≤◌, ◌+◌, ◌*◌, ◌∷◌, [], length, drop, get_or, false, IfErr, OnOk};
ghost use Rattle.cov_model.specs.Flat.{greatest};
ghost use Rattle.cov_bits.specs.Layout as layout;
ghost use Rattle.cov_classes.specs.Cubes as classes;
ghost use Rattle.cov_space.specs.Sets.{set_at, HasRoom};
ghost use Rattle.cov_space.specs.Steps.{Leaves};
ghost use Rattle.cov_fields.specs.Sets.{IsEmpty};
ghost use Rattle.cov_cubes.specs.Rests.{IsRestOf, states_of};
ghost use Rattle.cov_cubes.specs.Steps.{added, behind};

use crate::classes::find_classes;
use crate::found::{Found, add};
use crate::singles::enter_with_singles;
use crate::variable::variable_at;
use cov_bits::Plan;
use cov_fields::{is_empty, restrict_to};
use cov_model::Model;
use cov_space::{Slot, Space, SpaceFault};
use std::alloc::Global;

/// Adds the cube of the classes where the set is not empty.
fn add_last(alloc: Global, sp: &mut Space, set: Slot, found: &mut Found) -> Result<(), SpaceFault>
    requires set { set < length sp.old.sets }
    requires room { HasRoom sp.old 1 }
    requires few { length found.old.list.cubes ≤ found.old.limit }
    ensures empty { IsEmpty sp.old.levels (set_at sp.old.sets set) → OnOk result (found.new ≡ found.old) }
    ensures some { (IsEmpty sp.old.levels (set_at sp.old.sets set) → ⊥) → OnOk result (found.new ≡ record found.old { list = added found.old.limit found.old.list (found.old.front ∷ []) }) }
    ensures kept { sp.new ≡ sp.old }
    ensures err { IfErr result (λ e. Leaves sp.old sp.new e) }
{
    if is_empty(sp, set) {
        return Ok(());
    }
    if add(alloc, found).is_err() {
        return Err(SpaceFault::Memory);
    }
    Ok(())
}

/// Adds the cubes of a rest set of the variables from one with bits on, behind the classes of those before. It calls itself
/// at variables with bits alone, so at most 60 deep.
pub(crate) fn walk(
    alloc: Global,
    m: &Model,
    plan: &Plan,
    sp: &mut Space,
    set: Slot,
    x: usize,
    found: &mut Found,
) -> Result<(), SpaceFault>
    requires plan { plan.now ≡ layout.sizes m.now.vars }
    requires levels { sp.old.levels ≡ 3 * layout.bits plan.now }
    requires place { x ≤ length plan.now }
    requires bits { x < length plan.now → get_or plan.now x 0 ≢ 1 }
    requires set { set < length sp.old.sets }
    requires rest { IsRestOf sp.old.levels plan.now x (set_at sp.old.sets set) }
    requires room { HasRoom sp.old (greatest plan.now + layout.bits (drop x plan.now) + 6) }
    requires open { found.old.list.more ≡ false }
    requires few { length found.old.list.cubes ≤ found.old.limit }
    ensures ok { OnOk result (found.new ≡ record found.old { list = added found.old.limit found.old.list (behind found.old.front (classes.cubes (drop x plan.now) (states_of sp.old.levels plan.now x (set_at sp.old.sets set)))) }) }
    ensures kept { OnOk result (sp.new ≡ sp.old) }
    ensures err { IfErr result (λ e. Leaves sp.old sp.new e) }
{
    if x == m.vars.len() {
        return add_last(alloc, sp, set, found);
    }
    let n = sp.sets();
    let Some(y) = variable_at(m, plan, x) else {
        return Err(SpaceFault::Memory);
    };
    let classes = find_classes(alloc, sp, set, y)?;
    let before = found.front.len();
    for i in 0..classes.len() {
        let class = classes.get(i);
        restrict_to(sp, set, y.field, *class.get(0))?;
        let Ok(next) = enter_with_singles(alloc, m, class, x + 1, found) else {
            return Err(SpaceFault::Memory);
        };
        walk(alloc, m, plan, sp, n, next, found)?;
        found.front.cut(before);
        sp.cut(n);
        if found.list.more {
            return Ok(());
        }
    }
    Ok(())
}
