ghost use Rattle.std.specs.Prelude.{◌≡◌, ◌<◌, ◌≤◌, ◌+◌, ◌*◌, length, take, nat_lt, IsTrue, IfOk, IfErr, OnOk};
ghost use Rattle.std.specs.List.{list_all};
ghost use Rattle.cov_model.specs.Flat.{greatest};
ghost use Rattle.cov_bits.specs.Layout as layout;
ghost use Rattle.cov_classes.specs.Cubes as classes;
ghost use Rattle.cov_classes.specs.Partition.{is_cube};
ghost use Rattle.cov_space.specs.Sets.{set_at, HasRoom};
ghost use Rattle.cov_space.specs.Answers.{IsCallFault};
ghost use Rattle.cov_cubes.specs.States.{states_in, IsStateSet};

use crate::found::Found;
use crate::singles::enter_singles;
use crate::walk::walk;
use cov_bits::Plan;
use cov_model::{CubeList, Model};
use cov_space::{Slot, Space, SpaceFault};
use cov_syntax::Seq;
use std::alloc::Global;

/// The first cubes of the set, at most as many as the limit, and whether there are others.
pub(crate) fn cubes_in(
    alloc: Global,
    m: &Model,
    plan: &Plan,
    sp: &mut Space,
    set: Slot,
    limit: u32,
) -> Result<CubeList, SpaceFault>
    requires plan { plan.now ≡ layout.sizes m.now.vars }
    requires levels { sp.old.levels ≡ 3 * layout.bits plan.now }
    requires set { set < length sp.old.sets }
    requires states { IsStateSet plan.now sp.old.levels (set_at sp.old.sets set) }
    requires room { HasRoom sp.old (greatest plan.now + layout.bits plan.now + 6) }
    ensures cubes { IfOk result (λ l. l.cubes ≡ take limit (classes.cubes plan.now (states_in plan.now sp.old.levels (set_at sp.old.sets set)))) }
    ensures more { IfOk result (λ l. l.more ≡ nat_lt limit (length (classes.cubes plan.now (states_in plan.now sp.old.levels (set_at sp.old.sets set))))) }
    ensures proper { IfOk result (λ l. IsTrue (list_all (is_cube plan.now) l.cubes)) }
    ensures kept { OnOk result (sp.new ≡ sp.old) }
    ensures err { IfErr result (λ e. IsCallFault sp.old sp.new e) }
{
    let n = sp.sets();
    let mut found = Found {
        front: Seq::new(alloc),
        limit,
        list: CubeList {
            cubes: Seq::new(alloc),
            more: false,
        },
    };
    let Ok(x) = enter_singles(alloc, m, 0, &mut found) else {
        return Err(SpaceFault::Memory);
    };
    match walk(alloc, m, plan, sp, set, x, &mut found) {
        Ok(()) => {
            let Found {
                front: _,
                limit: _,
                list,
            } = found;
            Ok(list)
        }
        Err(fault) => {
            sp.cut(n);
            Err(fault)
        }
    }
}
