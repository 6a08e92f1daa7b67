ghost use Rattle.std.specs.Prelude.{◌≡◌, ◌<◌, ◌≤◌, ◌+◌, length, take, nat_lt, IsTrue, IfOk, IfErr, OnOk};
ghost use Rattle.std.specs.List.{list_all};
ghost use Rattle.cov_bits.specs.Layout.{sizes};
ghost use Rattle.cov_classes.specs.Cubes as classes;
ghost use Rattle.cov_classes.specs.Partition.{first_state, is_cube};
ghost use Rattle.cov_space.specs.Sets.{set_at};
ghost use Rattle.cov_space.specs.Answers.{IsCallFault};
ghost use Rattle.cov_sym.specs.Systems.{IsBuiltFor};
ghost use Rattle.cov_cubes.specs.States.{states_in, IsStateSet};

use crate::least::first_in;
use crate::listing::cubes_in;
use cov_model::{CubeList, State};
use cov_space::{Slot, SpaceFault};
use cov_sym::Sys;
use cov_types::Checked;
use std::alloc::Global;

/// The first cubes of a set of states, at most as many as the limit, and whether there are others. Beside the sets of the
/// model at most two may stand: that of the fair states, and this one.
pub fn cubes(
    alloc: Global,
    m: &Checked,
    sys: &mut Sys,
    set: Slot,
    limit: u32,
) -> Result<CubeList, SpaceFault>
    requires built { IsBuiltFor m.now sys.old }
    requires alone { length sys.old.space.sets ≤ sys.old.built + 2 }
    requires set { set < length sys.old.space.sets }
    requires states { IsStateSet (sizes m.now.vars) sys.old.space.levels (set_at sys.old.space.sets set) }
    ensures cubes { IfOk result (λ l. l.cubes ≡ take limit (classes.cubes (sizes m.now.vars) (states_in (sizes m.now.vars) sys.old.space.levels (set_at sys.old.space.sets set)))) }
    ensures more { IfOk result (λ l. l.more ≡ nat_lt limit (length (classes.cubes (sizes m.now.vars) (states_in (sizes m.now.vars) sys.old.space.levels (set_at sys.old.space.sets set))))) }
    ensures proper { IfOk result (λ l. IsTrue (list_all (is_cube (sizes m.now.vars)) l.cubes)) }
    ensures kept { OnOk result (sys.new ≡ sys.old) }
    ensures err { IfErr result (λ e. IsCallFault sys.old.space sys.new.space e) }
    ensures same { sys.new ≡ record sys.old { space = sys.new.space } }
{
    cubes_in(alloc, m.model(), &sys.plan, &mut sys.space, set, limit)
}

/// The least state of the set by value places, the first variable counting most. None exactly where the set is empty.
pub fn first(
    alloc: Global,
    m: &Checked,
    sys: &mut Sys,
    set: Slot,
) -> Result<Option<State>, SpaceFault>
    requires built { IsBuiltFor m.now sys.old }
    requires alone { length sys.old.space.sets ≤ sys.old.built + 2 }
    requires set { set < length sys.old.space.sets }
    requires states { IsStateSet (sizes m.now.vars) sys.old.space.levels (set_at sys.old.space.sets set) }
    ensures first { IfOk result (λ s. s ≡ first_state (sizes m.now.vars) (states_in (sizes m.now.vars) sys.old.space.levels (set_at sys.old.space.sets set))) }
    ensures kept { OnOk result (sys.new ≡ sys.old) }
    ensures err { IfErr result (λ e. IsCallFault sys.old.space sys.new.space e) }
    ensures same { sys.new ≡ record sys.old { space = sys.new.space } }
{
    first_in(alloc, m.model(), &sys.plan, &mut sys.space, set)
}
