ghost use Rattle.std.specs.Prelude.{◌≡◌, ◌≤◌, ◌+◌, ◌*◌, length, OnOk, IfErr};
ghost use Rattle.cov_bits.specs.Layout as layout;
ghost use Rattle.cov_space.specs.Sets.{HasRoom};
ghost use Rattle.cov_space.specs.Answers.{PutsSet, IsCallFault};
ghost use Rattle.cov_space.specs.Steps.{Leaves};
ghost use Rattle.cov_places.specs.Places.{typed_set};

use crate::below::meet_below;
use crate::field::field_from;
use cov_bits::Plan;
use cov_model::Model;
use cov_space::{Layer, Space, SpaceFault};

/// Puts the rows whose state on the layer is typed. Where that is refused, what it made stays behind the sets of before.
fn typed_steps(sp: &mut Space, m: &Model, plan: &Plan, layer: Layer) -> Result<(), SpaceFault>
    requires plan { plan.now ≡ layout.sizes m.now.vars }
    requires levels { sp.old.levels ≡ 3 * layout.bits plan.now }
    requires room { HasRoom sp.old 12 }
    ensures ok { OnOk result (PutsSet sp.old sp.new (typed_set sp.old.levels plan.now layer)) }
    ensures err { IfErr result (λ e. Leaves sp.old sp.new e) }
{
    let n = sp.sets();
    let _bits = plan.bits();
    sp.constant(true);
    let mut first = 0;
    for x in m.vars.as_slice() {
        let size = x.values.len() as u16;
        let field = field_from(layer, first, size);
        meet_below(sp, n, field, size)?;
        first += field.width;
    }
    Ok(())
}

/// Puts the rows whose state on the layer is typed.
pub fn put_typed(sp: &mut Space, m: &Model, plan: &Plan, layer: Layer) -> Result<(), SpaceFault>
    requires plan { plan.now ≡ layout.sizes m.now.vars }
    requires levels { sp.old.levels ≡ 3 * layout.bits plan.now }
    requires room { HasRoom sp.old 12 }
    ensures ok { OnOk result (PutsSet sp.old sp.new (typed_set sp.old.levels plan.now layer)) }
    ensures err { IfErr result (λ e. IsCallFault sp.old sp.new e) }
{
    let n = sp.sets();
    match typed_steps(sp, m, plan, layer) {
        Ok(()) => Ok(()),
        Err(fault) => {
            sp.cut(n);
            Err(fault)
        }
    }
}
