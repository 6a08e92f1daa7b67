ghost use Rattle.std.specs.Prelude.{◌≡◌, ◌<◌, ◌≤◌, ◌+◌, ◌*◌, ◌∷◌, ◌↔◌, [], length, IsTrue, OnOk, IfErr};
ghost use Rattle.cov_bits.specs.Layout as layout;
ghost use Rattle.cov_space.specs.Layers.{place_of};
ghost use Rattle.cov_space.specs.Operations.{intersection};
ghost use Rattle.cov_space.specs.Sets.{HasRoom, set_at};
ghost use Rattle.cov_space.specs.Steps.{Leaves, with_more};
ghost use Rattle.cov_places.specs.Places.{typed_set};
ghost use Rattle.cov_conditions.specs.Fixed as spec;

use cov_bits::Plan;
use cov_model::Model;
use cov_nodes::Reading;
use cov_places::put_typed;
use cov_space::{Layer, Slot, Space, SpaceFault};

/// Keeps of the last set the rows whose state on the layer is typed.
pub(crate) fn narrow(
    sp: &mut Space,
    m: &Model,
    plan: &Plan,
    n: Slot,
    layer: Layer,
) -> Result<(), SpaceFault>
    requires plan { plan.now ≡ layout.sizes m.now.vars }
    requires levels { sp.old.levels ≡ 3 * layout.bits plan.now }
    requires last { length sp.old.sets ≡ n + 1 }
    requires room { HasRoom sp.old 12 }
    ensures ok { OnOk result (sp.new ≡ with_more (spec.first_sets sp.old n) (intersection sp.old.levels (set_at sp.old.sets n) (typed_set sp.old.levels plan.now layer) ∷ [])) }
    ensures err { IfErr result (λ f. Leaves (spec.first_sets sp.old n) sp.new f) }
{
    let _sets = sp.sets();
    put_typed(sp, m, plan, layer)?;
    sp.and(n, n + 1)?;
    sp.settle(n);
    Ok(())
}

/// Whether one state stands for both.
pub(crate) fn is_one(at: Reading) -> bool
    ensures { IsTrue result ↔ (at.next ≡ at.present) }
{
    at.next == at.present
}

/// Keeps of the last set the rows that name typed states.
pub(crate) fn narrow_to_points(
    sp: &mut Space,
    m: &Model,
    plan: &Plan,
    n: Slot,
    at: Reading,
) -> Result<(), SpaceFault>
    requires plan { plan.now ≡ layout.sizes m.now.vars }
    requires levels { sp.old.levels ≡ 3 * layout.bits plan.now }
    requires last { length sp.old.sets ≡ n + 1 }
    requires room { HasRoom sp.old 12 }
    ensures ok { OnOk result (sp.new ≡ with_more (spec.first_sets sp.old n) (spec.typed_part sp.old.levels m.now at (set_at sp.old.sets n) ∷ [])) }
    ensures err { IfErr result (λ f. Leaves (spec.first_sets sp.old n) sp.new f) }
{
    narrow(sp, m, plan, n, at.present)?;
    if is_one(at) {
        return Ok(());
    }
    narrow(sp, m, plan, n, at.next)
}

/// The level of bit 0 of a layer.
fn place(layer: Layer) -> u16
    ensures is { result ≡ place_of layer }
    ensures below { result < 3 }
{
    match layer {
        Layer::W => 0,
        Layer::V => 1,
        Layer::N => 2,
    }
}

/// Makes the last set independent of a layer: the rows that would lie in it with the first value of each variable there.
pub(crate) fn clear(sp: &mut Space, plan: &Plan, n: Slot, layer: Layer) -> Result<(), SpaceFault>
    requires levels { sp.old.levels ≡ 3 * layout.bits plan.now }
    requires last { length sp.old.sets ≡ n + 1 }
    requires room { HasRoom sp.old 5 }
    ensures ok { OnOk result (sp.new ≡ with_more (spec.first_sets sp.old n) (spec.cleared_set sp.old.levels layer (layout.bits plan.now) (set_at sp.old.sets n) ∷ [])) }
    ensures err { IfErr result (λ f. Leaves (spec.first_sets sp.old n) sp.new f) }
{
    let _sets = sp.sets();
    let place = place(layer);
    let bits = plan.bits() as u16;
    for b in 0..bits {
        sp.restrict(n, 3 * b + place, false)?;
        sp.settle(n);
    }
    Ok(())
}
