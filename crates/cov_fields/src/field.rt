ghost use Rattle.std.specs.Prelude.{◌≡◌, ◌<◌, ◌≤◌, ◌*◌, ◌+◌, length};
ghost use Rattle.cov_space.specs.Layers.{place_of};
ghost use Rattle.cov_bits.specs.Layout as layout;

use cov_bits::Plan;
use cov_space::Layer;

/// The bits of a variable on a layer: bit i is at the level of bit `first + i` of that layer, the most significant one first.
#[derive(Clone, Copy)]
pub struct Field {
    pub layer: Layer,
    pub first: u16,
    pub width: u16,
}

/// The level of bit 0 of a layer.
fn place(layer: Layer) -> u16
    ensures { result ≡ place_of layer }
{
    match layer {
        Layer::W => 0,
        Layer::V => 1,
        Layer::N => 2,
    }
}

impl Field {
    ghost use Rattle.cov_fields.specs.Fields.{level_of};

    /// The level of a bit.
    pub(crate) fn level(self, i: u16) -> u16
        requires { level_of self i < 65536 }
        ensures { result ≡ level_of self i }
    {
        3 * (self.first + i) + place(self.layer)
    }
}

ghost use Rattle.cov_fields.specs.Fields as spec;

/// The field of a variable of the plan on a layer.
pub fn field_of(plan: &Plan, var: u32, layer: Layer) -> Field
    requires { var < length plan.now }
    ensures is { result ≡ spec.field_of plan.now var layer }
    ensures fits { spec.IsField (3 * layout.bits plan.now) (spec.field_of plan.now var layer) }
{
    let _bits = plan.bits();
    Field {
        layer,
        first: plan.first(var) as u16,
        width: plan.width(var) as u16,
    }
}
