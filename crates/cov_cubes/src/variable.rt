ghost use Rattle.std.specs.Prelude.{◌≡◌, ◌<◌, length, IfSome};
ghost use Rattle.cov_bits.specs.Layout as layout;

use cov_bits::Plan;
use cov_fields::{Field, field_of};
use cov_model::Model;
use cov_space::Layer;

/// The bits of a variable on layer V, and how many values it has.
#[derive(Clone, Copy)]
pub(crate) struct Variable {
    pub field: Field,
    pub size: u16,
}

ghost use Rattle.cov_cubes.specs.Rests.{IsVariable};

/// A variable of the model. None where its place is no `u32`.
pub(crate) fn variable_at(m: &Model, plan: &Plan, place: usize) -> Option<Variable>
    requires plan { plan.now ≡ layout.sizes m.now.vars }
    requires place { place < length m.now.vars }
    ensures { IfSome result (IsVariable plan.now place) }
{
    let _bits = plan.bits();
    let Ok(var) = u32::try_from(place) else {
        return None;
    };
    Some(Variable {
        field: field_of(plan, var, Layer::V),
        size: m.vars.get(place).values.len() as u16,
    })
}
