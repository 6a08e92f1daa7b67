ghost use Rattle.std.specs.Prelude.{◌≡◌, ◌<◌};
ghost use Rattle.cov_bits.specs.Layout as layout;

use cov_fields::Field;
use cov_space::Layer;

/// The bits of a variable with so many values, from a first one of the layer on.
pub(crate) fn field_from(layer: Layer, first: u16, size: u16) -> Field
    requires { 0 < size }
    ensures { result ≡ record { layer = layer; first = first; width = layout.width size } }
{
    let width = u16::BITS - (size - 1).leading_zeros();
    Field {
        layer,
        first,
        width: width as u16,
    }
}
