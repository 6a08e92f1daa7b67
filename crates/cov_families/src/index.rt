ghost use Rattle.std.specs.Prelude.{◌≡◌, ◌<◌, ◌≤◌};
ghost use Rattle.cov_families.specs.Families as spec;

use cov_fields::Field;
use cov_space::Layer;

/// The bits on layer W that number so many values, the most significant one at level 0.
pub fn index_of(count: u16) -> Field
    requires some { 0 < count }
    requires few { count ≤ 1024 }
    ensures { result ≡ spec.index_of count }
{
    Field {
        layer: Layer::W,
        first: 0,
        width: (u16::BITS - (count - 1).leading_zeros()) as u16,
    }
}
