ghost use Rattle.std.specs.Prelude.{◌≡◌};
ghost use Rattle.cov_sym.specs.Rules.{IsReadable};

use cov_model::Model;
use cov_ranges::lists_stand;
use cov_readings::{conditions_are_single, expressions_are_shallow};
use cov_types::Checked;

/// The model, whose conditions and assignments can be put as sets.
pub(crate) fn readable(m: &Checked) -> &Model
    ensures value { result.now ≡ m.now }
    ensures readable { IsReadable m.now }
{
    let model = m.model();
    lists_stand();
    expressions_are_shallow();
    conditions_are_single();
    model
}
