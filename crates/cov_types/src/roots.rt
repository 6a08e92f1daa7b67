ghost use Rattle.std.specs.Prelude.{◌≡◌, ◌≤◌, ◌<◌, ◌+◌, ◌*◌, ◌^◌, IfOk};
ghost use Rattle.cov_types.specs.Checking.{IsChecked};
ghost use Rattle.cov_types.specs.Roots as spec;

use crate::counts::{constraints, define_sets, greatest_size, state_bits, widest_variable};
use crate::extents::extent_of;
use cov_kinds::KindTable;
use cov_model::Model;
use cov_syntax::NoMemory;
use std::alloc::Global;

/// The number of sets that the engine may hold at one time for a checked model.
pub(crate) fn roots_of(alloc: Global, m: &Model, kinds: &KindTable) -> Result<u32, NoMemory>
    requires { IsChecked m.now kinds.now }
    ensures value { IfOk result (λ r. r ≡ spec.roots m.now) }
    ensures bound { IfOk result (λ r. r < 2 ^ 32) }
{
    let defines = define_sets(alloc, kinds, &m.defines)?;
    let extent = extent_of(alloc, m, kinds)?;
    let width = widest_variable(&m.vars).max(extent.width).max(2);
    let bits = state_bits(&m.vars);
    let listed = constraints(m) + m.fair.len() as u32;
    let size = greatest_size(&m.specs);
    let deep = sets_on_a_path(width, extent.depth);
    Ok(64 + 2 * bits + 2 * defines + listed + 8 * size + deep)
}

/// The sets that stand while one expression is computed: some for each node on a path of its tree.
fn sets_on_a_path(width: u32, depth: u32) -> u32
    requires narrow { width ≤ 1024 }
    requires shallow { depth ≤ 1000001 }
    ensures value { result ≡ (3 * width + 4) * (depth + 1) }
    ensures bound { result ≤ 3076006152 }
{
    (3 * width + 4) * (depth + 1)
}
