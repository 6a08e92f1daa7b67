ghost use Rattle.std.specs.Prelude.{◌≡◌, ◌≤◌, ◌<◌, ◌+◌, ◌∷◌, [], length, OnOk, IfErr};
ghost use Rattle.cov_image.specs.Stacks.{below};
ghost use Rattle.cov_space.specs.Operations.{complement, intersection};
ghost use Rattle.cov_space.specs.Sets.{set_at};
ghost use Rattle.cov_space.specs.Steps.{with_more, Leaves};

use cov_space::{Slot, Space, SpaceFault};

/// Exchanges the last set, which stands at `n`, for the rows of another set that are not in it.
pub(crate) fn keep_others(sp: &mut Space, n: Slot, set: Slot) -> Result<(), SpaceFault>
    requires last { length sp.old.sets ≡ n + 1 }
    requires set { set < n }
    requires room { n + 6 ≤ sp.old.places }
    ensures ok { OnOk result (sp.new ≡ with_more (below sp.old n) (intersection sp.old.levels (complement sp.old.levels (set_at sp.old.sets n)) (set_at sp.old.sets set) ∷ [])) }
    ensures err { IfErr result (λ e. Leaves (below sp.old n) sp.new e) }
{
    let _sets = sp.sets();
    sp.not(n)?;
    sp.and(n + 1, set)?;
    sp.settle(n);
    Ok(())
}
