ghost use Rattle.std.specs.Prelude.{◌≡◌, ◌<◌, ◌≤◌, ◌+◌, ◌*◌, ◌∷◌, [], length, OnOk, IfErr};
ghost use Rattle.cov_bits.specs.Layout as layout;
ghost use Rattle.cov_image.specs.Stacks.{below};
ghost use Rattle.cov_space.specs.Answers.{PutsSet};
ghost use Rattle.cov_space.specs.Sets.{set_at, HasRoom};
ghost use Rattle.cov_space.specs.Steps.{with_more, Leaves};
ghost use Rattle.cov_sym.specs.Pairs.{differing_set, joined_at};

use cov_bits::Plan;
use cov_space::{Slot, Space, SpaceFault};

/// Joins to the last set, which stands at `n`, the rows whose states on layers W and V differ at a bit.
fn join_bit(sp: &mut Space, n: Slot, b: u16) -> Result<(), SpaceFault>
    requires last { length sp.old.sets ≡ n + 1 }
    requires bit { 3 * b + 2 < sp.old.levels }
    requires room { n + 8 ≤ sp.old.places }
    ensures ok { OnOk result (sp.new ≡ with_more (below sp.old n) (joined_at sp.old.levels b (set_at sp.old.sets n) ∷ [])) }
    ensures err { IfErr result (λ e. Leaves (below sp.old n) sp.new e) }
{
    let _sets = sp.sets();
    let _levels = sp.levels();
    sp.bit(3 * b)?;
    sp.bit(3 * b + 1)?;
    sp.xor(n + 1, n + 2)?;
    sp.or(n, n + 3)?;
    sp.settle(n);
    Ok(())
}

/// Puts the pairs of two states that differ, from the last bit up: each step then works on the top of the diagram.
pub(crate) fn put_differing(sp: &mut Space, plan: &Plan) -> Result<(), SpaceFault>
    requires levels { sp.old.levels ≡ 3 * layout.bits plan.now }
    requires room { HasRoom sp.old 8 }
    ensures ok { OnOk result (PutsSet sp.old sp.new (differing_set sp.old.levels plan.now)) }
    ensures err { IfErr result (λ e. Leaves sp.old sp.new e) }
{
    let n = sp.sets();
    sp.constant(false);
    let mut b = plan.bits() as u16;
    while b > 0 {
        b -= 1;
        join_bit(sp, n, b)?;
    }
    Ok(())
}
