ghost use Rattle.std.specs.Prelude.{◌≡◌, ◌<◌, ◌≤◌, ◌+◌, ◌||◌, length, List, if◌then◌else◌, OnOk, IfErr};
ghost use Rattle.cov_syntax.specs.declared.tree.Value as value;
ghost use Rattle.cov_model.specs.declared.model.Model as model;
ghost use Rattle.cov_space.specs.Sets.{HasRoom, set_at};
ghost use Rattle.cov_space.specs.Steps.{Leaves};
ghost use Rattle.cov_nodes.specs.Choices.{Choice, IsFamily, PutsFamily, is_true_at, ones};
ghost use Rattle.cov_nodes.specs.declared.reading.Reading as reading;
ghost use Rattle.cov_expressions.specs.Parts.{cut_to};

use cov_nodes::{put_branch, put_either};
use cov_space::{Slot, Space, SpaceFault};

/// Turns the sets at `n` and behind it into the family of the choices of both.
pub(crate) fn finish_either(sp: &mut Space, n: Slot) -> Result<(), SpaceFault>
    requires last { n + 1 < length sp.old.sets }
    requires room { HasRoom sp.old 8 }
    ensures ok { (m : model.Model) (at : reading.Reading) (xs : List value.Value) (f g : Choice) → IsFamily sp.old.levels m at xs f (set_at sp.old.sets n) → IsFamily sp.old.levels m at xs g (set_at sp.old.sets (n + 1))
        → OnOk result (PutsFamily (cut_to n sp.old) sp.new m at xs (λ p z. f p z || g p z)) }
    ensures err { IfErr result (λ e. Leaves (cut_to n sp.old) sp.new e) }
{
    let _sets = sp.sets();
    put_either(sp, n, n + 1)?;
    sp.settle(n);
    Ok(())
}

/// Turns the set of the later branches, at `n`, and those of a guard and of its body behind it, into the family of them all.
pub(crate) fn finish_branch(sp: &mut Space, n: Slot) -> Result<(), SpaceFault>
    requires last { n + 2 < length sp.old.sets }
    requires room { HasRoom sp.old 8 }
    ensures ok { (m : model.Model) (at : reading.Reading) (xs : List value.Value) (h f g : Choice) → IsFamily sp.old.levels m at xs g (set_at sp.old.sets n)
        → IsFamily sp.old.levels m at ones h (set_at sp.old.sets (n + 1)) → IsFamily sp.old.levels m at xs f (set_at sp.old.sets (n + 2))
        → OnOk result (PutsFamily (cut_to n sp.old) sp.new m at xs (λ p z. if is_true_at h p then f p z else g p z)) }
    ensures err { IfErr result (λ e. Leaves (cut_to n sp.old) sp.new e) }
{
    let _sets = sp.sets();
    put_branch(sp, n + 1, n + 2, n)?;
    sp.settle(n);
    Ok(())
}
