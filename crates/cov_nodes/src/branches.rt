ghost use Rattle.std.specs.Prelude.{◌≡◌, ◌<◌, ◌≤◌, ◌+◌, ◌*◌, ◌||◌, length, false, if◌then◌else◌, List, OnOk, IfErr};
ghost use Rattle.cov_syntax.specs.declared.tree.Value as value;
ghost use Rattle.cov_model.specs.declared.model.Model as model;
ghost use Rattle.cov_space.specs.Sets.{HasRoom, set_at};
ghost use Rattle.cov_space.specs.Answers.{IsCallFault};
ghost use Rattle.cov_nodes.specs.Choices.{Choice, IsFamily, PutsFamily, is_true_at, ones};
ghost use Rattle.cov_nodes.specs.declared.reading.Reading as reading;

use cov_families::put_if;
use cov_space::{Slot, Space, SpaceFault};

/// Puts the empty set: the family of what has no choice.
pub fn put_none(sp: &mut Space)
    requires room { HasRoom sp.old 1 }
    ensures { (m : model.Model) (at : reading.Reading) (xs : List value.Value) → PutsFamily sp.old sp.new m at xs (λ p z. false) }
{
    sp.constant(false);
}

/// Puts the choices of both.
pub fn put_either(sp: &mut Space, a: Slot, b: Slot) -> Result<(), SpaceFault>
    requires a { a < length sp.old.sets }
    requires b { b < length sp.old.sets }
    requires room { HasRoom sp.old 8 }
    ensures ok { (m : model.Model) (at : reading.Reading) (xs : List value.Value) (f g : Choice) → IsFamily sp.old.levels m at xs f (set_at sp.old.sets a) → IsFamily sp.old.levels m at xs g (set_at sp.old.sets b)
        → OnOk result (PutsFamily sp.old sp.new m at xs (λ p z. f p z || g p z)) }
    ensures err { IfErr result (λ e. IsCallFault sp.old sp.new e) }
{
    sp.or(a, b)
}

/// Puts the choices of a branch where its guard is TRUE, and the others elsewhere.
pub fn put_branch(sp: &mut Space, guard: Slot, body: Slot, other: Slot) -> Result<(), SpaceFault>
    requires guard { guard < length sp.old.sets }
    requires body { body < length sp.old.sets }
    requires other { other < length sp.old.sets }
    requires room { HasRoom sp.old 8 }
    ensures ok { (m : model.Model) (at : reading.Reading) (xs : List value.Value) (h f g : Choice) → IsFamily sp.old.levels m at ones h (set_at sp.old.sets guard)
        → IsFamily sp.old.levels m at xs f (set_at sp.old.sets body) → IsFamily sp.old.levels m at xs g (set_at sp.old.sets other)
        → OnOk result (PutsFamily sp.old sp.new m at xs (λ p z. if is_true_at h p then f p z else g p z)) }
    ensures err { IfErr result (λ e. IsCallFault sp.old sp.new e) }
{
    put_if(sp, guard, body, other)
}
