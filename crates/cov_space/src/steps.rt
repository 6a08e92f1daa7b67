ghost use Rattle.std.specs.Prelude.{◌≡◌, ◌<◌, ◌≤◌, ◌+◌, ◌∷◌, [], true, false, length, OnOk, IfErr};
ghost use Rattle.cov_space.specs.Sets.{set_at};
ghost use Rattle.cov_space.specs.Operations.{restriction};
ghost use Rattle.cov_space.specs.Tasks.{IsTask, asked_set};
ghost use Rattle.cov_space.specs.Steps.{with_more, Leaves, paired};

use crate::fault::SpaceFault;
use crate::space::Space;
use crate::task::Task;
use cov_dd::Op;

/// Puts behind the last set, which stands at `n`, its two cofactors at a level and what the operation makes of these.
pub fn put_cofactors(space: &mut Space, n: u32, level: u16, op: Op) -> Result<(), SpaceFault>
    requires last { length space.old.sets ≡ n + 1 }
    requires room { n + 4 ≤ space.old.places }
    requires level { level < space.old.levels }
    ensures ok { OnOk result (space.new ≡ with_more space.old (restriction space.old.levels (set_at space.old.sets n) level false ∷ restriction space.old.levels (set_at space.old.sets n) level true ∷ paired op space.old.levels (restriction space.old.levels (set_at space.old.sets n) level false) (restriction space.old.levels (set_at space.old.sets n) level true) ∷ [])) }
    ensures err { IfErr result (λ e. Leaves space.old space.new e) }
{
    let _sets = space.sets();
    space.basic(Task::Restrict(n, level, false))?;
    space.basic(Task::Restrict(n, level, true))?;
    space.basic(Task::Apply(op, n + 1, n + 2))
}

/// Puts a set behind the last one, which stands at `n`, and behind both what the operation makes of them.
pub fn put_with(space: &mut Space, n: u32, task: Task, op: Op) -> Result<(), SpaceFault>
    requires last { length space.old.sets ≡ n + 1 }
    requires room { n + 3 ≤ space.old.places }
    requires task { IsTask space.old.levels (length space.old.sets) task }
    ensures ok { OnOk result (space.new ≡ with_more space.old (asked_set space.old.levels space.old.sets task ∷ paired op space.old.levels (set_at space.old.sets n) (asked_set space.old.levels space.old.sets task) ∷ [])) }
    ensures err { IfErr result (λ e. Leaves space.old space.new e) }
{
    let _sets = space.sets();
    space.basic(task)?;
    space.basic(Task::Apply(op, n, n + 1))
}
