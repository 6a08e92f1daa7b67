ghost use Rattle.std.specs.Prelude.{◌≡◌, ◌<◌, ◌≤◌, ◌+◌, length, not, IsTrue, OnOk, IfErr};
ghost use Rattle.cov_model.specs.declared.model.Model as model;
ghost use Rattle.cov_space.specs.Sets.{HasRoom, set_at};
ghost use Rattle.cov_space.specs.Steps.{Leaves};
ghost use Rattle.cov_nodes.specs.Choices.{Choice, IsChunk, IsFamily, PutsFamily, is_logic, is_true_at, of_truth, ones};
ghost use Rattle.cov_nodes.specs.declared.reading.Reading as reading;
ghost use Rattle.cov_expressions.specs.Parts.{cut_to, logic_choice};

use cov_nodes::{put_logic, put_not, put_truth_values};
use cov_space::{Slot, Space, SpaceFault};
use cov_syntax::{Op2, Value};

/// TRUE alone: the family of something over it is the set of points at which it may be TRUE.
pub(crate) const ONES: [Value; 1] = [Value::Bool(true)];

/// Turns the last set, of the points at which something is TRUE, into the family of its truth over these values.
pub(crate) fn finish_truth(sp: &mut Space, n: Slot, xs: &[Value]) -> Result<(), SpaceFault>
    requires last { n < length sp.old.sets }
    requires chunk { IsChunk sp.old.levels xs.now }
    requires room { HasRoom sp.old 12 }
    ensures ok { (m : model.Model) (at : reading.Reading) (f : Choice) → IsFamily sp.old.levels m at ones f (set_at sp.old.sets n)
        → OnOk result (PutsFamily (cut_to n sp.old) sp.new m at xs.now (of_truth (is_true_at f))) }
    ensures err { IfErr result (λ e. Leaves (cut_to n sp.old) sp.new e) }
{
    put_truth_values(sp, n, xs)?;
    sp.settle(n);
    Ok(())
}

/// Turns the set at `n`, of the points at which the operand is TRUE, into the family of NOT.
pub(crate) fn finish_not(sp: &mut Space, n: Slot, xs: &[Value]) -> Result<(), SpaceFault>
    requires last { n < length sp.old.sets }
    requires chunk { IsChunk sp.old.levels xs.now }
    requires room { HasRoom sp.old 12 }
    ensures ok { (m : model.Model) (at : reading.Reading) (f : Choice) → IsFamily sp.old.levels m at ones f (set_at sp.old.sets n)
        → OnOk result (PutsFamily (cut_to n sp.old) sp.new m at xs.now (of_truth (λ p. not (is_true_at f p)))) }
    ensures err { IfErr result (λ e. Leaves (cut_to n sp.old) sp.new e) }
{
    put_not(sp, n)?;
    sp.settle(n);
    finish_truth(sp, n, xs)
}

/// Turns the sets at `n` and behind it, of the points at which the sides are TRUE, into the family of the operator.
pub(crate) fn finish_logic(sp: &mut Space, n: Slot, op: Op2, xs: &[Value]) -> Result<(), SpaceFault>
    requires op { IsTrue (is_logic op) }
    requires last { n + 1 < length sp.old.sets }
    requires chunk { IsChunk sp.old.levels xs.now }
    requires room { HasRoom sp.old 12 }
    ensures ok { (m : model.Model) (at : reading.Reading) (f g : Choice) → IsFamily sp.old.levels m at ones f (set_at sp.old.sets n) → IsFamily sp.old.levels m at ones g (set_at sp.old.sets (n + 1))
        → OnOk result (PutsFamily (cut_to n sp.old) sp.new m at xs.now (logic_choice op f g)) }
    ensures err { IfErr result (λ e. Leaves (cut_to n sp.old) sp.new e) }
{
    let _sets = sp.sets();
    put_logic(sp, op, n, n + 1)?;
    sp.settle(n);
    finish_truth(sp, n, xs)
}
