ghost use Rattle.std.specs.Prelude.{◌≡◌, ◌<◌, ◌≤◌, ◌+◌, ◌*◌, length, not, IsTrue, OnOk, IfErr};
ghost use Rattle.cov_syntax.specs.declared.tree.Value.TheVariants as v;
ghost use Rattle.cov_model.specs.declared.model.Model as model;
ghost use Rattle.cov_model.specs.Values as values;
ghost use Rattle.cov_space.specs.Sets.{HasRoom, set_at};
ghost use Rattle.cov_space.specs.Answers.{IsCallFault, PutsSet};
ghost use Rattle.cov_space.specs.Steps.{Leaves};
ghost use Rattle.cov_nodes.specs.Choices.{Choice, IsChunk, IsFamily, PutsFamily, is_logic, is_true_at, of_truth, ones};
ghost use Rattle.cov_nodes.specs.Steps.{one_of_set, rest_set};
ghost use Rattle.cov_nodes.specs.declared.reading.Reading as reading;

use crate::places::place_in;
use cov_families::put_choice;
use cov_space::{Slot, Space, SpaceFault};
use cov_syntax::{Op2, Value};

/// Puts the points at which the operand is not TRUE.
pub fn put_not(sp: &mut Space, a: Slot) -> Result<(), SpaceFault>
    requires a { a < length sp.old.sets }
    requires room { HasRoom sp.old 8 }
    ensures ok { (m : model.Model) (at : reading.Reading) (f : Choice) → IsFamily sp.old.levels m at ones f (set_at sp.old.sets a)
        → OnOk result (PutsFamily sp.old sp.new m at ones (of_truth (λ p. not (is_true_at f p)))) }
    ensures err { IfErr result (λ e. IsCallFault sp.old sp.new e) }
{
    sp.not(a)
}

/// Puts the points at which an operator of logic makes TRUE of its sides.
pub fn put_logic(sp: &mut Space, op: Op2, a: Slot, b: Slot) -> Result<(), SpaceFault>
    requires op { IsTrue (is_logic op) }
    requires a { a < length sp.old.sets }
    requires b { b < length sp.old.sets }
    requires room { HasRoom sp.old 8 }
    ensures ok { (m : model.Model) (at : reading.Reading) (f g : Choice) → IsFamily sp.old.levels m at ones f (set_at sp.old.sets a) → IsFamily sp.old.levels m at ones g (set_at sp.old.sets b)
        → OnOk result (PutsFamily sp.old sp.new m at ones (of_truth (λ p. values.truth (values.operated values.whole op (v.Bool (is_true_at f p)) (v.Bool (is_true_at g p)))))) }
    ensures err { IfErr result (λ e. IsCallFault sp.old sp.new e) }
{
    match op {
        Op2::And => sp.and(a, b),
        Op2::Or => sp.or(a, b),
        Op2::Xor => sp.xor(a, b),
        Op2::Implies => put_rest(sp, a, b, false),
        _ => put_rest(sp, a, b, true),
    }
}

/// Puts the rows that are in one of the sets at least, or in one alone.
fn put_one_of(sp: &mut Space, a: Slot, b: Slot, alone: bool) -> Result<(), SpaceFault>
    requires a { a < length sp.old.sets }
    requires b { b < length sp.old.sets }
    requires room { HasRoom sp.old 4 }
    ensures ok { OnOk result (PutsSet sp.old sp.new (one_of_set sp.old.levels alone (set_at sp.old.sets a) (set_at sp.old.sets b))) }
    ensures err { IfErr result (λ e. IsCallFault sp.old sp.new e) }
{
    if alone { sp.xor(a, b) } else { sp.or(a, b) }
}

/// The steps of `put_rest`. Where one is refused, the sets of those before it are left.
fn rest_steps(sp: &mut Space, a: Slot, b: Slot, alone: bool) -> Result<(), SpaceFault>
    requires a { a < length sp.old.sets }
    requires b { b < length sp.old.sets }
    requires room { HasRoom sp.old 8 }
    ensures ok { OnOk result (PutsSet sp.old sp.new (rest_set sp.old.levels alone (set_at sp.old.sets a) (set_at sp.old.sets b))) }
    ensures err { IfErr result (λ e. Leaves sp.old sp.new e) }
{
    let n = sp.sets();
    sp.not(a)?;
    put_one_of(sp, n, b, alone)?;
    sp.settle(n);
    Ok(())
}

/// Puts the rows outside the first set or in the second, or those for which one of these alone is true.
fn put_rest(sp: &mut Space, a: Slot, b: Slot, alone: bool) -> Result<(), SpaceFault>
    requires a { a < length sp.old.sets }
    requires b { b < length sp.old.sets }
    requires room { HasRoom sp.old 8 }
    ensures ok { OnOk result (PutsSet sp.old sp.new (rest_set sp.old.levels alone (set_at sp.old.sets a) (set_at sp.old.sets b))) }
    ensures err { IfErr result (λ e. IsCallFault sp.old sp.new e) }
{
    let n = sp.sets();
    match rest_steps(sp, a, b, alone) {
        Ok(()) => Ok(()),
        Err(fault) => {
            sp.cut(n);
            Err(fault)
        }
    }
}

/// Puts the family over these values of what is TRUE at the points of the set, and FALSE at the others.
pub fn put_truth_values(sp: &mut Space, a: Slot, xs: &[Value]) -> Result<(), SpaceFault>
    requires a { a < length sp.old.sets }
    requires chunk { IsChunk sp.old.levels xs.now }
    requires room { HasRoom sp.old 12 }
    ensures ok { (m : model.Model) (at : reading.Reading) (f : Choice) → IsFamily sp.old.levels m at ones f (set_at sp.old.sets a)
        → OnOk result (PutsFamily sp.old sp.new m at xs.now (of_truth (is_true_at f))) }
    ensures err { IfErr result (λ e. IsCallFault sp.old sp.new e) }
{
    let inside = place_in(xs, Value::Bool(true));
    let outside = place_in(xs, Value::Bool(false));
    put_choice(sp, a, xs.len() as u16, inside, outside)
}
