ghost use Rattle.std.specs.Prelude.{◌≡◌, ◌<◌, ◌≤◌, ◌+◌, ◌%◌, ◌++◌, ◌∷◌, [], false, length, take, OnOk, IfErr};
ghost use Rattle.cov_space.specs.Sets.{set_at};
ghost use Rattle.cov_space.specs.Operations.{restriction};
ghost use Rattle.cov_space.specs.Layers.{shift_set};
ghost use Rattle.cov_space.specs.Answers.{IsCallFault};
ghost use Rattle.cov_space.specs.Steps.{with_more, Leaves, mask_of, moved_bit};

use crate::fault::SpaceFault;
use crate::layer::Layer;
use crate::space::Space;
use crate::steps::{put_cofactors, put_with};
use crate::task::Task;
use cov_dd::Op;

/// Reads the last set, which stands at `n`, on another layer, bit by bit. Where that is refused, the set goes.
pub fn shift_bits(space: &mut Space, n: u32, from: Layer, to: Layer) -> Result<(), SpaceFault>
    requires last { length space.old.sets ≡ n + 1 }
    requires room { n + 4 ≤ space.old.places }
    ensures thirds { space.old.levels % 3 ≡ 0 }
    ensures ok { OnOk result (space.new ≡ record space.old { sets = take n space.old.sets ++ shift_set space.old.levels from to (set_at space.old.sets n) ∷ [] }) }
    ensures err { IfErr result (λ e. IsCallFault (record space.old { sets = take n space.old.sets }) space.new e) }
{
    let _sets = space.sets();
    let bits = space.levels() / 3;
    let (first, second) = (from.place(), to.place());
    for b in 0..bits {
        if let Err(fault) = shift_bit(space, n, 3 * b + first, 3 * b + second) {
            space.cut(n);
            return Err(fault);
        }
    }
    Ok(())
}

/// Reads the bit of one level at another in the last set, which stands at `n`.
fn shift_bit(space: &mut Space, n: u32, from: u16, to: u16) -> Result<(), SpaceFault>
    requires last { length space.old.sets ≡ n + 1 }
    requires room { n + 4 ≤ space.old.places }
    requires from { from < space.old.levels }
    requires to { to < space.old.levels }
    ensures ok { OnOk result (space.new ≡ record space.old { sets = take n space.old.sets ++ moved_bit space.old.levels from to (set_at space.old.sets n) ∷ [] }) }
    ensures err { IfErr result (λ e. IsCallFault space.old space.new e) }
{
    let _sets = space.sets();
    match shift_steps(space, n, from, to) {
        Ok(()) => {
            space.settle(n);
            Ok(())
        }
        Err(fault) => {
            space.cut(n + 1);
            Err(fault)
        }
    }
}

/// The steps of one bit: `f0 ^ (to & (f0 ^ f1))` with the cofactors f0 and f1 at `from`.
fn shift_steps(space: &mut Space, n: u32, from: u16, to: u16) -> Result<(), SpaceFault>
    requires last { length space.old.sets ≡ n + 1 }
    requires room { n + 4 ≤ space.old.places }
    requires from { from < space.old.levels }
    requires to { to < space.old.levels }
    ensures ok { OnOk result (space.new ≡ with_more space.old (mask_of space.old.levels from to (set_at space.old.sets n) ∷ restriction space.old.levels (set_at space.old.sets n) from false ∷ moved_bit space.old.levels from to (set_at space.old.sets n) ∷ [])) }
    ensures err { IfErr result (λ e. Leaves space.old space.new e) }
{
    let _sets = space.sets();
    put_cofactors(space, n, from, Op::Xor)?;
    space.settle(n + 1);
    put_with(space, n + 1, Task::Bit(to), Op::And)?;
    space.settle(n + 1);
    put_with(space, n + 1, Task::Restrict(n, from, false), Op::Xor)
}
