ghost use Rattle.std.specs.Prelude.{◌≡◌, ◌<◌, ◌≤◌, ◌+◌, ◌++◌, ◌∷◌, [], length, take, OnOk, IfErr};
ghost use Rattle.cov_space.specs.Sets.{set_at};
ghost use Rattle.cov_space.specs.Operations.{projection, AllBelow};
ghost use Rattle.cov_space.specs.Answers.{IsCallFault};
ghost use Rattle.cov_space.specs.Steps.{smoothed};

use crate::fault::SpaceFault;
use crate::space::Space;
use crate::steps::put_cofactors;
use cov_dd::Op;

/// Quantifies the last set, which stands at `n`, over the bits of the levels. Where that is refused, the set goes.
pub fn quantify(space: &mut Space, n: u32, levels: &[u16]) -> Result<(), SpaceFault>
    requires last { length space.old.sets ≡ n + 1 }
    requires room { n + 4 ≤ space.old.places }
    requires levels { AllBelow space.old.levels levels.now }
    ensures ok { OnOk result (space.new ≡ record space.old { sets = take n space.old.sets ++ projection space.old.levels levels.now (set_at space.old.sets n) ∷ [] }) }
    ensures err { IfErr result (λ e. IsCallFault (record space.old { sets = take n space.old.sets }) space.new e) }
{
    let _sets = space.sets();
    let mut i = levels.len();
    while i > 0 {
        i -= 1;
        if let Err(fault) = smooth(space, n, levels[i]) {
            space.cut(n);
            return Err(fault);
        }
    }
    Ok(())
}

/// Quantifies the last set, which stands at `n`, over the bit of one level.
fn smooth(space: &mut Space, n: u32, level: u16) -> Result<(), SpaceFault>
    requires last { length space.old.sets ≡ n + 1 }
    requires room { n + 4 ≤ space.old.places }
    requires level { level < space.old.levels }
    ensures ok { OnOk result (space.new ≡ record space.old { sets = take n space.old.sets ++ smoothed space.old.levels level (set_at space.old.sets n) ∷ [] }) }
    ensures err { IfErr result (λ e. IsCallFault space.old space.new e) }
{
    let _sets = space.sets();
    match put_cofactors(space, n, level, Op::Or) {
        Ok(()) => {
            space.settle(n);
            Ok(())
        }
        Err(fault) => {
            space.cut(n + 1);
            Err(fault)
        }
    }
}
