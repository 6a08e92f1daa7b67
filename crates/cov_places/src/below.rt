ghost use Rattle.std.specs.Prelude.{◌≡◌, ◌≤◌, ◌+◌, ◌^◌, ◌∷◌, [], length, OnOk, IfErr};
ghost use Rattle.cov_space.specs.Sets.{set_at, HasRoom};
ghost use Rattle.cov_space.specs.Operations.{intersection};
ghost use Rattle.cov_space.specs.Answers.{PutsSet};
ghost use Rattle.cov_space.specs.Steps.{with_more, Leaves};
ghost use Rattle.cov_image.specs.Stacks.{below};
ghost use Rattle.cov_fields.specs.Fields.{IsField};
ghost use Rattle.cov_places.specs.Steps.{below_set};

use cov_fields::{Field, put_number};
use cov_space::{Slot, Space, SpaceFault};

/// Puts the rows that hold a number below `size` in the field.
fn put_below(sp: &mut Space, field: Field, size: u16) -> Result<(), SpaceFault>
    requires field { IsField sp.old.levels field }
    requires fits { size ≤ 2 ^ field.width }
    requires room { HasRoom sp.old 8 }
    ensures ok { OnOk result (PutsSet sp.old sp.new (below_set sp.old.levels field size)) }
    ensures err { IfErr result (λ e. Leaves sp.old sp.new e) }
{
    let n = sp.sets();
    let _levels = sp.levels();
    sp.constant(false);
    for k in 0..size {
        put_number(sp, field, k)?;
        sp.or(n, n + 1)?;
        sp.settle(n);
    }
    Ok(())
}

/// Meets the last set, which stands at `n`, with the rows that hold a number below `size` in the field. Where every
/// number there is below it, the set stays as it is.
pub(crate) fn meet_below(sp: &mut Space, n: Slot, field: Field, size: u16) -> Result<(), SpaceFault>
    requires last { length sp.old.sets ≡ n + 1 }
    requires field { IsField sp.old.levels field }
    requires fits { size ≤ 2 ^ field.width }
    requires room { n + 9 ≤ sp.old.places }
    ensures ok { OnOk result (sp.new ≡ with_more (below sp.old n) (intersection sp.old.levels (set_at sp.old.sets n) (below_set sp.old.levels field size) ∷ [])) }
    ensures err { IfErr result (λ e. Leaves sp.old sp.new e) }
{
    let _sets = sp.sets();
    if size == 1 << field.width {
        return Ok(());
    }
    put_below(sp, field, size)?;
    sp.and(n, n + 1)?;
    sp.settle(n);
    Ok(())
}
