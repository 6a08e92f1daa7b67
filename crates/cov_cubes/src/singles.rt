ghost use Rattle.std.specs.Prelude.{◌≡◌, ◌≤◌, ◌-◌, ◌++◌, ◌∷◌, length, IfOk};
ghost use Rattle.cov_bits.specs.Layout as layout;
ghost use Rattle.cov_cubes.specs.OneValue.{IsPassed, singles};

use crate::classes::Class;
use crate::found::{Found, enter};
use cov_model::Model;
use cov_syntax::{NoMemory, Seq};
use std::alloc::Global;

/// Puts last the class of each variable of one value that stands there or follows, and answers the next variable's place.
pub(crate) fn enter_singles(
    alloc: Global,
    m: &Model,
    from: usize,
    found: &mut Found,
) -> Result<usize, NoMemory>
    requires from { from ≤ length m.now.vars }
    ensures passed { IfOk result (λ to. IsPassed (layout.sizes m.now.vars) from to) }
    ensures entered { IfOk result (λ to. found.new ≡ record found.old { front = found.old.front ++ singles (to - from) }) }
{
    let mut only: Class = Seq::new(alloc);
    only.push(0)?;
    for x in from..m.vars.len() {
        if m.vars.get(x).values.len() != 1 {
            return Ok(x);
        }
        enter(alloc, &only, found)?;
    }
    Ok(m.vars.len())
}

/// Puts a class last, and behind it those of the variables of one value from a place on. Answers the next variable's place.
pub(crate) fn enter_with_singles(
    alloc: Global,
    m: &Model,
    class: &Class,
    from: usize,
    found: &mut Found,
) -> Result<usize, NoMemory>
    requires from { from ≤ length m.now.vars }
    ensures passed { IfOk result (λ to. IsPassed (layout.sizes m.now.vars) from to) }
    ensures entered { IfOk result (λ to. found.new ≡ record found.old { front = found.old.front ++ class.now ∷ singles (to - from) }) }
{
    enter(alloc, class, found)?;
    enter_singles(alloc, m, from, found)
}
