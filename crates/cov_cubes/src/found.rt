ghost use Rattle.std.specs.Prelude.{◌≡◌, ◌≤◌, ◌++◌, ◌∷◌, [], length, IfOk, OnOk};
ghost use Rattle.cov_cubes.specs.Steps.{added};

use crate::classes::Class;
use cov_model::{Cube, CubeList};
use cov_syntax::{NoMemory, Seq};
use std::alloc::Global;

/// The cubes that were found, and the classes of the variables whose values are fixed.
#[derive(Drop)]
pub(crate) struct Found {
    pub front: Seq<Class>,
    pub limit: u32,
    pub list: CubeList,
}

/// An equal list of classes.
fn copied(alloc: Global, front: &Seq<Class>) -> Result<Cube, NoMemory>
    ensures { IfOk result (λ c. c ≡ front.now) }
{
    let mut cube = Seq::new(alloc);
    for class in front.as_slice() {
        cube.push(class.copy(alloc)?)?;
    }
    Ok(cube)
}

/// Puts a class last.
pub(crate) fn enter(alloc: Global, class: &Class, found: &mut Found) -> Result<(), NoMemory>
    ensures { OnOk result (found.new ≡ record found.old { front = found.old.front ++ class.now ∷ [] }) }
{
    let copy = class.copy(alloc)?;
    found.front.push(copy)
}

/// Adds the cube of the classes, or marks that there is one more where the limit is reached.
pub(crate) fn add(alloc: Global, found: &mut Found) -> Result<(), NoMemory>
    requires few { length found.old.list.cubes ≤ found.old.limit }
    ensures { OnOk result (found.new ≡ record found.old { list = added found.old.limit found.old.list (found.old.front ∷ []) }) }
{
    if found.list.cubes.len() == found.limit as usize {
        found.list.more = true;
        return Ok(());
    }
    let cube = copied(alloc, &found.front)?;
    found.list.cubes.push(cube)
}
