ghost use Rattle.std.specs.Prelude.{map, [], ◌∷◌, IfOk};
ghost use Rattle.std.specs.List.{All};
ghost use Rattle.cov_model.specs.Flat.{assignments_of, conditions_of, expressions};
ghost use Rattle.cov_model.specs.declared.model.Assign.{Assign};
ghost use Rattle.cov_model.specs.declared.model.Define.{Define};
ghost use Rattle.cov_types.specs.Checking.{IsChecked};
ghost use Rattle.cov_types.specs.Extents.{IsExtent, IsJoined};
ghost use Rattle.cov_walk.specs.Found.{HasNoFault};

use crate::depths::depth;
use cov_kinds::KindTable;
use cov_model::{Assign, Define, Model};
use cov_syntax::{Expr, NoMemory, Seq};
use cov_walk::widest;
use std::alloc::Global;

/// How wide and how deep some expressions are.
#[derive(Clone, Copy)]
pub(crate) struct Extent {
    /// The greatest number of values of the own kind of an expression or of a part of one.
    pub(crate) width: u32,
    /// The greatest number of nodes on one path of an expression's tree.
    pub(crate) depth: u32,
}

/// The extent of no expressions.
const NOTHING: Extent = Extent { width: 0, depth: 0 };

/// The extent of the expressions of both.
fn joined(x: Extent, y: Extent) -> Extent
    ensures { IsJoined x y result }
{
    Extent {
        width: x.width.max(y.width),
        depth: x.depth.max(y.depth),
    }
}

/// The extent of every expression of the model.
pub(crate) fn extent_of(alloc: Global, m: &Model, kinds: &KindTable) -> Result<Extent, NoMemory>
    requires { IsChecked m.now kinds.now }
    ensures { IfOk result (IsExtent kinds.now (expressions m.now)) }
{
    let bodies = bodies_extent(alloc, kinds, &m.defines)?;
    let conditions = conditions_extent(alloc, m, kinds)?;
    let assigned = assigned_extent(alloc, m, kinds)?;
    Ok(joined(joined(bodies, conditions), assigned))
}

/// The extent of the conditions and specifications.
fn conditions_extent(alloc: Global, m: &Model, kinds: &KindTable) -> Result<Extent, NoMemory>
    requires { IsChecked m.now kinds.now }
    ensures { IfOk result (IsExtent kinds.now (conditions_of m.now)) }
{
    let inits = all_extent(alloc, kinds, &m.inits)?;
    let invars = all_extent(alloc, kinds, &m.invars)?;
    let trans = all_extent(alloc, kinds, &m.trans)?;
    let fair = all_extent(alloc, kinds, &m.fair)?;
    let specs = all_extent(alloc, kinds, &m.specs)?;
    Ok(joined(joined(joined(joined(inits, invars), trans), fair), specs))
}

/// The extent of the right sides of the assignments.
fn assigned_extent(alloc: Global, m: &Model, kinds: &KindTable) -> Result<Extent, NoMemory>
    requires { IsChecked m.now kinds.now }
    ensures { IfOk result (IsExtent kinds.now (map (λ (a : Assign). a.body) (assignments_of m.now))) }
{
    let nows = sides_extent(alloc, kinds, &m.nows)?;
    let firsts = sides_extent(alloc, kinds, &m.firsts)?;
    let nexts = sides_extent(alloc, kinds, &m.nexts)?;
    Ok(joined(joined(nows, firsts), nexts))
}

/// The extent of the bodies of some DEFINEs.
fn bodies_extent(
    alloc: Global,
    kinds: &KindTable,
    defines: &Seq<Define>,
) -> Result<Extent, NoMemory>
    requires { All (λ (d : Define). HasNoFault kinds.now d.body) defines.now }
    ensures { IfOk result (IsExtent kinds.now (map (λ (d : Define). d.body) defines.now)) }
{
    let mut found = NOTHING;
    for d in defines.as_slice() {
        found = joined(found, one_extent(alloc, kinds, &d.body)?);
    }
    Ok(found)
}

/// The extent of the right sides of some assignments.
fn sides_extent(alloc: Global, kinds: &KindTable, assigns: &Seq<Assign>) -> Result<Extent, NoMemory>
    requires { All (λ (a : Assign). HasNoFault kinds.now a.body) assigns.now }
    ensures { IfOk result (IsExtent kinds.now (map (λ (a : Assign). a.body) assigns.now)) }
{
    let mut found = NOTHING;
    for a in assigns.as_slice() {
        found = joined(found, one_extent(alloc, kinds, &a.body)?);
    }
    Ok(found)
}

/// The extent of some expressions.
fn all_extent(alloc: Global, kinds: &KindTable, es: &Seq<Expr>) -> Result<Extent, NoMemory>
    requires { All (HasNoFault kinds.now) es.now }
    ensures { IfOk result (IsExtent kinds.now es.now) }
{
    let mut found = NOTHING;
    for e in es.as_slice() {
        found = joined(found, one_extent(alloc, kinds, e)?);
    }
    Ok(found)
}

/// The extent of an expression.
fn one_extent(alloc: Global, kinds: &KindTable, e: &Expr) -> Result<Extent, NoMemory>
    requires { HasNoFault kinds.now e.now }
    ensures { IfOk result (IsExtent kinds.now (e.now ∷ [])) }
{
    let width = widest(alloc, kinds, e)?;
    Ok(Extent {
        width,
        depth: depth(e),
    })
}
