ghost use Rattle.std.specs.Prelude.{◌≡◌, ◌≤◌, min, length, IfOk};
ghost use Rattle.std.specs.List.{All};
ghost use Rattle.cov_model.specs.Walk.{own};
ghost use Rattle.cov_model.specs.declared.model.Define.{Define};
ghost use Rattle.cov_types.specs.Roots as spec;
ghost use Rattle.cov_walk.specs.Found.{HasNoFault};

use crate::bits::bits_of;
use cov_ctl::lowered_size;
use cov_kinds::KindTable;
use cov_model::{Define, Model, Var};
use cov_syntax::{Expr, NoMemory, Seq};
use cov_walk::own_kind;
use std::alloc::Global;

/// The bits of a state.
pub(crate) fn state_bits(vars: &Seq<Var>) -> u32
    requires { spec.state_bits vars.now ≤ 60 }
    ensures { result ≡ spec.state_bits vars.now }
{
    let mut total = 0;
    for x in vars.as_slice() {
        total += bits_of(x.values.len());
    }
    total as u32
}

/// The greatest number of values of a variable.
pub(crate) fn widest_variable(vars: &Seq<Var>) -> u32
    requires { spec.widest_variable vars.now ≤ 1024 }
    ensures { result ≡ spec.widest_variable vars.now }
{
    let mut most = 0;
    for x in vars.as_slice() {
        most = most.max(x.values.len());
    }
    most as u32
}

/// The INIT, INVAR and TRANS conditions and the assignments.
pub(crate) fn constraints(m: &Model) -> u32
    requires { spec.constraints m.now ≤ 1000000 }
    ensures { result ≡ spec.constraints m.now }
{
    let conditions = m.inits.len() + m.invars.len() + m.trans.len();
    let assigns = m.nows.len() + m.firsts.len() + m.nexts.len();
    (conditions + assigns) as u32
}

/// The greatest number of nodes of a specification's formula, and 4,097 where it is above 4,096.
pub(crate) fn greatest_size(specs: &Seq<Expr>) -> u32
    ensures { result ≡ min (spec.greatest_size specs.now) 4097 }
{
    let mut most = 0u32;
    for e in specs.as_slice() {
        most = most.max(lowered_size(e));
    }
    most
}

/// The sets that the engine holds for the DEFINEs.
pub(crate) fn define_sets(
    alloc: Global,
    kinds: &KindTable,
    defines: &Seq<Define>,
) -> Result<u32, NoMemory>
    requires few { length defines.now ≤ 4096 }
    requires pass { All (λ (d : Define). HasNoFault kinds.now d.body) defines.now }
    ensures value { IfOk result (λ n. n ≡ spec.define_sets kinds.now defines.now) }
    ensures bound { IfOk result (λ n. n ≤ 4194304) }
{
    let mut total = 0u32;
    for d in defines.as_slice() {
        total += sets_of(alloc, kinds, d)?;
    }
    Ok(total)
}

/// The sets that the engine holds for a DEFINE: one if it is Boolean, else one for each value.
fn sets_of(alloc: Global, kinds: &KindTable, d: &Define) -> Result<u32, NoMemory>
    requires { HasNoFault kinds.now d.now.body }
    ensures value { IfOk result (λ n. n ≡ spec.sets_of (own kinds.now d.now.body)) }
    ensures bound { IfOk result (λ n. n ≤ 1024) }
{
    let kind = own_kind(alloc, kinds, &d.body)?;
    if kind.is_boolean() {
        return Ok(1);
    }
    Ok(kind.width())
}
