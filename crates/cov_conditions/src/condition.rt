ghost use Rattle.std.specs.Prelude.{◌≡◌, ◌≢◌, ◌<◌, ◌≤◌, ◌+◌, ◌*◌, length, IsFalse, IfOk, OnOk, IfErr};
ghost use Rattle.cov_space.specs.declared.layer.Layer.TheVariants as layer;
ghost use Rattle.cov_bits.specs.Layout as layout;
ghost use Rattle.cov_model.specs.Flat.{depth};
ghost use Rattle.cov_model.specs.Settled.{kinds_of};
ghost use Rattle.cov_ranges.specs.Ranges.{IsExpressionOf, is_set};
ghost use Rattle.cov_types.specs.Roots.{define_sets, greatest_depth, greatest_width};
ghost use Rattle.cov_space.specs.Sets.{HasRoom};
ghost use Rattle.cov_space.specs.Answers.{IsCallFault, PutsSet};
ghost use Rattle.cov_space.specs.Steps.{Leaves};
ghost use Rattle.cov_conditions.specs.Carried as spec;
ghost use Rattle.cov_conditions.specs.Conditions.{IsRead, assignment_set, condition_set, expression_room};

use crate::family::put_family;
use crate::typed::{narrow, narrow_to_points};
use cov_bits::Plan;
use cov_families::{index_of, put_carried};
use cov_fields::field_of;
use cov_model::Assign;
use cov_nodes::Reading;
use cov_places::layers_are_apart;
use cov_readings::one_choice;
use cov_space::{Layer, Space, SpaceFault};
use cov_syntax::{Expr, NoMemory, Seq, Value};
use cov_types::Checked;
use std::alloc::Global;

fn condition_steps(
    alloc: Global,
    sp: &mut Space,
    m: &Checked,
    plan: &Plan,
    at: Reading,
    e: &Expr,
) -> Result<(), SpaceFault>
    requires plan { plan.now ≡ layout.sizes m.now.vars }
    requires levels { sp.old.levels ≡ 3 * layout.bits plan.now }
    requires present { at.present ≢ layer.W }
    requires next { at.next ≢ layer.W }
    requires expression { IsRead m.now e.now }
    requires single { IsFalse (is_set e.now) }
    requires room { HasRoom sp.old (expression_room m.now) }
    ensures ok { OnOk result (PutsSet sp.old sp.new (condition_set sp.old.levels m.now at e.now)) }
    ensures err { IfErr result (λ f. Leaves sp.old sp.new f) }
{
    one_choice();
    let n = sp.sets();
    put_family(alloc, sp, m, plan, at, e, &[Value::Bool(true)])?;
    narrow_to_points(sp, m.model(), plan, n, at)
}

/// Puts the rows that name typed states at which the condition is true.
pub fn put_condition(
    alloc: Global,
    sp: &mut Space,
    m: &Checked,
    plan: &Plan,
    at: Reading,
    e: &Expr,
) -> Result<(), SpaceFault>
    requires plan { plan.now ≡ layout.sizes m.now.vars }
    requires levels { sp.old.levels ≡ 3 * layout.bits plan.now }
    requires present { at.present ≢ layer.W }
    requires next { at.next ≢ layer.W }
    requires expression { IsRead m.now e.now }
    requires single { IsFalse (is_set e.now) }
    requires room { HasRoom sp.old (expression_room m.now) }
    ensures ok { OnOk result (PutsSet sp.old sp.new (condition_set sp.old.levels m.now at e.now)) }
    ensures err { IfErr result (λ f. IsCallFault sp.old sp.new f) }
{
    let n = sp.sets();
    match condition_steps(alloc, sp, m, plan, at, e) {
        Ok(()) => Ok(()),
        Err(fault) => {
            sp.cut(n);
            Err(fault)
        }
    }
}

/// So many numbers, each as its own target.
fn own_targets(alloc: Global, count: u16) -> Result<Seq<Option<u16>>, NoMemory>
    ensures { IfOk result (λ ts. ts ≡ spec.own_targets count) }
{
    let mut targets = Seq::new(alloc);
    for k in 0..count {
        targets.push(Some(k))?;
    }
    Ok(targets)
}

fn assignment_steps(
    alloc: Global,
    sp: &mut Space,
    m: &Checked,
    plan: &Plan,
    at: Reading,
    to: Layer,
    a: &Assign,
) -> Result<(), SpaceFault>
    requires plan { plan.now ≡ layout.sizes m.now.vars }
    requires levels { sp.old.levels ≡ 3 * layout.bits plan.now }
    requires variable { a.now.var < length m.now.vars }
    requires expression { IsRead m.now a.now.body }
    requires present { at.present ≢ layer.W }
    requires next { at.next ≢ layer.W }
    requires apart { to ≢ layer.W }
    requires room { HasRoom sp.old (expression_room m.now) }
    ensures ok { OnOk result (PutsSet sp.old sp.new (assignment_set sp.old.levels m.now at to a.now)) }
    ensures err { IfErr result (λ f. Leaves sp.old sp.new f) }
{
    layers_are_apart();
    let n = sp.sets();
    let model = m.model();
    let _bits = plan.bits();
    let values = model.vars.get(a.var as usize).values.as_slice();
    put_family(alloc, sp, m, plan, at, &a.body, values)?;
    let count = values.len() as u16;
    let Ok(targets) = own_targets(alloc, count) else {
        return Err(SpaceFault::Memory);
    };
    put_carried(
        sp,
        n,
        index_of(count),
        field_of(plan, a.var, to),
        targets.as_slice(),
    )?;
    sp.settle(n);
    narrow_to_points(sp, model, plan, n, at)?;
    narrow(sp, model, plan, n, to)
}

/// Puts the rows that name typed states such that the assigned variable has, in the state on a layer, a value among the
/// choices of the right side.
pub fn put_assignment(
    alloc: Global,
    sp: &mut Space,
    m: &Checked,
    plan: &Plan,
    at: Reading,
    to: Layer,
    a: &Assign,
) -> Result<(), SpaceFault>
    requires plan { plan.now ≡ layout.sizes m.now.vars }
    requires levels { sp.old.levels ≡ 3 * layout.bits plan.now }
    requires variable { a.now.var < length m.now.vars }
    requires expression { IsRead m.now a.now.body }
    requires present { at.present ≢ layer.W }
    requires next { at.next ≢ layer.W }
    requires apart { to ≢ layer.W }
    requires room { HasRoom sp.old (expression_room m.now) }
    ensures ok { OnOk result (PutsSet sp.old sp.new (assignment_set sp.old.levels m.now at to a.now)) }
    ensures err { IfErr result (λ f. IsCallFault sp.old sp.new f) }
{
    let n = sp.sets();
    match assignment_steps(alloc, sp, m, plan, at, to, a) {
        Ok(()) => Ok(()),
        Err(fault) => {
            sp.cut(n);
            Err(fault)
        }
    }
}
