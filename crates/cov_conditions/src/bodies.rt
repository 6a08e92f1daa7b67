ghost use Rattle.std.specs.Prelude.{◌≡◌, ◌≢◌, ◌<◌, ◌≤◌, ◌+◌, ◌*◌, ◌↔◌, length, map, IsTrue, IsFalse, IfOk, IfErr, OnOk, List, Some, slice_get};
ghost use Rattle.cov_syntax.specs.declared.tree.Value.{Value};
ghost use Rattle.cov_model.specs.declared.model.Define.{Define};
ghost use Rattle.cov_model.specs.Kinds.{boolean, values_of};
ghost use Rattle.cov_model.specs.Types.{has_twice};
ghost use Rattle.cov_types.specs.Roots.{greatest_width};
ghost use Rattle.cov_space.specs.declared.layer.Layer.TheVariants as layer;
ghost use Rattle.cov_space.specs.Sets.{HasRoom};
ghost use Rattle.cov_space.specs.Steps.{Leaves};
ghost use Rattle.cov_nodes.specs.Choices.{IsChunk, PutsFamily, ones};
ghost use Rattle.cov_nodes.specs.Points.{at_layer};
ghost use Rattle.cov_nodes.specs.Standing.{define_choice};
ghost use Rattle.cov_expressions.specs.Scopes.{IsScope, reads_standing};
ghost use Rattle.cov_conditions.specs.Asked.{asked, inverts};
ghost use Rattle.cov_conditions.specs.Bodies.{PutsChunks, PutsDefine, body_room, sets_at};

use crate::asked::{asked_value, asked_values, is_inverted};
use crate::typed::{clear, is_one};
use cov_expressions::{Scope, put_expr};
use cov_nodes::{Standing, chunk_size};
use cov_places::layers_are_apart;
use cov_ranges::lists_stand;
use cov_readings::{
    conditions_are_single, defines_are_listed, defines_are_their_bodies, expressions_are_shallow,
    one_choice, ranges_are_narrow,
};
use cov_space::{Space, SpaceFault};
use cov_syntax::Value;
use std::alloc::Global;

/// Puts the family of a DEFINE in the present state alone, given by what is asked of its body.
fn put_body(
    alloc: Global,
    sp: &mut Space,
    scope: &Scope<'_>,
    i: u32,
    xs: &[Value],
) -> Result<(), SpaceFault>
    requires scope { IsScope sp.old scope.now }
    requires present { scope.now.at.present ≢ layer.W }
    requires next { scope.now.at.next ≢ layer.W }
    requires define { i < length scope.now.m.now.defines }
    requires reads { (d : Define) → slice_get scope.now.m.now.defines i ≡ Some d → IsTrue (reads_standing scope.now d.body) }
    requires chunk { IsChunk sp.old.levels xs.now }
    requires narrow { length xs.now ≤ greatest_width scope.now.m.now }
    requires room { HasRoom sp.old (body_room scope.now.m.now) }
    ensures ok { (ys : List Value) → xs.now ≡ map (asked (inverts scope.now.at.flip i)) ys
        → OnOk result (PutsFamily sp.old sp.new scope.now.m.now (at_layer scope.now.at.present scope.now.at.flip) ys (define_choice i)) }
    ensures err { IfErr result (λ f. Leaves sp.old sp.new f) }
{
    lists_stand();
    expressions_are_shallow();
    conditions_are_single();
    one_choice();
    defines_are_their_bodies();
    layers_are_apart();
    let n = sp.sets();
    let model = scope.m.model();
    let at = scope.at;
    put_expr(alloc, sp, scope, &model.defines.get(i as usize).body, xs)?;
    if is_one(at) {
        return Ok(());
    }
    clear(sp, scope.plan, n, at.next)
}

/// Whether these are FALSE and TRUE.
fn are_truths(values: &[Value]) -> bool
    ensures { IsTrue result ↔ (values.now ≡ values_of boolean) }
{
    match values {
        [Value::Bool(a), Value::Bool(b)] => !*a && *b,
        _ => false,
    }
}

/// Puts the points at which a DEFINE is TRUE.
fn put_truth(alloc: Global, sp: &mut Space, scope: &Scope<'_>, i: u32) -> Result<(), SpaceFault>
    requires scope { IsScope sp.old scope.now }
    requires present { scope.now.at.present ≢ layer.W }
    requires next { scope.now.at.next ≢ layer.W }
    requires define { i < length scope.now.m.now.defines }
    requires reads { (d : Define) → slice_get scope.now.m.now.defines i ≡ Some d → IsTrue (reads_standing scope.now d.body) }
    requires room { HasRoom sp.old (body_room scope.now.m.now) }
    ensures ok { OnOk result (PutsFamily sp.old sp.new scope.now.m.now (at_layer scope.now.at.present scope.now.at.flip) ones (define_choice i)) }
    ensures err { IfErr result (λ f. Leaves sp.old sp.new f) }
{
    let asked = asked_value(is_inverted(scope.at.flip, i), Value::Bool(true));
    put_body(alloc, sp, scope, i, &[asked])
}

/// Puts the family of each chunk of a DEFINE's values.
fn put_chunks(
    alloc: Global,
    sp: &mut Space,
    scope: &Scope<'_>,
    i: u32,
    values: &[Value],
) -> Result<(), SpaceFault>
    requires scope { IsScope sp.old scope.now }
    requires present { scope.now.at.present ≢ layer.W }
    requires next { scope.now.at.next ≢ layer.W }
    requires define { i < length scope.now.m.now.defines }
    requires reads { (d : Define) → slice_get scope.now.m.now.defines i ≡ Some d → IsTrue (reads_standing scope.now d.body) }
    requires few { length values.now ≤ 1024 }
    requires narrow { length values.now ≤ greatest_width scope.now.m.now }
    requires once { IsFalse (has_twice values.now) }
    requires room { HasRoom sp.old (length values.now + body_room scope.now.m.now) }
    ensures ok { OnOk result (PutsChunks sp.old sp.new scope.now.m.now scope.now.at.present scope.now.at.flip i values.now) }
    ensures err { IfErr result (λ f. Leaves sp.old sp.new f) }
{
    let size = chunk_size(sp) as usize;
    let inverted = is_inverted(scope.at.flip, i);
    let mut k = 0;
    while k * size < values.len() {
        let stop = values.len().min(k * size + size);
        let Ok(asked) = asked_values(alloc, values, k * size, stop, inverted) else {
            return Err(SpaceFault::Memory);
        };
        put_body(alloc, sp, scope, i, asked.as_slice())?;
        k += 1;
    }
    Ok(())
}

/// Puts the sets of a DEFINE.
pub(crate) fn put_define(
    alloc: Global,
    sp: &mut Space,
    scope: &Scope<'_>,
    i: u32,
) -> Result<Standing, SpaceFault>
    requires scope { IsScope sp.old scope.now }
    requires present { scope.now.at.present ≢ layer.W }
    requires next { scope.now.at.next ≢ layer.W }
    requires define { i < length scope.now.m.now.defines }
    requires reads { (d : Define) → slice_get scope.now.m.now.defines i ≡ Some d → IsTrue (reads_standing scope.now d.body) }
    requires room { HasRoom sp.old (sets_at scope.now.m.now i + body_room scope.now.m.now) }
    ensures ok { IfOk result (PutsDefine sp.old sp.new scope.now.m.now scope.now.at.present scope.now.at.flip i) }
    ensures err { IfErr result (λ f. Leaves sp.old sp.new f) }
{
    lists_stand();
    defines_are_listed();
    ranges_are_narrow();
    let slot = sp.sets();
    let d = scope.m.model().defines.get(i as usize);
    let Ok(values) = scope.m.values(alloc, &d.body) else {
        return Err(SpaceFault::Memory);
    };
    if are_truths(values.as_slice()) {
        put_truth(alloc, sp, scope, i)?;
        return Ok(Standing::Truth(slot));
    }
    put_chunks(alloc, sp, scope, i, values.as_slice())?;
    Ok(Standing::Chunks(slot, values))
}
