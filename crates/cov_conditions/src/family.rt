ghost use Rattle.std.specs.Prelude.{◌≡◌, ◌≢◌, ◌≤◌, ◌+◌, ◌*◌, length, IsTrue, None, OnOk, IfErr, IfOk};
ghost use Rattle.cov_space.specs.declared.layer.Layer.TheVariants as layer;
ghost use Rattle.cov_bits.specs.Layout as layout;
ghost use Rattle.cov_model.specs.Meaning.{allows};
ghost use Rattle.cov_types.specs.Roots.{greatest_width};
ghost use Rattle.cov_space.specs.Sets.{HasRoom};
ghost use Rattle.cov_space.specs.Steps.{Leaves};
ghost use Rattle.cov_nodes.specs.Choices.{IsChunk, PutsFamily};
ghost use Rattle.cov_nodes.specs.Points.{at_layer};
ghost use Rattle.cov_model.specs.Settled.{kinds_of};
ghost use Rattle.cov_types.specs.Roots.{define_sets};
ghost use Rattle.cov_nodes.specs.Standing.{AreStanding};
ghost use Rattle.cov_conditions.specs.Bodies.{HaveEntries, PutsDefines, PutsFamilyBehind, body_room};
ghost use Rattle.cov_conditions.specs.Conditions.{IsRead, expression_room};
ghost use Rattle.cov_conditions.specs.Marks.{AreClosed};

use crate::defines::{put_alone, put_beside};
use crate::marks::find_reads;
use crate::typed::is_one;
use cov_bits::Plan;
use cov_expressions::{Scope, put_expr};
use cov_nodes::{Defines, Reading};
use cov_space::{Space, SpaceFault};
use cov_syntax::{Expr, Value};
use cov_types::Checked;
use std::alloc::Global;

/// Whether one state without a flip stands for both.
fn is_still(at: Reading) -> bool
    ensures { IsTrue result → at ≡ at_layer at.next None }
{
    at.flip.is_none() && is_one(at)
}

/// Puts the sets of the marked DEFINEs for the present state, beside those for the next one.
fn put_here(
    alloc: Global,
    sp: &mut Space,
    m: &Checked,
    plan: &Plan,
    at: Reading,
    marks: &[bool],
    there: &Defines,
) -> Result<Defines, SpaceFault>
    requires plan { plan.now ≡ layout.sizes m.now.vars }
    requires levels { sp.old.levels ≡ 3 * layout.bits plan.now }
    requires present { at.present ≢ layer.W }
    requires next { at.next ≢ layer.W }
    requires count { length marks.now ≡ length m.now.defines }
    requires closed { AreClosed m.now.defines marks.now }
    requires stand { AreStanding sp.old m.now at.next None there.now }
    requires there { HaveEntries marks.now (length m.now.defines) there.now }
    requires room { HasRoom sp.old (define_sets (kinds_of m.now) m.now.defines + body_room m.now) }
    ensures ok { IfOk result (λ entries. PutsDefines sp.old sp.new m.now at.present at.flip marks.now (length m.now.defines) entries (define_sets (kinds_of m.now) m.now.defines)) }
    ensures err { IfErr result (λ f. Leaves sp.old sp.new f) }
{
    match at.flip {
        None => put_alone(alloc, sp, m, plan, at.present, marks),
        Some(_) => put_beside(alloc, sp, m, plan, at, marks, there),
    }
}

/// Puts the sets of the DEFINEs that an expression reads, and behind them the family of its choices.
fn put_behind(
    alloc: Global,
    sp: &mut Space,
    m: &Checked,
    plan: &Plan,
    at: Reading,
    e: &Expr,
    xs: &[Value],
) -> Result<(), SpaceFault>
    requires plan { plan.now ≡ layout.sizes m.now.vars }
    requires levels { sp.old.levels ≡ 3 * layout.bits plan.now }
    requires present { at.present ≢ layer.W }
    requires next { at.next ≢ layer.W }
    requires expression { IsRead m.now e.now }
    requires chunk { IsChunk sp.old.levels xs.now }
    requires narrow { length xs.now ≤ greatest_width m.now }
    requires room { HasRoom sp.old (expression_room m.now) }
    ensures ok { OnOk result (PutsFamilyBehind sp.old sp.new m.now at xs.now (allows e.now)) }
    ensures err { IfErr result (λ f. Leaves sp.old sp.new f) }
{
    let Ok(found) = find_reads(alloc, m, e) else {
        return Err(SpaceFault::Memory);
    };
    let marks = found.as_slice();
    let _model = m.model();
    let there = put_alone(alloc, sp, m, plan, at.next, marks)?;
    if is_still(at) {
        let scope = Scope {
            m,
            plan,
            at,
            here: &there,
            there: &there,
        };
        return put_expr(alloc, sp, &scope, e, xs);
    }
    let here = put_here(alloc, sp, m, plan, at, marks, &there)?;
    let scope = Scope {
        m,
        plan,
        at,
        here: &here,
        there: &there,
    };
    put_expr(alloc, sp, &scope, e, xs)
}

/// Puts the family of the choices of an expression over these values, and no other set.
pub(crate) fn put_family(
    alloc: Global,
    sp: &mut Space,
    m: &Checked,
    plan: &Plan,
    at: Reading,
    e: &Expr,
    xs: &[Value],
) -> Result<(), SpaceFault>
    requires plan { plan.now ≡ layout.sizes m.now.vars }
    requires levels { sp.old.levels ≡ 3 * layout.bits plan.now }
    requires present { at.present ≢ layer.W }
    requires next { at.next ≢ layer.W }
    requires expression { IsRead m.now e.now }
    requires chunk { IsChunk sp.old.levels xs.now }
    requires narrow { length xs.now ≤ greatest_width m.now }
    requires room { HasRoom sp.old (expression_room m.now) }
    ensures ok { OnOk result (PutsFamily sp.old sp.new m.now at xs.now (allows e.now)) }
    ensures err { IfErr result (λ f. Leaves sp.old sp.new f) }
{
    let n = sp.sets();
    put_behind(alloc, sp, m, plan, at, e, xs)?;
    sp.settle(n);
    Ok(())
}
