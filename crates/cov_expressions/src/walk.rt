ghost use Rattle.std.specs.Prelude.{◌≡◌, ◌≢◌, ◌<◌, ◌≤◌, ◌+◌, ◌*◌, max, length, IsTrue, IsFalse, OnOk, IfErr};
ghost use Rattle.cov_syntax.specs.declared.tree.Op2.TheVariants as op2;
ghost use Rattle.cov_model.specs.Flat.{depth};
ghost use Rattle.cov_model.specs.Meaning.{allows, joined, meaning, prefixed};
ghost use Rattle.cov_model.specs.Values.{whole};
ghost use Rattle.cov_ranges.specs.Ranges.{is_set};
ghost use Rattle.cov_types.specs.Depths.{all_branch_depth, all_depth};
ghost use Rattle.cov_space.specs.Steps.{Leaves};
ghost use Rattle.cov_nodes.specs.Choices.{PutsFamily, is_logic};
ghost use Rattle.cov_expressions.specs.Needs.{AreArms, AreReadable, CanPut, CanPutAll, IsReadable};
ghost use Rattle.cov_expressions.specs.Parts.{PutsAll, any_choice, arm_choice, asks_values, logic_choice};

use crate::choices::{finish_branch, finish_either};
use crate::chunks::Chunks;
use crate::leaves::put_defined;
use crate::operation::{finish_negation, finish_operation};
use crate::scope::Scope;
use crate::truths::{ONES, finish_logic, finish_not};
use crate::values::{all_values, logic_of};
use cov_nodes::{put_literal, put_none, put_range, put_variable};
use cov_space::{Space, SpaceFault};
use cov_syntax::{Branch, Expr, Node, Op1, Op2, Seq, Value};
use std::alloc::Global;

/// Puts the family of an expression. Where that is refused, the sets of its steps are left.
#[cycle(walk)]
pub(crate) fn put_tree(
    alloc: Global,
    sp: &mut Space,
    scope: &Scope<'_>,
    e: &Expr,
    xs: &[Value],
) -> Result<(), SpaceFault>
    requires can { CanPut sp.old scope.now xs.now (depth e.now) }
    requires readable { IsReadable scope.now e.now }
    ensures ok { OnOk result (PutsFamily sp.old sp.new scope.now.m.now scope.now.at xs.now (allows e.now)) }
    ensures err { IfErr result (λ f. Leaves sp.old sp.new f) }
{
    match &e.node {
        Node::Lit(x) => put_literal(alloc, sp, *x, xs),
        Node::Path(_) => put_literal(alloc, sp, Value::Bool(false), xs),
        Node::Range(low, high) => put_range(alloc, sp, *low, *high, xs),
        Node::Var(i) => put_variable(alloc, sp, scope.m.model(), scope.plan, scope.at, *i, xs),
        Node::Def(i) => put_defined(alloc, sp, scope, *i, xs),
        Node::One(op, a) => put_one(alloc, sp, scope, *op, a.get(), xs),
        Node::Two(op, a, b) => put_two(alloc, sp, scope, *op, a.get(), b.get(), xs),
        Node::Set(items) => put_members(alloc, sp, scope, items, xs),
        Node::Case(branches) => put_branches(alloc, sp, scope, branches, xs),
    }
}

/// Puts the families of an expression over the chunks of a list, each behind the one before.
#[cycle(walk)]
fn put_chunks(
    alloc: Global,
    sp: &mut Space,
    scope: &Scope<'_>,
    e: &Expr,
    xs: &[Value],
) -> Result<(), SpaceFault>
    requires can { CanPutAll sp.old scope.now xs.now (depth e.now) }
    requires readable { IsReadable scope.now e.now }
    ensures ok { OnOk result (PutsAll sp.old sp.new scope.now.m.now scope.now.at xs.now (allows e.now)) }
    ensures err { IfErr result (λ f. Leaves sp.old sp.new f) }
{
    let chunks = Chunks::new(sp, sp.sets(), xs);
    for k in 0..chunks.count() {
        put_tree(alloc, sp, scope, e, chunks.chunk(k))?;
    }
    Ok(())
}

/// Puts the family of an operator with one operand.
#[cycle(walk)]
fn put_one(
    alloc: Global,
    sp: &mut Space,
    scope: &Scope<'_>,
    op: Op1,
    a: &Expr,
    xs: &[Value],
) -> Result<(), SpaceFault>
    requires can { CanPut sp.old scope.now xs.now (1 + depth a.now) }
    requires readable { IsReadable scope.now a.now }
    requires single { IsFalse (is_set a.now) }
    ensures ok { OnOk result (PutsFamily sp.old sp.new scope.now.m.now scope.now.at xs.now (prefixed whole op (meaning a.now)).allows) }
    ensures err { IfErr result (λ f. Leaves sp.old sp.new f) }
{
    let n = sp.sets();
    match op {
        Op1::Not => {
            put_tree(alloc, sp, scope, a, &ONES)?;
            finish_not(sp, n, xs)
        }
        Op1::Neg => {
            let values = all_values(alloc, scope.m, a)?;
            put_chunks(alloc, sp, scope, a, values.as_slice())?;
            let operand = Chunks::new(sp, n, values.as_slice());
            finish_negation(alloc, sp, n, operand, xs)
        }
        Op1::Next => put_tree(alloc, sp, &scope.moved(), a, xs),
        _ => put_literal(alloc, sp, Value::Bool(false), xs),
    }
}

/// Puts the family of an operator with two operands.
#[cycle(walk)]
fn put_two(
    alloc: Global,
    sp: &mut Space,
    scope: &Scope<'_>,
    op: Op2,
    a: &Expr,
    b: &Expr,
    xs: &[Value],
) -> Result<(), SpaceFault>
    requires can { CanPut sp.old scope.now xs.now (1 + max (depth a.now) (depth b.now)) }
    requires left { IsReadable scope.now a.now }
    requires right { IsReadable scope.now b.now }
    requires left_single { op ≢ op2.Union → IsFalse (is_set a.now) }
    requires right_single { op ≢ op2.Union → op ≢ op2.Member → IsFalse (is_set b.now) }
    ensures ok { OnOk result (PutsFamily sp.old sp.new scope.now.m.now scope.now.at xs.now (joined whole op (meaning a.now) (meaning b.now)).allows) }
    ensures err { IfErr result (λ f. Leaves sp.old sp.new f) }
{
    let n = sp.sets();
    match op {
        Op2::And | Op2::Or | Op2::Xor | Op2::Implies | Op2::Iff => {
            put_logical(alloc, sp, scope, op, a, b, xs)
        }
        Op2::Union => {
            put_tree(alloc, sp, scope, a, xs)?;
            put_tree(alloc, sp, scope, b, xs)?;
            finish_either(sp, n)
        }
        Op2::Au | Op2::Eu => put_literal(alloc, sp, Value::Bool(false), xs),
        _ => put_operation(alloc, sp, scope, op, a, b, xs),
    }
}

/// Puts the family of an operator of logic.
#[cycle(walk)]
fn put_logical(
    alloc: Global,
    sp: &mut Space,
    scope: &Scope<'_>,
    op: Op2,
    a: &Expr,
    b: &Expr,
    xs: &[Value],
) -> Result<(), SpaceFault>
    requires op { IsTrue (is_logic op) }
    requires can { CanPut sp.old scope.now xs.now (1 + max (depth a.now) (depth b.now)) }
    requires left { IsReadable scope.now a.now }
    requires right { IsReadable scope.now b.now }
    ensures ok { OnOk result (PutsFamily sp.old sp.new scope.now.m.now scope.now.at xs.now (logic_choice op (allows a.now) (allows b.now))) }
    ensures err { IfErr result (λ f. Leaves sp.old sp.new f) }
{
    let n = sp.sets();
    put_tree(alloc, sp, scope, a, &ONES)?;
    put_tree(alloc, sp, scope, b, &ONES)?;
    finish_logic(sp, n, op, xs)
}

/// Puts the family of an operator that asks for the values of its sides. Where both are Boolean, `=` and `!=` are
/// operators of logic.
#[cycle(walk)]
fn put_operation(
    alloc: Global,
    sp: &mut Space,
    scope: &Scope<'_>,
    op: Op2,
    a: &Expr,
    b: &Expr,
    xs: &[Value],
) -> Result<(), SpaceFault>
    requires op { IsTrue (asks_values op) }
    requires can { CanPut sp.old scope.now xs.now (1 + max (depth a.now) (depth b.now)) }
    requires left { IsReadable scope.now a.now }
    requires right { IsReadable scope.now b.now }
    requires left_single { IsFalse (is_set a.now) }
    requires right_single { op ≢ op2.Member → IsFalse (is_set b.now) }
    ensures ok { OnOk result (PutsFamily sp.old sp.new scope.now.m.now scope.now.at xs.now (joined whole op (meaning a.now) (meaning b.now)).allows) }
    ensures err { IfErr result (λ f. Leaves sp.old sp.new f) }
{
    let n = sp.sets();
    let left = all_values(alloc, scope.m, a)?;
    let right = all_values(alloc, scope.m, b)?;
    match logic_of(op, left.as_slice(), right.as_slice()) {
        Some(op) => put_logical(alloc, sp, scope, op, a, b, xs),
        None => {
            put_chunks(alloc, sp, scope, a, left.as_slice())?;
            let middle = sp.sets();
            put_chunks(alloc, sp, scope, b, right.as_slice())?;
            let left = Chunks::new(sp, n, left.as_slice());
            let right = Chunks::new(sp, middle, right.as_slice());
            finish_operation(alloc, sp, n, op, left, right, xs)
        }
    }
}

/// Puts the family of a set: each choice of a member is one.
#[cycle(walk)]
fn put_members(
    alloc: Global,
    sp: &mut Space,
    scope: &Scope<'_>,
    items: &Seq<Expr>,
    xs: &[Value],
) -> Result<(), SpaceFault>
    requires can { CanPut sp.old scope.now xs.now (1 + all_depth items.now) }
    requires readable { AreReadable scope.now items.now }
    ensures ok { OnOk result (PutsFamily sp.old sp.new scope.now.m.now scope.now.at xs.now (any_choice items.now)) }
    ensures err { IfErr result (λ f. Leaves sp.old sp.new f) }
{
    let n = sp.sets();
    put_none(sp);
    for e in items.as_slice() {
        put_tree(alloc, sp, scope, e, xs)?;
        finish_either(sp, n)?;
    }
    Ok(())
}

/// Puts the family of a case, from its last branch to its first.
#[cycle(walk)]
fn put_branches(
    alloc: Global,
    sp: &mut Space,
    scope: &Scope<'_>,
    branches: &Seq<Branch>,
    xs: &[Value],
) -> Result<(), SpaceFault>
    requires can { CanPut sp.old scope.now xs.now (1 + all_branch_depth branches.now) }
    requires arms { AreArms scope.now branches.now }
    ensures ok { OnOk result (PutsFamily sp.old sp.new scope.now.m.now scope.now.at xs.now (arm_choice branches.now)) }
    ensures err { IfErr result (λ f. Leaves sp.old sp.new f) }
{
    let n = sp.sets();
    put_none(sp);
    let mut i = branches.len();
    while i > 0 {
        i -= 1;
        let b = branches.get(i);
        put_tree(alloc, sp, scope, &b.guard, &ONES)?;
        put_tree(alloc, sp, scope, &b.body, xs)?;
        finish_branch(sp, n)?;
    }
    Ok(())
}
