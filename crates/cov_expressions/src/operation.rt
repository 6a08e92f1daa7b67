ghost use Rattle.std.specs.Prelude.{◌≡◌, ◌<◌, ◌≤◌, ◌+◌, ◌*◌, length, IsTrue, OnOk, IfErr};
ghost use Rattle.cov_model.specs.declared.model.Model as model;
ghost use Rattle.cov_space.specs.Sets.{HasRoom, set_at};
ghost use Rattle.cov_space.specs.Steps.{Leaves};
ghost use Rattle.cov_nodes.specs.Choices.{Choice, IsChunk, IsFamily, PutsFamily, negated_choices, operated_choices};
ghost use Rattle.cov_nodes.specs.declared.reading.Reading as reading;
ghost use Rattle.cov_expressions.specs.Parts.{AreFamilies, HasSets, asks_values, cut_to, is_sum, made_choice};

use crate::choices::finish_either;
use crate::chunks::Chunks;
use crate::truths::{ONES, finish_truth};
use cov_nodes::{put_negated, put_none, put_operated};
use cov_space::{Slot, Space, SpaceFault};
use cov_syntax::{Op2, Value};
use std::alloc::Global;

/// Puts what an operator makes of the choices in one chunk on the left and those on the right.
fn put_row(
    alloc: Global,
    sp: &mut Space,
    op: Op2,
    left: Slot,
    xs: &[Value],
    right: Chunks<'_>,
    results: &[Value],
) -> Result<(), SpaceFault>
    requires slot { left < length sp.old.sets }
    requires left { IsChunk sp.old.levels xs.now }
    requires right { HasSets sp.old right.first right.size right.values.now }
    requires results { IsChunk sp.old.levels results.now }
    requires room { HasRoom sp.old (length right.values.now + length results.now + 14) }
    ensures ok { (m : model.Model) (at : reading.Reading) (f g : Choice) → IsFamily sp.old.levels m at xs.now f (set_at sp.old.sets left) → AreFamilies sp.old m at right.entry.first right.entry.values.now g
        → OnOk result (PutsFamily sp.old sp.new m at results.now (operated_choices op xs.now right.entry.values.now f g)) }
    ensures err { IfErr result (λ e. Leaves sp.old sp.new e) }
{
    let n = sp.sets();
    put_none(sp);
    for k in 0..right.count() {
        put_operated(
            alloc,
            sp,
            op,
            left,
            right.first + k,
            xs,
            right.chunk(k),
            results,
        )?;
        finish_either(sp, n)?;
    }
    Ok(())
}

/// Puts what an operator makes of the choices of its sides.
fn put_rows(
    alloc: Global,
    sp: &mut Space,
    op: Op2,
    left: Chunks<'_>,
    right: Chunks<'_>,
    results: &[Value],
) -> Result<(), SpaceFault>
    requires left { HasSets sp.old left.first left.size left.values.now }
    requires right { HasSets sp.old right.first right.size right.values.now }
    requires results { IsChunk sp.old.levels results.now }
    requires room { HasRoom sp.old (length right.values.now + length results.now + 15) }
    ensures ok { (m : model.Model) (at : reading.Reading) (f g : Choice) → AreFamilies sp.old m at left.entry.first left.entry.values.now f → AreFamilies sp.old m at right.entry.first right.entry.values.now g
        → OnOk result (PutsFamily sp.old sp.new m at results.now (operated_choices op left.entry.values.now right.entry.values.now f g)) }
    ensures err { IfErr result (λ e. Leaves sp.old sp.new e) }
{
    let n = sp.sets();
    put_none(sp);
    for k in 0..left.count() {
        put_row(alloc, sp, op, left.first + k, left.chunk(k), right, results)?;
        finish_either(sp, n)?;
    }
    Ok(())
}

/// Whether the operator makes a number.
fn makes_number(op: Op2) -> bool
    ensures { result ≡ is_sum op }
{
    matches!(op, Op2::Add | Op2::Sub | Op2::Mul | Op2::Div | Op2::Mod)
}

/// Turns the sets of the chunks of both sides, which stand from `n` on, into the family of the operator.
pub(crate) fn finish_operation(
    alloc: Global,
    sp: &mut Space,
    n: Slot,
    op: Op2,
    left: Chunks<'_>,
    right: Chunks<'_>,
    xs: &[Value],
) -> Result<(), SpaceFault>
    requires op { IsTrue (asks_values op) }
    requires n { n ≤ length sp.old.sets }
    requires left { HasSets sp.old left.first left.size left.values.now }
    requires right { HasSets sp.old right.first right.size right.values.now }
    requires chunk { IsChunk sp.old.levels xs.now }
    requires room { HasRoom sp.old (length right.values.now + length xs.now + 15) }
    ensures ok { (m : model.Model) (at : reading.Reading) (f g : Choice) → AreFamilies sp.old m at left.entry.first left.entry.values.now f → AreFamilies sp.old m at right.entry.first right.entry.values.now g
        → OnOk result (PutsFamily (cut_to n sp.old) sp.new m at xs.now (made_choice op left.entry.values.now right.entry.values.now f g)) }
    ensures err { IfErr result (λ e. Leaves (cut_to n sp.old) sp.new e) }
{
    if makes_number(op) {
        put_rows(alloc, sp, op, left, right, xs)?;
        sp.settle(n);
        Ok(())
    } else {
        put_rows(alloc, sp, op, left, right, &ONES)?;
        sp.settle(n);
        finish_truth(sp, n, xs)
    }
}

/// Puts the negatives of the choices in the chunks.
fn put_negatives(
    alloc: Global,
    sp: &mut Space,
    operand: Chunks<'_>,
    results: &[Value],
) -> Result<(), SpaceFault>
    requires operand { HasSets sp.old operand.first operand.size operand.values.now }
    requires results { IsChunk sp.old.levels results.now }
    requires room { HasRoom sp.old 14 }
    ensures ok { (m : model.Model) (at : reading.Reading) (f : Choice) → AreFamilies sp.old m at operand.entry.first operand.entry.values.now f
        → OnOk result (PutsFamily sp.old sp.new m at results.now (negated_choices operand.entry.values.now f)) }
    ensures err { IfErr result (λ e. Leaves sp.old sp.new e) }
{
    let n = sp.sets();
    put_none(sp);
    for k in 0..operand.count() {
        put_negated(alloc, sp, operand.first + k, operand.chunk(k), results)?;
        finish_either(sp, n)?;
    }
    Ok(())
}

/// Turns the sets of the chunks of the operand, which stand from `n` on, into the family of the negatives.
pub(crate) fn finish_negation(
    alloc: Global,
    sp: &mut Space,
    n: Slot,
    operand: Chunks<'_>,
    xs: &[Value],
) -> Result<(), SpaceFault>
    requires n { n ≤ length sp.old.sets }
    requires operand { HasSets sp.old operand.first operand.size operand.values.now }
    requires chunk { IsChunk sp.old.levels xs.now }
    requires room { HasRoom sp.old 14 }
    ensures ok { (m : model.Model) (at : reading.Reading) (f : Choice) → AreFamilies sp.old m at operand.entry.first operand.entry.values.now f
        → OnOk result (PutsFamily (cut_to n sp.old) sp.new m at xs.now (negated_choices operand.entry.values.now f)) }
    ensures err { IfErr result (λ e. Leaves (cut_to n sp.old) sp.new e) }
{
    put_negatives(alloc, sp, operand, xs)?;
    sp.settle(n);
    Ok(())
}
