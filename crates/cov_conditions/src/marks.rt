ghost use Rattle.std.specs.Prelude.{◌≡◌, ◌<◌, ℕ, length, true, slice_get, slice_set, Some, IsTrue, IfOk};
ghost use Rattle.cov_model.specs.Order.{has, reads};
ghost use Rattle.cov_model.specs.declared.model.Define.{Define};
ghost use Rattle.cov_order.specs.Parts as parts;
ghost use Rattle.cov_ranges.specs.Ranges.{IsExpressionOf};
ghost use Rattle.cov_conditions.specs.Marks as spec;

use cov_model::Define;
use cov_readings::defines_read_earlier;
use cov_syntax::{Branch, Expr, NoMemory, Node, Seq};
use cov_types::Checked;
use std::alloc::Global;

/// Which DEFINEs the expression reads, itself and through others.
pub(crate) fn find_reads(alloc: Global, m: &Checked, e: &Expr) -> Result<Vec<bool>, NoMemory>
    requires { IsExpressionOf m.now e.now }
    ensures { IfOk result (λ marks. spec.AreReads m.now e.now marks.items) }
{
    defines_read_earlier();
    let defines = m.model().defines.as_slice();
    let mut marks = vec![in alloc; false; defines.len()]?;
    mark_all(defines, e, marks.as_mut_slice());
    Ok(marks)
}

/// Marks the DEFINEs that the expression reads, itself and through others.
fn mark_all(defines: &[Define], e: &Expr, marks: &mut [bool])
    requires earlier { (i : ℕ) (d : Define) → slice_get defines.now i ≡ Some d → (j : ℕ) → IsTrue (has (reads d.body) j) → j < i }
    requires there { (j : ℕ) → IsTrue (has (reads e.now) j) → j < length defines.now }
    requires count { length marks.old ≡ length defines.now }
    ensures here { IsTrue (spec.are_marked marks.new (reads e.now)) }
    ensures below { spec.AreClosed defines.now marks.new }
{
    mark_reads(e, marks);
    mark_below(defines, marks);
}

/// Marks what the bodies of marked DEFINEs read.
fn mark_below(defines: &[Define], marks: &mut [bool])
    requires earlier { (i : ℕ) (d : Define) → slice_get defines.now i ≡ Some d → (j : ℕ) → IsTrue (has (reads d.body) j) → j < i }
    requires count { length marks.old ≡ length defines.now }
    ensures kept { (i : ℕ) → IsTrue (spec.is_marked marks.old i) → IsTrue (spec.is_marked marks.new i) }
    ensures closed { spec.AreClosed defines.now marks.new }
{
    let mut i = defines.len();
    while i > 0 {
        i -= 1;
        if marks[i] {
            mark_reads(&defines[i].body, marks);
        }
    }
}

/// Marks one, if it is there.
fn mark(marks: &mut [bool], i: u32)
    ensures { marks.new ≡ slice_set marks.old i true }
{
    if (i as usize) < marks.len() {
        marks[i as usize] = true;
    }
}

/// Marks the DEFINEs that the expression names.
#[cycle(marking)]
fn mark_reads(e: &Expr, marks: &mut [bool])
    ensures { marks.new ≡ spec.with_marks marks.old (reads e.now) }
{
    mark_node(&e.node, marks)
}

#[cycle(marking)]
fn mark_node(n: &Node, marks: &mut [bool])
    ensures { marks.new ≡ spec.with_marks marks.old (parts.node_reads n.now) }
{
    match n {
        Node::Lit(_) | Node::Path(_) | Node::Var(_) | Node::Range(_, _) => {}
        Node::Def(i) => mark(marks, *i),
        Node::One(_, a) => mark_reads(a.get(), marks),
        Node::Two(_, a, b) => {
            mark_reads(a.get(), marks);
            mark_reads(b.get(), marks)
        }
        Node::Set(items) => mark_items(items, marks),
        Node::Case(branches) => mark_branches(branches, marks),
    }
}

#[cycle(marking)]
fn mark_items(items: &Seq<Expr>, marks: &mut [bool])
    ensures { marks.new ≡ spec.with_marks marks.old (parts.item_reads items.now) }
{
    for e in items.as_slice() {
        mark_reads(e, marks);
    }
}

#[cycle(marking)]
fn mark_branches(branches: &Seq<Branch>, marks: &mut [bool])
    ensures { marks.new ≡ spec.with_marks marks.old (parts.branch_reads branches.now) }
{
    for b in branches.as_slice() {
        mark_reads(&b.guard, marks);
        mark_reads(&b.body, marks);
    }
}
