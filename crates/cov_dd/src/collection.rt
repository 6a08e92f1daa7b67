ghost use Rattle.std.specs.Prelude.{◌≡◌, ◌≢◌, ℕ, ◌<◌, ◌≤◌, ◌^◌, Bool, false, true, length, take, get_or};
ghost use Rattle.cov_dd.specs.Nodes.{rank, node_at};
ghost use Rattle.cov_dd.specs.Moved.{moved, moved_node, IsMarked, AreMoved};
ghost use Rattle.cov_dd.specs.Reached.{marked, ref_at, AllWithin, Fall, AreClosed, Reaches, AreGathered};

use crate::node::{Part, Ref};

/// Moves what a list reaches to the front, and the list with it.
pub fn gather(nodes: &mut [Part], keep: &mut [Ref], marks: &mut [bool], places: &mut [u32]) -> u32
    requires marks { length marks.old ≡ length nodes.old }
    requires places { length places.old ≡ length nodes.old }
    requires small { length nodes.old < 2 ^ 32 }
    requires fall { Fall nodes.old }
    requires live { AllWithin (length nodes.old) keep.old }
    requires clear { (i : ℕ) → get_or marks.old i false ≡ false }

    ensures within { result ≤ length nodes.old }
    ensures gathered { AreGathered nodes.old (take result nodes.new) keep.old keep.new }
{
    mark_roots(keep, marks);
    mark_below(nodes, marks);
    let kept = compact(nodes, marks, places);
    rename_all(keep, places);
    kept
}

/// Marks the node that a reference names.
fn mark(marks: &mut [bool], r: Ref)
    requires { rank r ≤ length marks.old }
    ensures { marks.new ≡ marked marks.old r }
{
    match r {
        Ref::Constant(_) => {}
        Ref::Inner(i) => marks[i as usize] = true,
    }
}

/// Marks the nodes that a list names.
fn mark_roots(keep: &[Ref], marks: &mut [bool])
    requires live { AllWithin (length marks.old) keep.now }
    requires clear { (i : ℕ) → get_or marks.old i false ≡ false }

    ensures marked { (k : ℕ) → k < length keep.now → IsMarked marks.new (ref_at keep.now k) }
    ensures only { (i : ℕ) → get_or marks.new i false ≡ true → (k : ℕ) × (k < length keep.now) × (ref_at keep.now k ≡ Ref.Inner i) }
{
    for r in keep {
        mark(marks, *r);
    }
}

/// Marks the children of marked nodes.
fn mark_below(nodes: &[Part], marks: &mut [bool])
    requires same { length marks.old ≡ length nodes.now }
    requires fall { Fall nodes.now }

    ensures stays { (r : Ref) → IsMarked marks.old r → IsMarked marks.new r }
    ensures closed { AreClosed nodes.now marks.new }
    ensures only { (i : ℕ) → get_or marks.new i false ≡ true → (j : ℕ) × (get_or marks.old j false ≡ true) × Reaches nodes.now (Ref.Inner j) (Ref.Inner i) }
{
    let mut i = nodes.len();
    while i > 0 {
        i -= 1;
        if marks[i] {
            let node = nodes[i];
            mark(marks, node.low);
            mark(marks, node.high);
        }
    }
}

/// Moves the marked nodes to the front, in their order.
fn compact(nodes: &mut [Part], marks: &[bool], places: &mut [u32]) -> u32
    requires marks { length marks.now ≡ length nodes.old }
    requires places { length places.old ≡ length nodes.old }
    requires small { length nodes.old < 2 ^ 32 }
    requires fall { Fall nodes.old }
    requires closed { AreClosed nodes.old marks.now }

    ensures within { result ≤ length nodes.old }
    ensures moved { AreMoved nodes.old (take result nodes.new) marks.now places.new }
{
    let mut next = 0u32;
    for i in 0..nodes.len() {
        if marks[i] {
            let node = nodes[i];
            let low = rename(places, node.low);
            let high = rename(places, node.high);
            nodes[next as usize] = Part {
                level: node.level,
                low,
                high,
            };
            places[i] = next;
            next += 1;
        }
    }
    next
}

/// A reference after the nodes were moved.
fn rename(places: &[u32], r: Ref) -> Ref
    requires { rank r ≤ length places.now }
    ensures { result ≡ moved places.now r }
{
    match r {
        Ref::Constant(value) => Ref::Constant(value),
        Ref::Inner(i) => Ref::Inner(places[i as usize]),
    }
}

/// The references of a list after the nodes were moved.
fn rename_all(keep: &mut [Ref], places: &[u32])
    requires { AllWithin (length places.now) keep.old }
    ensures { (k : ℕ) → k < length keep.old → ref_at keep.new k ≡ moved places.now (ref_at keep.old k) }
{
    for i in 0..keep.len() {
        keep[i] = rename(places, keep[i]);
    }
}

/// Whether a diagram reaches a node of this level.
pub fn level_reached(nodes: &[Part], f: Ref, level: u16, marks: &mut [bool]) -> bool
    requires same { length marks.old ≡ length nodes.now }
    requires fall { Fall nodes.now }
    requires live { rank f ≤ length nodes.now }
    requires clear { (i : ℕ) → get_or marks.old i false ≡ false }

    ensures some { result ≡ true → (i : ℕ) × (i < length nodes.now) × ((node_at nodes.now i).level ≡ level) × Reaches nodes.now f (Ref.Inner i) }
    ensures none { result ≡ false → (i : ℕ) → i < length nodes.now → Reaches nodes.now f (Ref.Inner i) → (node_at nodes.now i).level ≢ level }
{
    mark(marks, f);
    mark_below(nodes, marks);
    for i in 0..nodes.len() {
        if marks[i] && nodes[i].level == level {
            return true;
        }
    }
    false
}
