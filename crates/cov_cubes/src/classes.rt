ghost use Rattle.std.specs.Prelude.{◌≡◌, ◌<◌, ◌≤◌, ◌+◌, ◌&&◌, length, not, IfOk, IfErr, OnOk};
ghost use Rattle.cov_space.specs.Sets.{set_at, HasRoom};
ghost use Rattle.cov_space.specs.Steps.{with_more, Leaves};
ghost use Rattle.cov_fields.specs.Fields.{IsField};
ghost use Rattle.cov_cubes.specs.Steps as spec;

use crate::variable::Variable;
use cov_fields::{Field, restrict_to};
use cov_space::{Slot, Space, SpaceFault};
use cov_syntax::{NoMemory, Seq};
use std::alloc::Global;

/// The places of a variable's values whose rest sets are equal, ascending.
pub(crate) type Class = Seq<u16>;

/// Puts the rest set of each value, and the empty set behind them.
fn put_rests(sp: &mut Space, set: Slot, field: Field, size: u16) -> Result<(), SpaceFault>
    requires set { set < length sp.old.sets }
    requires field { IsField sp.old.levels field }
    requires room { HasRoom sp.old (size + 5) }
    ensures ok { OnOk result (sp.new ≡ with_more sp.old (spec.rests sp.old.levels field (set_at sp.old.sets set) size)) }
    ensures err { IfErr result (λ e. Leaves sp.old sp.new e) }
{
    let _sets = sp.sets();
    for v in 0..size {
        restrict_to(sp, set, field, v)?;
    }
    sp.constant(false);
    Ok(())
}

/// Whether two sets are equal.
fn alike(sp: &Space, a: Slot, b: Slot) -> bool
    requires a { a < length sp.now.sets }
    requires b { b < length sp.now.sets }
    ensures { result ≡ spec.equal_sets (set_at sp.now.sets a) (set_at sp.now.sets b) }
{
    sp.same(a, b)
}

/// Whether no set before this one is equal to it.
fn is_new(sp: &Space, base: Slot, v: u16) -> bool
    requires { base + v < length sp.now.sets }
    ensures { result ≡ spec.is_new (spec.alike sp.now.sets base) v }
{
    let _sets = sp.sets();
    for w in 0..v {
        if alike(sp, base + v as u32, base + w as u32) {
            return false;
        }
    }
    true
}

/// Whether a set is the first of its class, and not that behind all.
fn begins_class(sp: &Space, base: Slot, size: u16, v: u16) -> bool
    requires v { v < size }
    requires sets { base + size < length sp.now.sets }
    ensures { result ≡ (spec.is_new (spec.alike sp.now.sets base) v && not (spec.alike sp.now.sets base v size)) }
{
    let _sets = sp.sets();
    is_new(sp, base, v) && !alike(sp, base + v as u32, base + size as u32)
}

/// The places of the sets that are equal to this one.
fn class_at(alloc: Global, sp: &Space, base: Slot, size: u16, v: u16) -> Result<Class, NoMemory>
    requires v { v < size }
    requires sets { base + size < length sp.now.sets }
    ensures { IfOk result (λ c. c ≡ spec.class_by (spec.alike sp.now.sets base) size v) }
{
    let _sets = sp.sets();
    let mut class = Seq::new(alloc);
    for w in 0..size {
        if alike(sp, base + v as u32, base + w as u32) {
            class.push(w)?;
        }
    }
    Ok(class)
}

/// The classes of so many sets, without those of the set behind them.
fn classes_at(alloc: Global, sp: &Space, base: Slot, size: u16) -> Result<Seq<Class>, NoMemory>
    requires { base + size < length sp.now.sets }
    ensures { IfOk result (λ cs. cs ≡ spec.classes_by (spec.alike sp.now.sets base) size) }
{
    let _sets = sp.sets();
    let mut classes = Seq::new(alloc);
    for v in 0..size {
        if begins_class(sp, base, size, v) {
            classes.push(class_at(alloc, sp, base, size, v)?)?;
        }
    }
    Ok(classes)
}

/// The classes of the values of a variable, without those whose rest set is empty.
pub(crate) fn find_classes(
    alloc: Global,
    sp: &mut Space,
    set: Slot,
    y: Variable,
) -> Result<Seq<Class>, SpaceFault>
    requires set { set < length sp.old.sets }
    requires field { IsField sp.old.levels y.field }
    requires room { HasRoom sp.old (y.size + 5) }
    ensures ok { IfOk result (λ cs. cs ≡ spec.classes_by (spec.alike (spec.rests sp.old.levels y.field (set_at sp.old.sets set) y.size) 0) y.size) }
    ensures kept { OnOk result (sp.new ≡ sp.old) }
    ensures err { IfErr result (λ e. Leaves sp.old sp.new e) }
{
    let n = sp.sets();
    put_rests(sp, set, y.field, y.size)?;
    let Ok(classes) = classes_at(alloc, sp, n, y.size) else {
        return Err(SpaceFault::Memory);
    };
    sp.cut(n);
    Ok(classes)
}
