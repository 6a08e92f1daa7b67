ghost use Rattle.std.specs.Prelude.{◌≡◌, ◌<◌, ◌≤◌, IsTrue, IfOk, OnOk, OnErr, length, slice_get, Some};
ghost use Rattle.std.specs.List.{list_all};
ghost use Rattle.cov_model.specs.Order.{Reads, reads_of, circular, leads_to, dependence, has, read_by};
ghost use Rattle.cov_order.specs.Reach as spec;

use crate::order::Order;
use cov_model::Define;
use cov_syntax::{FaultKind, ModelFault, NoMemory, Seq};
use std::alloc::Global;

/// The first DEFINE that reads itself. None that is placed does.
pub(crate) fn first_circle(
    alloc: Global,
    defines: &[Define],
    reads: &Seq<Seq<u32>>,
    order: &Order,
) -> Result<Option<ModelFault>, NoMemory>
    requires few { length defines.now ≤ 4096 }
    requires reads { reads.now ≡ reads_of defines.now }
    requires there { spec.AreThere defines.now }
    requires placed { order.now.items ≡ dependence reads.now }
    ensures { IfOk result (λ f. f ≡ circular defines.now) }
{
    for (i, d) in defines.iter().enumerate() {
        if is_circular(alloc, reads, i as u32, order)? {
            return Ok(Some(FaultKind::Circular.at(d.place)));
        }
    }
    Ok(None)
}

/// Whether the DEFINE reads itself.
fn is_circular(
    alloc: Global,
    reads: &Seq<Seq<u32>>,
    i: u32,
    order: &Order,
) -> Result<bool, NoMemory>
    requires few { length reads.now ≤ 4096 }
    requires here { i < length reads.now }
    requires there { IsTrue (spec.are_there reads.now) }
    requires placed { order.now.items ≡ dependence reads.now }
    ensures { IfOk result (λ b. b ≡ leads_to (length reads.now) reads.now i i) }
{
    if order.has(i) {
        return Ok(false);
    }
    let reached = all_reached(alloc, reads, i)?;
    Ok(reached.has(i))
}

/// What the DEFINE reads, itself and through others.
fn all_reached(alloc: Global, reads: &Seq<Seq<u32>>, i: u32) -> Result<Order, NoMemory>
    requires few { length reads.now ≤ 4096 }
    requires here { i < length reads.now }
    requires there { IsTrue (spec.are_there reads.now) }
    ensures { IfOk result (λ o. has o.items i ≡ leads_to (length reads.now) reads.now i i) }
{
    let n = reads.len();
    let mut reached = Order::new(alloc, n)?;
    add_all(reads.get(i as usize).as_slice(), &mut reached)?;
    for k in 0..n {
        expand(reads, k, &mut reached)?;
    }
    Ok(reached)
}

/// Adds what the k-th of those that are reached reads.
fn expand(reads: &Seq<Seq<u32>>, k: usize, reached: &mut Order) -> Result<(), NoMemory>
    requires few { length reads.now ≤ 4096 }
    requires there { IsTrue (spec.are_there reads.now) }
    requires room { length reached.old.places ≡ length reads.now }
    ensures ok { OnOk result (reached.new.items ≡ spec.expanded reads.now k reached.old.items) }
    ensures room { length reached.new.places ≡ length reads.now }
{
    match reached.get(k) {
        None => Ok(()),
        Some(j) => add_all(reads.get(j as usize).as_slice(), reached),
    }
}

/// Adds those that are not there yet.
fn add_all(js: &[u32], reached: &mut Order) -> Result<(), NoMemory>
    requires room { IsTrue (spec.all_below (length reached.old.places) js.now) }
    requires few { length reached.old.places ≤ 4096 }
    ensures ok { OnOk result (reached.new.items ≡ spec.grown reached.old.items js.now) }
    ensures room { length reached.new.places ≡ length reached.old.places }
{
    for j in js {
        add(*j, reached)?;
    }
    Ok(())
}

/// Adds the number, where it is not there yet.
fn add(j: u32, reached: &mut Order) -> Result<(), NoMemory>
    requires room { j < length reached.old.places }
    requires few { length reached.old.places ≤ 4096 }
    ensures ok { OnOk result (reached.new.items ≡ spec.with reached.old.items j) }
    ensures room { length reached.new.places ≡ length reached.old.places }
{
    if reached.has(j) {
        Ok(())
    } else {
        reached.push(j)
    }
}
