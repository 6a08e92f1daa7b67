ghost use Rattle.std.specs.Prelude.{◌≡◌, ◌<◌, ◌≤◌, false, replicate, IsTrue, IfOk, length, take, slice_index, unwrap_or, slice_get, ℕ, List};
ghost use Rattle.std.specs.List.{list_all};
ghost use Rattle.cov_model.specs.Order.{dependence, next_define, has, read_by};
ghost use Rattle.cov_order.specs.Tables as spec;

use crate::order::Order;
use cov_syntax::{NoMemory, Seq};
use std::alloc::Global;

/// The places of the DEFINEs in order of dependence, given what each names.
///
/// Of each DEFINE it is kept how many of its first reads are placed, so all reads together are passed once.
pub(crate) fn dependence(alloc: Global, reads: &Seq<Seq<u32>>) -> Result<Order, NoMemory>
    requires { length reads.now ≤ 4096 }
    ensures { IfOk result (λ o. o.items ≡ dependence reads.now) }
{
    let n = reads.len();
    let mut order = Order::new(alloc, n)?;
    let mut passed = zeros(alloc, n)?;
    for _ in 0..n {
        match next_ready(reads.as_slice(), &order, &mut passed) {
            None => return Ok(order),
            Some(i) => order.push(i)?,
        }
    }
    Ok(order)
}

fn zeros(alloc: Global, n: usize) -> Result<Seq<usize>, NoMemory>
    ensures { IfOk result (λ xs. xs ≡ replicate n 0) }
{
    let mut xs = Seq::new(alloc);
    for _ in 0..n {
        xs.push(0)?;
    }
    Ok(xs)
}

/// The first DEFINE that is not placed and reads only placed ones.
fn next_ready(reads: &[Seq<u32>], order: &Order, passed: &mut Seq<usize>) -> Option<u32>
    requires few { length reads.now ≤ 4096 }
    requires room { length passed.old ≡ length reads.now }
    requires passed { spec.ArePassed order.now.items passed.old reads.now }
    ensures next { result ≡ next_define order.now.items 0 reads.now }
    ensures room { length passed.new ≡ length reads.now }
    ensures passed { spec.ArePassed order.now.items passed.new reads.now }
{
    for (i, js) in reads.iter().enumerate() {
        if is_ready(i, js.as_slice(), order, passed) {
            return Some(i as u32);
        }
    }
    None
}

/// Whether the DEFINE is not placed and reads only placed ones.
fn is_ready(i: usize, js: &[u32], order: &Order, passed: &mut Seq<usize>) -> bool
    requires few { i < 4096 }
    requires room { i < length passed.old }
    requires passed { IsTrue (list_all (has order.now.items) (take (unwrap_or (slice_get passed.old i) 0) js.now)) }
    ensures ready { result ≡ spec.is_ready order.now.items i js.now }
    ensures room { length passed.new ≡ length passed.old }
    ensures here { IsTrue (list_all (has order.now.items) (take (unwrap_or (slice_get passed.new i) 0) js.now)) }
    ensures others { (k : ℕ) → (k ≡ i → ⊥) → slice_get passed.new k ≡ slice_get passed.old k }
{
    if order.has(i as u32) {
        return false;
    }
    let k = first_unplaced(js, *passed.get(i), order);
    passed.replace(i, k);
    k >= js.len()
}

/// The place of the first read from a place on that is not placed.
fn first_unplaced(js: &[u32], from: usize, order: &Order) -> usize
    requires { IsTrue (list_all (has order.now.items) (take from js.now)) }
    ensures placed { IsTrue (list_all (has order.now.items) (take result js.now)) }
    ensures first { result < length js.now → has order.now.items (slice_index js.now result) ≡ false }
{
    let mut k = from;
    while k < js.len() && order.has(js[k]) {
        k += 1;
    }
    k
}
