ghost use Rattle.std.specs.Prelude.{◌≡◌, ◌++◌, ◌∷◌, [], false, ℕ, List, None, Option, unwrap_or, slice_get, ◌==◌, position, length, ◌<◌, ◌≤◌, IfOk, OnOk, IsTrue};
ghost use Rattle.cov_model.specs.Order.{has, place_in};
ghost use Rattle.cov_model.specs.WellFormed.{all_different};

use cov_syntax::{NoMemory, Seq};
use std::alloc::Global;

/// Different numbers in some order, with the place of each.
#[derive(Drop)]
pub(crate) struct Order {
    pub(crate) items: Seq<u32>,
    pub(crate) places: Seq<Option<u32>>,
    ghost right: { (j : ℕ) → unwrap_or (slice_get places j) None ≡ position (λ k. k == j) items },
    ghost different: { IsTrue (all_different items) },
}

impl Order {
    /// No number yet, and room for those below `n`.
    pub(crate) fn new(alloc: Global, n: usize) -> Result<Order, NoMemory>
        ensures empty { IfOk result (λ o. o.items ≡ []) }
        ensures room { IfOk result (λ o. length o.places ≡ n) }
    {
        let mut places = Seq::new(alloc);
        for _ in 0..n {
            places.push(None)?;
        }
        Ok(Order {
            items: Seq::new(alloc),
            places,
        })
    }

    /// Whether the number is there.
    pub(crate) fn has(&self, i: u32) -> bool
        ensures { result ≡ has self.now.items i }
    {
        self.place_of(i).is_some()
    }

    /// The place of the number, and 0 where it is not there.
    pub(crate) fn place(&self, i: u32) -> u32
        ensures { result ≡ place_in self.now.items i }
    {
        self.place_of(i).unwrap_or(0)
    }

    fn place_of(&self, i: u32) -> Option<u32>
        ensures { result ≡ position (λ k. k == i) self.now.items }
    {
        entry(self.places.as_slice(), i)
    }

    /// The number at a place, if there is one.
    pub(crate) fn get(&self, k: usize) -> Option<u32>
        ensures { result ≡ slice_get self.now.items k }
    {
        self.items.as_slice().get(k).copied()
    }

    /// Puts a number last.
    pub(crate) fn push(&mut self, i: u32) -> Result<(), NoMemory>
        requires new { has self.old.items i ≡ false }
        requires room { i < length self.old.places }
        requires few { length self.old.places ≤ 4096 }
        ensures ok { OnOk result (self.new.items ≡ self.old.items ++ i ∷ []) }
        ensures room { length self.new.places ≡ length self.old.places }
    {
        let place = self.items.len() as u32;
        self.items.push(i)?;
        self.places.replace(i as usize, Some(place));
        Ok(())
    }
}

fn entry(places: &[Option<u32>], i: u32) -> Option<u32>
    ensures { result ≡ unwrap_or (slice_get places.now i) None }
{
    places.get(i as usize).copied().unwrap_or(None)
}
