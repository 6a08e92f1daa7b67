ghost use Rattle.std.specs.Prelude.{◌≡◌, ◌<◌, ◌≤◌, ◌++◌, ◌∷◌, [], length, take, OnOk, OnErr, MatchOption, slice_get, slice_set};

use cov_dd::NoMemory;
use std::alloc::Global;
use std::marker::Model;
use std::mem;

/// The name of a set in a Space: its place in the list of sets, from 0.
pub type Slot = u32;

/// A list of names of sets.
#[derive(Debug, Drop)]
pub struct Slots {
    items: Vec<Slot>,
}

impl Model for Slots {
    ghost use Rattle.std.specs.Prelude.{List, ℕ};

    ghost Value = { List ℕ };

    ghost view = { λ s. s.items.items };
}

impl Slots {
    /// It takes no memory.
    pub fn new(alloc: Global) -> Slots
        ensures { result ≡ [] }
    {
        Slots {
            items: Vec::new(alloc),
        }
    }

    /// The number of names.
    pub fn len(&self) -> usize
        ensures { result ≡ length self.now }
    {
        self.items.len()
    }

    /// The name at a place, from 0.
    pub fn get(&self, i: usize) -> &Slot
        requires { i < length self.now }
        ensures { slice_get self.now i ≡ Some result.now }
    {
        &self.items[i]
    }

    /// All names.
    pub fn as_slice(&self) -> &[Slot]
        ensures { result.now ≡ self.now }
    {
        self.items.as_slice()
    }

    /// Puts a name last.
    pub fn push(&mut self, item: Slot) -> Result<(), NoMemory>
        ensures ok { OnOk result (self.new ≡ self.old ++ item ∷ []) }
        ensures err { OnErr result (self.new ≡ self.old) }
    {
        self.items.push(item)?;
        Ok(())
    }

    /// Takes out the last name.
    pub fn pop(&mut self) -> Option<Slot>
        ensures { MatchOption result ((self.old ≡ []) × (self.new ≡ [])) (λ last. self.old ≡ self.new ++ last ∷ []) }
    {
        self.items.pop()
    }

    /// Puts a name at a place, and gives the one that stood there.
    pub fn replace(&mut self, i: usize, item: Slot) -> Slot
        requires { i < length self.old }
        ensures before { slice_get self.old i ≡ Some result }
        ensures after { self.new ≡ slice_set self.old i item }
    {
        mem::replace(&mut self.items[i], item)
    }

    /// Keeps the first `n` names.
    pub fn cut(&mut self, n: usize)
        requires { n ≤ length self.old }
        ensures { self.new ≡ take n self.old }
    {
        self.items.truncate(n);
    }
}
