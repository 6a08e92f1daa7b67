ghost use Rattle.std.specs.Prelude.{◌≡◌, ◌<◌, ◌≤◌, ◌++◌, ◌∷◌, [], length, take, OnOk, OnErr, MatchOption, slice_get, slice_set};

use crate::fault::NoMemory;
use crate::node::Ref;
use std::alloc::Global;
use std::marker::Model;
use std::mem;

/// A list of diagrams.
#[derive(Debug, Drop)]
pub struct Refs {
    pub(crate) items: Vec<Ref>,
}

impl Model for Refs {
    ghost use Rattle.std.specs.Prelude.{List};
    ghost use Rattle.cov_dd.specs.declared.node.Ref.{Ref};

    ghost Value = { List Ref };

    ghost view = { λ r. r.items.items };
}

impl Refs {
    /// It takes no memory.
    pub fn new(alloc: Global) -> Refs
        ensures { result ≡ [] }
    {
        Refs {
            items: Vec::new(alloc),
        }
    }

    /// The number of diagrams.
    pub fn len(&self) -> usize
        ensures { result ≡ length self.now }
    {
        self.items.len()
    }

    /// The diagram at a place, from 0.
    pub fn get(&self, i: usize) -> &Ref
        requires { i < length self.now }
        ensures { slice_get self.now i ≡ Some result.now }
    {
        &self.items[i]
    }

    /// All diagrams.
    pub fn as_slice(&self) -> &[Ref]
        ensures { result.now ≡ self.now }
    {
        self.items.as_slice()
    }

    /// Puts a diagram last.
    pub fn push(&mut self, item: Ref) -> Result<(), NoMemory>
        ensures ok { OnOk result (self.new ≡ self.old ++ item ∷ []) }
        ensures err { OnErr result (self.new ≡ self.old) }
    {
        self.items.push(item)?;
        Ok(())
    }

    /// Takes out the last diagram.
    pub fn pop(&mut self) -> Option<Ref>
        ensures { MatchOption result ((self.old ≡ []) × (self.new ≡ [])) (λ last. self.old ≡ self.new ++ last ∷ []) }
    {
        self.items.pop()
    }

    /// Puts a diagram at a place, and gives the one that stood there.
    pub fn replace(&mut self, i: usize, item: Ref) -> Ref
        requires { i < length self.old }
        ensures before { slice_get self.old i ≡ Some result }
        ensures after { self.new ≡ slice_set self.old i item }
    {
        mem::replace(&mut self.items[i], item)
    }

    /// Keeps the first `n` diagrams.
    pub fn cut(&mut self, n: usize)
        requires { n ≤ length self.old }
        ensures { self.new ≡ take n self.old }
    {
        self.items.truncate(n);
    }
}
