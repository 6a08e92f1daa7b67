ghost use Rattle.std.specs.Prelude.{false, ◌≡◌, ◌≢◌, ℕ, ◌<◌, ◌≤◌, ◌^◌, ◌↔◌, List, ◌++◌, ◌∷◌, [], length, IsErr, IfSome, IfOk, IfErr, OnOk, OnErr, MatchOption, MatchResult};
ghost use Rattle.cov_dd.specs.Nodes.{TableOf, den, level_of, node_at, part_of, IsInner, IsLive, IsTable, IsBelow, IsNew, Answers, counted, Keeps, Denotes, chosen};
ghost use Rattle.cov_dd.specs.Cofactors.{Computes, IsRefused, SplitsAt};
ghost use Rattle.cov_dd.specs.Reached.{AllLive, IsCollected, SizeIsNeed};
ghost use Rattle.cov_dd.specs.Operations.{Ignores};

use crate::chains::Chains;
use crate::collection::{gather, level_reached};
use crate::fault::{Full, NoMemory};
use crate::node::{Part, Ref};
use std::alloc::Global;
use std::marker::Model;

/// The nodes of a table, oldest first: children stand before their parents.
#[derive(Drop)]
pub struct Store {
    alloc: Global,
    levels: u16,
    budget: u32,
    calls: u64,
    nodes: Vec<Part>,
    chains: Chains,
}

impl Model for Store {
    ghost use Rattle.std.specs.Prelude.{vec_capacity};
    ghost use Rattle.cov_dd.specs.Nodes.{TableOf};
    ghost use Rattle.cov_dd.specs.Chains.{IsKept};

    ghost Value = { TableOf };

    ghost view = { λ s. record { levels = s.levels; budget = s.budget; calls = s.calls; nodes = s.nodes.items } };

    ghost invariant = { λ s. IsKept s.levels s.budget s.nodes.items s.chains (vec_capacity s.nodes) };
}

impl Store {
    /// No node stands, and the memory of all is reserved.
    pub fn make(alloc: Global, levels: u16, budget: u32) -> Result<Store, NoMemory>
        ensures { IfOk result (λ s. s ≡ record { levels = levels; budget = budget; calls = 0; nodes = [] }) }
    {
        let nodes = Vec::with_capacity(alloc, budget as usize)?;
        let chains = Chains::make(alloc, budget)?;
        Ok(Store {
            alloc,
            levels,
            budget,
            calls: 0,
            nodes,
            chains,
        })
    }

    pub fn held(&self) -> u32
        ensures held { result ≡ length self.now.nodes }
        ensures within { length self.now.nodes ≤ self.now.budget }
        ensures table { IsTable self.now.levels self.now.nodes }
    {
        self.nodes.len() as u32
    }

    pub fn levels(&self) -> u16
        ensures { result ≡ self.now.levels }
    {
        self.levels
    }

    pub fn budget(&self) -> u32
        ensures { result ≡ self.now.budget }
    {
        self.budget
    }

    pub fn calls(&self) -> u64
        ensures { result ≡ self.now.calls }
    {
        self.calls
    }

    /// The one child where both are one, else the node, which is added where it does not stand.
    pub fn mk(&mut self, level: u16, low: Ref, high: Ref) -> Result<Ref, Full>
        requires level { level < self.old.levels }
        requires low { IsBelow self.old.levels self.old.nodes level low }
        requires high { IsBelow self.old.levels self.old.nodes level high }

        ensures ok { IfOk result (λ r. Denotes self.new level r (chosen level (den self.old.nodes low) (den self.old.nodes high))) }
        ensures made { IfOk result (λ r. Answers self.old self.new level low high r) }
        ensures keeps { (r : Ref) → IsLive self.old.nodes r → Keeps self.old self.new r }
        ensures computes { Computes self.old self.new level (chosen level (den self.old.nodes low) (den self.old.nodes high)) }
        ensures full { IsErr result ↔ (IsNew self.old.nodes level low high × (self.old.budget ≤ length self.old.nodes)) }
        ensures err { IfErr result (λ e. IsRefused self.new level (chosen level (den self.old.nodes low) (den self.old.nodes high)) e) }
        ensures unchanged { OnErr result (self.new ≡ record self.old { calls = counted self.old.calls }) }
        ensures counts { self.new.calls ≡ counted self.old.calls }
    {
        self.calls = self.calls.saturating_add(1);
        if low == high {
            return Ok(low);
        }
        let node = Part { level, low, high };
        match self.chains.find(self.nodes.as_slice(), node) {
            Some(place) => Ok(Ref::Inner(place)),
            None => self.add(node),
        }
    }

    fn add(&mut self, node: Part) -> Result<Ref, Full>
        requires level { node.level < self.old.levels }
        requires low { IsBelow self.old.levels self.old.nodes node.level node.low }
        requires high { IsBelow self.old.levels self.old.nodes node.level node.high }
        requires new { IsNew self.old.nodes node.level node.low node.high }
        ensures table { IsTable self.new.levels self.new.nodes }
        ensures answer { MatchResult result
            (λ r. (r ≡ Ref.Inner (length self.old.nodes)) × (length self.old.nodes < self.old.budget) × (self.new ≡ record self.old { nodes = self.old.nodes ++ node ∷ [] }))
            (λ e. (e ≡ record { held = length self.old.nodes; budget = self.old.budget }) × (self.old.budget ≤ length self.old.nodes) × (self.new ≡ self.old)) }
    {
        let held = self.nodes.len() as u32;
        if held >= self.budget {
            return Err(Full {
                held,
                budget: self.budget,
            });
        }
        self.chains.push(node);
        self.nodes.push_reserved(node);
        Ok(Ref::Inner(held))
    }

    /// The value of a diagram at a row of bits.
    pub fn at(&self, f: Ref, bits: &[bool]) -> bool
        requires f { IsLive self.now.nodes f }
        requires bits { length bits.now ≡ self.now.levels }
        ensures { result ≡ den self.now.nodes f bits.now }
    {
        let mut place = f;
        loop {
            match place {
                Ref::Constant(value) => return value,
                Ref::Inner(i) => {
                    let node = self.nodes[i as usize];
                    place = if bits[node.level as usize] {
                        node.high
                    } else {
                        node.low
                    };
                }
            }
        }
    }

    /// The node that a diagram begins with, none for a constant.
    pub fn part(&self, f: Ref) -> Option<Part>
        requires f { IsLive self.now.nodes f }
        ensures part { result ≡ part_of self.now.nodes f }
        ensures live { IfSome result (λ n. IsLive self.now.nodes n.low × IsLive self.now.nodes n.high) }
        ensures den { IfSome result (λ n. Denotes self.now n.level f (chosen n.level (den self.now.nodes n.low) (den self.now.nodes n.high))) }
    {
        let _levels = self.levels;
        match f {
            Ref::Constant(_) => None,
            Ref::Inner(i) => Some(self.nodes[i as usize]),
        }
    }

    /// The level of a diagram's first node. A constant is below all levels.
    pub fn level(&self, f: Ref) -> u16
        requires { IsLive self.now.nodes f }
        ensures level { result ≡ level_of self.now.levels self.now.nodes f }
        ensures within { result ≤ self.now.levels }
        ensures inner { IsInner f → result < self.now.levels }
        ensures table { IsTable self.now.levels self.now.nodes }
    {
        match f {
            Ref::Constant(_) => self.levels,
            Ref::Inner(i) => self.nodes[i as usize].level,
        }
    }

    /// What a diagram becomes where the bit of a level is clear, and where it is set. No level above its own is asked of it.
    pub fn split(&self, f: Ref, level: u16) -> (Ref, Ref)
        requires live { IsLive self.now.nodes f }
        requires above { level ≤ level_of self.now.levels self.now.nodes f }
        requires level { level < self.now.levels }
        ensures { SplitsAt self.now level f result.0 result.1 }
    {
        match f {
            Ref::Constant(_) => (f, f),
            Ref::Inner(i) => {
                let node = self.nodes[i as usize];
                if node.level == level {
                    (node.low, node.high)
                } else {
                    (f, f)
                }
            }
        }
    }

    /// Drops the nodes that no diagram of the list reaches, and renames the list.
    pub fn collect(&mut self, keep: &mut [Ref]) -> Result<(), NoMemory>
        requires { AllLive self.old.nodes keep.old }
        ensures ok { OnOk result (IsCollected self.old self.new keep.old keep.new) }
        ensures held { OnOk result (SizeIsNeed self.new keep.new) }
        ensures err { OnErr result ((self.new ≡ self.old) × (keep.new ≡ keep.old)) }
    {
        let count = self.nodes.len();
        let mut marks = vec![in self.alloc; false; count]?;
        let mut places = vec![in self.alloc; 0u32; count]?;
        let kept = gather(
            self.nodes.as_mut_slice(),
            keep,
            marks.as_mut_slice(),
            places.as_mut_slice(),
        );
        self.nodes.truncate(kept as usize);
        self.chains.rebuild(self.nodes.as_slice());
        Ok(())
    }

    /// Whether the function of a diagram depends on the bit of a level.
    pub fn depends(&self, f: Ref, level: u16) -> Result<bool, NoMemory>
        requires f { IsLive self.now.nodes f }
        requires level { level < self.now.levels }
        ensures { IfOk result (λ b. (b ≡ false) ↔ Ignores self.now.levels level (den self.now.nodes f)) }
    {
        let count = self.nodes.len();
        let mut marks = vec![in self.alloc; false; count]?;
        Ok(level_reached(self.nodes.as_slice(), f, level, marks.as_mut_slice()))
    }
}
