ghost use Rattle.std.specs.Prelude.{◌≡◌, ◌≢◌, ℕ, ◌+◌, ◌<◌, ◌≤◌, ◌^◌, List, [], ◌++◌, ◌∷◌, length, IfOk, MatchOption};
ghost use Rattle.cov_dd.specs.Nodes.{node_at};
ghost use Rattle.cov_dd.specs.Chains.{ChainsOf, code_of, hash_of, bucket_of, IsChained};

use crate::fault::NoMemory;
use crate::node::{Part, Ref};
use std::alloc::Global;
use std::marker::Model;

/// The unique table of Bryant (1986): for each bucket the chain of its nodes, the newest first. A place is counted from 1, and 0 ends a chain.
#[derive(Drop)]
pub struct Chains {
    heads: Vec<u32>,
    nexts: Vec<u32>,
}

impl Model for Chains {
    ghost use Rattle.std.specs.Prelude.{◌<◌, ◌^◌, length, vec_capacity};
    ghost use Rattle.cov_dd.specs.Chains.{ChainsOf};

    ghost Value = { ChainsOf };

    ghost view = { λ c. record { heads = c.heads.items; nexts = c.nexts.items; room = vec_capacity c.nexts } };

    ghost invariant = { λ c. (0 < length c.heads.items) × (length c.heads.items < 2 ^ 32) };
}

impl Chains {
    /// No node is on a chain, and the memory for as many as the budget is reserved.
    pub fn make(alloc: Global, budget: u32) -> Result<Chains, NoMemory>
        ensures chained { IfOk result (λ c. IsChained [] c) }
        ensures room { IfOk result (λ c. budget ≤ c.room) }
    {
        let heads = vec![in alloc; 0u32; budget.max(1) as usize]?;
        let nexts = Vec::with_capacity(alloc, budget as usize)?;
        Ok(Chains { heads, nexts })
    }

    /// The place of a node in a list, counted from 0.
    pub fn find(&self, nodes: &[Part], node: Part) -> Option<u32>
        requires { IsChained nodes.now self.now }
        ensures { MatchOption result ((k : ℕ) → k < length nodes.now → node_at nodes.now k ≢ node) (λ i. (i < length nodes.now) × (node_at nodes.now i ≡ node)) }
    {
        let mut place = self.heads[bucket(self.heads.len(), node)];
        while place != 0 {
            let i = place - 1;
            if nodes[i as usize] == node {
                return Some(i);
            }
            place = self.nexts[i as usize];
        }
        None
    }

    /// Puts the node that comes next at the front of its chain.
    pub fn push(&mut self, node: Part)
        requires room { length self.old.nexts < self.old.room }
        requires small { length self.old.nexts + 1 < 2 ^ 32 }
        ensures chained { (nodes : List Part) → IsChained nodes self.old → IsChained (nodes ++ node ∷ []) self.new }
        ensures room { self.new.room ≡ self.old.room }
    {
        let place = bucket(self.heads.len(), node);
        let next = self.heads[place];
        self.nexts.push_reserved(next);
        self.heads[place] = self.nexts.len() as u32;
    }

    /// Makes the chains anew, of these nodes alone.
    pub fn rebuild(&mut self, nodes: &[Part])
        requires room { length nodes.now ≤ self.old.room }
        requires small { length nodes.now < 2 ^ 32 }
        ensures chained { IsChained nodes.now self.new }
        ensures room { self.new.room ≡ self.old.room }
    {
        self.clear();
        for node in nodes {
            self.push(*node);
        }
    }

    fn clear(&mut self)
        ensures chained { IsChained [] self.new }
        ensures room { self.new.room ≡ self.old.room }
    {
        self.heads.fill(0);
        self.nexts.clear();
    }
}

/// A diagram as a number.
fn code(f: Ref) -> u64
    ensures code { result ≡ code_of f }
    ensures small { result < 2 ^ 33 }
{
    match f {
        Ref::Constant(false) => 0,
        Ref::Constant(true) => 1,
        Ref::Inner(i) => i as u64 + 2,
    }
}

/// The multipliers of the hash, which are odd.
const FIRST_FACTOR: u64 = 0x9E37_79B9_7F4A_7C15;

const SECOND_FACTOR: u64 = 0xC2B2_AE3D_27D4_EB4F;

/// A multiplicative hash (Knuth, 1973) of the level and one child, and again of that and the other child.
fn hash(node: Part) -> u64
    ensures hash { result ≡ hash_of node }
    ensures small { result < 2 ^ 32 }
{
    let first = code(node.low) + ((node.level as u64) << 33);
    let half = first.wrapping_mul(FIRST_FACTOR) >> 32;
    let both = half + code(node.high);
    both.wrapping_mul(SECOND_FACTOR) >> 32
}

/// The bucket of a node, of so many: the part of the whole that the hash is of 2^32.
fn bucket(count: usize, node: Part) -> usize
    requires some { 0 < count }
    requires small { count < 2 ^ 32 }
    ensures bucket { result ≡ bucket_of count node }
    ensures within { result < count }
{
    ((hash(node) * count as u64) >> 32) as usize
}
