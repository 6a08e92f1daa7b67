ghost use Rattle.std.specs.Prelude.{true, false, ◌≡◌, ◌+◌, ◌*◌, ◌<◌, ◌≤◌, ◌↔◌, [], length, map, IsErr, IsTrue, IfOk, IfErr, IfSome, OnOk, OnErr};
ghost use Rattle.cov_dd.specs.Nodes.{TableOf, den, level_of, top_of, part_of, IsLive, IsTable, IsBelow, IsNew, Answers, counted, Keeps, Denotes, chosen, SameFunction};
ghost use Rattle.cov_dd.specs.Cofactors.{Computes, IsRefused, IsFault};
ghost use Rattle.cov_dd.specs.Operations.{applied, negated, restricted, Ignores};
ghost use Rattle.cov_dd.specs.Size.{size};
ghost use Rattle.cov_dd.specs.Reached.{AllLive, IsCollected, SizeIsNeed};

use crate::answers::answer;
use crate::fault::{Full, NoMemory, TableFault};
use crate::memo::Memo;
use crate::node::{Part, Ref};
use crate::operations::Op;
use crate::questions::Question;
use crate::refs::Refs;
use crate::store::Store;
use std::alloc::Global;
use std::marker::Model;

/// A table of nodes that are ordered, reduced and distinct (Bryant, 1986).
#[derive(Drop)]
pub struct Table {
    store: Store,
    memo: Memo,
}

impl Model for Table {
    ghost use Rattle.cov_dd.specs.Nodes.{TableOf};
    ghost use Rattle.cov_dd.specs.Memo.{AllRight};

    ghost Value = { TableOf };

    ghost view = { λ t. t.store };

    ghost invariant = { λ t. AllRight t.store t.memo };
}

impl Table {
    /// An empty table over so many levels, whose memory for as many nodes as the budget is reserved.
    pub fn make(alloc: Global, levels: u16, budget: u32) -> Result<Table, NoMemory>
        ensures { IfOk result (λ t. t ≡ record { levels = levels; budget = budget; calls = 0; nodes = [] }) }
    {
        Ok(Table {
            store: Store::make(alloc, levels, budget)?,
            memo: Memo::new(alloc),
        })
    }

    /// The constant false.
    pub fn zero(&self) -> Ref
        ensures { result ≡ Ref.Constant false }
    {
        Ref::Constant(false)
    }

    /// The constant true.
    pub fn one(&self) -> Ref
        ensures { result ≡ Ref.Constant true }
    {
        Ref::Constant(true)
    }

    /// How many inner nodes stand.
    pub fn held(&self) -> u32
        ensures held { result ≡ length self.now.nodes }
        ensures within { length self.now.nodes ≤ self.now.budget }
        ensures table { IsTable self.now.levels self.now.nodes }
    {
        self.store.held()
    }

    /// The number of levels with which the table was made.
    pub fn levels(&self) -> u16
        ensures { result ≡ self.now.levels }
    {
        self.store.levels()
    }

    /// The greatest number of inner nodes.
    pub fn budget(&self) -> u32
        ensures { result ≡ self.now.budget }
    {
        self.store.budget()
    }

    /// How often `mk` was called, also by the other operations. It stays at its last value.
    pub fn mk_calls(&self) -> u64
        ensures { result ≡ self.now.calls }
    {
        self.store.calls()
    }

    /// The diagram that goes on at `high` where the bit of the level is set, and else at `low`. It takes no memory.
    pub fn mk(&mut self, level: u16, low: Ref, high: Ref) -> Result<Ref, Full>
        requires level { level < self.old.levels }
        requires low { IsBelow self.old.levels self.old.nodes level low }
        requires high { IsBelow self.old.levels self.old.nodes level high }

        ensures ok { IfOk result (λ r. Denotes self.new level r (chosen level (den self.old.nodes low) (den self.old.nodes high))) }
        ensures made { IfOk result (λ r. Answers self.old self.new level low high r) }
        ensures keeps { (r : Ref) → IsLive self.old.nodes r → Keeps self.old self.new r }
        ensures computes { Computes self.old self.new level (chosen level (den self.old.nodes low) (den self.old.nodes high)) }
        ensures full { IsErr result ↔ (IsNew self.old.nodes level low high × (self.old.budget ≤ length self.old.nodes)) }
        ensures err { IfErr result (λ e. IsRefused self.new level (chosen level (den self.old.nodes low) (den self.old.nodes high)) e) }
        ensures unchanged { OnErr result (self.new ≡ record self.old { calls = counted self.old.calls }) }
        ensures counts { self.new.calls ≡ counted self.old.calls }
    {
        self.store.mk(level, low, high)
    }

    /// An operation on two functions. The budget bounds the nodes that stand, also those that a refused call added.
    pub fn apply(&mut self, op: Op, f: Ref, g: Ref) -> Result<Ref, TableFault>
        requires f { IsLive self.old.nodes f }
        requires g { IsLive self.old.nodes g }

        ensures ok { IfOk result (λ r. Denotes self.new (top_of self.old f g) r (applied op (den self.old.nodes f) (den self.old.nodes g))) }
        ensures keeps { (r : Ref) → IsLive self.old.nodes r → Keeps self.old self.new r }
        ensures computes { Computes self.old self.new (top_of self.old f g) (applied op (den self.old.nodes f) (den self.old.nodes g)) }
        ensures err { IfErr result (λ e. IsFault self.new (top_of self.old f g) (applied op (den self.old.nodes f) (den self.old.nodes g)) e) }
        ensures calls { self.new.calls ≤ self.old.calls + size self.old.nodes f * size self.old.nodes g }
    {
        let _held = self.store.held();
        self.memo.bound();
        answer(&mut self.store, &mut self.memo, Question::Apply(op, f, g))
    }

    /// The negation of a function.
    pub fn not(&mut self, f: Ref) -> Result<Ref, TableFault>
        requires { IsLive self.old.nodes f }

        ensures ok { IfOk result (λ r. Denotes self.new (level_of self.old.levels self.old.nodes f) r (negated (den self.old.nodes f))) }
        ensures keeps { (r : Ref) → IsLive self.old.nodes r → Keeps self.old self.new r }
        ensures computes { Computes self.old self.new (level_of self.old.levels self.old.nodes f) (negated (den self.old.nodes f)) }
        ensures err { IfErr result (λ e. IsFault self.new (level_of self.old.levels self.old.nodes f) (negated (den self.old.nodes f)) e) }
        ensures calls { self.new.calls ≤ self.old.calls + size self.old.nodes f }
    {
        let _held = self.store.held();
        self.memo.bound();
        answer(&mut self.store, &mut self.memo, Question::Negate(f))
    }

    /// A function with the bit of one level fixed: a cofactor of it.
    pub fn restrict(&mut self, f: Ref, level: u16, bit: bool) -> Result<Ref, TableFault>
        requires f { IsLive self.old.nodes f }
        requires level { level < self.old.levels }

        ensures ok { IfOk result (λ r. Denotes self.new (level_of self.old.levels self.old.nodes f) r (restricted level bit (den self.old.nodes f))) }
        ensures keeps { (r : Ref) → IsLive self.old.nodes r → Keeps self.old self.new r }
        ensures computes { Computes self.old self.new (level_of self.old.levels self.old.nodes f) (restricted level bit (den self.old.nodes f)) }
        ensures err { IfErr result (λ e. IsFault self.new (level_of self.old.levels self.old.nodes f) (restricted level bit (den self.old.nodes f)) e) }
        ensures calls { self.new.calls ≤ self.old.calls + size self.old.nodes f }
    {
        let _held = self.store.held();
        self.memo.bound();
        answer(
            &mut self.store,
            &mut self.memo,
            Question::Restrict(f, level, bit),
        )
    }

    /// Whether two diagrams are of one function. It takes no memory.
    pub fn same(&self, f: Ref, g: Ref) -> bool
        requires f { IsLive self.now.nodes f }
        requires g { IsLive self.now.nodes g }
        ensures { IsTrue result ↔ SameFunction self.now.levels self.now.nodes f g }
    {
        let _held = self.store.held();
        f == g
    }

    /// The value of a function at a row of bits, one a level. It takes no memory.
    pub fn at(&self, f: Ref, bits: &[bool]) -> bool
        requires f { IsLive self.now.nodes f }
        requires bits { length bits.now ≡ self.now.levels }
        ensures { result ≡ den self.now.nodes f bits.now }
    {
        self.store.at(f, bits)
    }

    /// The node that a diagram begins with, none for a constant. It takes no memory.
    pub fn part(&self, f: Ref) -> Option<Part>
        requires f { IsLive self.now.nodes f }
        ensures part { result ≡ part_of self.now.nodes f }
        ensures live { IfSome result (λ n. IsLive self.now.nodes n.low × IsLive self.now.nodes n.high) }
        ensures den { IfSome result (λ n. Denotes self.now n.level f (chosen n.level (den self.now.nodes n.low) (den self.now.nodes n.high))) }
    {
        self.store.part(f)
    }

    /// Drops the nodes that no diagram of the list reaches, and renames the list. Of other diagrams from before nothing is said.
    pub fn collect(&mut self, keep: &mut Refs) -> Result<(), NoMemory>
        requires { AllLive self.old.nodes keep.old }

        ensures ok { OnOk result (IsCollected self.old self.new keep.old keep.new) }
        ensures held { OnOk result (SizeIsNeed self.new keep.new) }
        ensures err { OnErr result ((self.new ≡ self.old) × (keep.new ≡ keep.old)) }
    {
        self.collect_slice(keep.items.as_mut_slice())
    }

    /// As `collect`, for diagrams in a slice.
    pub fn collect_slice(&mut self, keep: &mut [Ref]) -> Result<(), NoMemory>
        requires { AllLive self.old.nodes keep.old }

        ensures ok { OnOk result (IsCollected self.old self.new keep.old keep.new) }
        ensures held { OnOk result (SizeIsNeed self.new keep.new) }
        ensures err { OnErr result ((self.new ≡ self.old) × (keep.new ≡ keep.old)) }
    {
        self.store.collect(keep)?;
        self.memo.clear();
        Ok(())
    }

    /// Whether a function depends on the bit of a level.
    pub fn depends(&self, f: Ref, level: u16) -> Result<bool, NoMemory>
        requires f { IsLive self.now.nodes f }
        requires level { level < self.now.levels }
        ensures { IfOk result (λ b. (b ≡ false) ↔ Ignores self.now.levels level (den self.now.nodes f)) }
    {
        self.store.depends(f, level)
    }
}
