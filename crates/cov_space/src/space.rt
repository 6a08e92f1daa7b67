ghost use Rattle.std.specs.Prelude.{◌≡◌, ℕ, ◌<◌, ◌≤◌, ◌+◌, ◌-◌, ◌++◌, ◌∷◌, [], ◌^◌, ◌%◌, ◌↔◌, false, length, take, IsTrue, OnOk, IfOk, IfErr};
ghost use Rattle.cov_dd.specs.Need.{values};
ghost use Rattle.cov_dd.specs.Operations.{Ignores};
ghost use Rattle.cov_space.specs.Sets.{lies, set_at, SpaceOf, HasRoom, SameSets, SetsNeedMoreThan};
ghost use Rattle.cov_space.specs.Operations.{constant_set, bit_set, intersection, union, symmetric_difference, complement, restriction, projection, AllBelow, IsSomeOf};
ghost use Rattle.cov_space.specs.Layers.{shift_set, IgnoresLayer, IsShifted};
ghost use Rattle.cov_space.specs.Answers.{PutsSet, IsBasicFault, IsCallFault};
ghost use Rattle.cov_space.specs.Tasks.{IsTask, asked_set};

use crate::fault::{NodesFull, SpaceFault};
use crate::layer::Layer;
use crate::quantify::quantify;
use crate::shift::shift_bits;
use crate::slots::Slot;
use crate::task::{Task, run};
use cov_dd::{NoMemory, Op, Ref, Table, TableFault};
use std::alloc::Global;
use std::marker::Model;

/// A list of sets of bit rows, in a fixed number of places, whose diagrams share the nodes of one table.
#[derive(Drop)]
pub struct Space {
    table: Table,
    list: Vec<Ref>,
    places: u32,
    refused: u64,
}

impl Model for Space {
    ghost use Rattle.std.specs.Prelude.{vec_capacity};
    ghost use Rattle.cov_space.specs.Sets.{SpaceOf};

    ghost Value = { SpaceOf };

    ghost use Rattle.cov_space.specs.Views.{view_of, IsSpace};

    ghost view = { λ s. view_of s.table s.list.items s.places s.refused };

    ghost invariant = { λ s. IsSpace s.table s.list.items s.places (vec_capacity s.list) };
}

impl Space {
    /// A Space without a set, over rows of `levels` bits, with a budget of nodes and `roots` places for sets, whose memory is reserved.
    pub fn make(alloc: Global, levels: u16, budget: u32, roots: u32) -> Result<Space, NoMemory>
        requires { levels % 3 ≡ 0 }
        ensures { IfOk result (λ s. s ≡ record { levels = levels; budget = budget; places = roots; refused = 0; sets = [] }) }
    {
        let table = Table::make(alloc, levels, budget)?;
        let list = Vec::with_capacity(alloc, roots as usize)?;
        Ok(Space {
            table,
            list,
            places: roots,
            refused: 0,
        })
    }

    /// The number of sets.
    pub fn sets(&self) -> u32
        ensures count { result ≡ length self.now.sets }
        ensures within { length self.now.sets ≤ self.now.places }
        ensures small { self.now.places < 2 ^ 32 }
        ensures proper { (k : ℕ) → k < length self.now.sets → values self.now.levels (lies (set_at self.now.sets k)) ≡ set_at self.now.sets k }
    {
        self.list.len() as u32
    }

    /// The number of free places.
    pub fn spare(&self) -> u32
        ensures { result + length self.now.sets ≡ self.now.places }
    {
        self.places - self.list.len() as u32
    }

    /// The number of bits of a row, three for each bit of a state.
    pub fn levels(&self) -> u16
        ensures levels { result ≡ self.now.levels }
        ensures thirds { self.now.levels % 3 ≡ 0 }
    {
        self.table.levels()
    }

    pub(crate) fn budget(&self) -> u32
        ensures { result ≡ self.now.budget }
    {
        self.table.budget()
    }

    /// How many basic operations answered Nodes. It stays at its last value.
    pub fn refused(&self) -> u64
        ensures { result ≡ self.now.refused }
    {
        self.refused
    }

    /// All rows, or none. It takes no memory.
    pub fn constant(&mut self, truth: bool)
        requires { HasRoom self.old 1 }
        ensures { PutsSet self.old self.new (constant_set self.old.levels truth) }
    {
        self.list.push_reserved(Ref::Constant(truth));
    }

    /// The set once more. It takes no memory.
    pub fn copy(&mut self, a: Slot)
        requires a { a < length self.old.sets }
        requires room { HasRoom self.old 1 }
        ensures { PutsSet self.old self.new (set_at self.old.sets a) }
    {
        let r = self.list[a as usize];
        self.list.push_reserved(r);
    }

    /// The rows whose bit at a level is set.
    pub fn bit(&mut self, level: u16) -> Result<(), SpaceFault>
        requires level { level < self.old.levels }
        requires room { HasRoom self.old 4 }
        ensures ok { OnOk result (PutsSet self.old self.new (bit_set self.old.levels level)) }
        ensures few { OnOk result (SetsNeedMoreThan self.old.levels self.new.sets self.old.budget → ⊥) }
        ensures err { IfErr result (λ e. IsBasicFault self.old self.new (bit_set self.old.levels level) e) }
    {
        self.basic(Task::Bit(level))
    }

    /// The rows in both sets.
    pub fn and(&mut self, a: Slot, b: Slot) -> Result<(), SpaceFault>
        requires a { a < length self.old.sets }
        requires b { b < length self.old.sets }
        requires room { HasRoom self.old 4 }
        ensures ok { OnOk result (PutsSet self.old self.new (intersection self.old.levels (set_at self.old.sets a) (set_at self.old.sets b))) }
        ensures few { OnOk result (SetsNeedMoreThan self.old.levels self.new.sets self.old.budget → ⊥) }
        ensures err { IfErr result (λ e. IsBasicFault self.old self.new (intersection self.old.levels (set_at self.old.sets a) (set_at self.old.sets b)) e) }
    {
        self.basic(Task::Apply(Op::And, a, b))
    }

    /// The rows in one of the sets at least.
    pub fn or(&mut self, a: Slot, b: Slot) -> Result<(), SpaceFault>
        requires a { a < length self.old.sets }
        requires b { b < length self.old.sets }
        requires room { HasRoom self.old 4 }
        ensures ok { OnOk result (PutsSet self.old self.new (union self.old.levels (set_at self.old.sets a) (set_at self.old.sets b))) }
        ensures few { OnOk result (SetsNeedMoreThan self.old.levels self.new.sets self.old.budget → ⊥) }
        ensures err { IfErr result (λ e. IsBasicFault self.old self.new (union self.old.levels (set_at self.old.sets a) (set_at self.old.sets b)) e) }
    {
        self.basic(Task::Apply(Op::Or, a, b))
    }

    /// The rows in one of the sets alone.
    pub fn xor(&mut self, a: Slot, b: Slot) -> Result<(), SpaceFault>
        requires a { a < length self.old.sets }
        requires b { b < length self.old.sets }
        requires room { HasRoom self.old 4 }
        ensures ok { OnOk result (PutsSet self.old self.new (symmetric_difference self.old.levels (set_at self.old.sets a) (set_at self.old.sets b))) }
        ensures few { OnOk result (SetsNeedMoreThan self.old.levels self.new.sets self.old.budget → ⊥) }
        ensures err { IfErr result (λ e. IsBasicFault self.old self.new (symmetric_difference self.old.levels (set_at self.old.sets a) (set_at self.old.sets b)) e) }
    {
        self.basic(Task::Apply(Op::Xor, a, b))
    }

    /// The rows that are not in the set.
    pub fn not(&mut self, a: Slot) -> Result<(), SpaceFault>
        requires a { a < length self.old.sets }
        requires room { HasRoom self.old 4 }
        ensures ok { OnOk result (PutsSet self.old self.new (complement self.old.levels (set_at self.old.sets a))) }
        ensures few { OnOk result (SetsNeedMoreThan self.old.levels self.new.sets self.old.budget → ⊥) }
        ensures err { IfErr result (λ e. IsBasicFault self.old self.new (complement self.old.levels (set_at self.old.sets a)) e) }
    {
        self.basic(Task::Not(a))
    }

    /// The rows that lie in the set once their bit at a level is written.
    pub fn restrict(&mut self, a: Slot, level: u16, bit: bool) -> Result<(), SpaceFault>
        requires a { a < length self.old.sets }
        requires level { level < self.old.levels }
        requires room { HasRoom self.old 4 }
        ensures ok { OnOk result (PutsSet self.old self.new (restriction self.old.levels (set_at self.old.sets a) level bit)) }
        ensures few { OnOk result (SetsNeedMoreThan self.old.levels self.new.sets self.old.budget → ⊥) }
        ensures err { IfErr result (λ e. IsBasicFault self.old self.new (restriction self.old.levels (set_at self.old.sets a) level bit) e) }
    {
        self.basic(Task::Restrict(a, level, bit))
    }

    /// A basic operation, with one free place.
    pub(crate) fn basic(&mut self, task: Task) -> Result<(), SpaceFault>
        requires task { IsTask self.old.levels (length self.old.sets) task }
        requires room { HasRoom self.old 1 }
        ensures ok { OnOk result (PutsSet self.old self.new (asked_set self.old.levels self.old.sets task)) }
        ensures few { OnOk result (SetsNeedMoreThan self.old.levels self.new.sets self.old.budget → ⊥) }
        ensures err { IfErr result (λ e. IsBasicFault self.old self.new (asked_set self.old.levels self.old.sets task) e) }
    {
        match run(&mut self.table, &mut self.list, task) {
            Ok(()) => Ok(()),
            Err(TableFault::Memory) => Err(SpaceFault::Memory),
            Err(TableFault::Full { held, budget }) => {
                self.refused = self.refused.saturating_add(1);
                Err(SpaceFault::Nodes(NodesFull {
                    held,
                    budget,
                    roots: self.list.len() as u32,
                }))
            }
        }
    }

    /// The rows that lie in the set for some bits at the levels: existential quantification.
    pub fn exists(&mut self, a: Slot, levels: &[u16]) -> Result<(), SpaceFault>
        requires a { a < length self.old.sets }
        requires levels { AllBelow self.old.levels levels.now }
        requires room { HasRoom self.old 4 }
        ensures ok { OnOk result (PutsSet self.old self.new (projection self.old.levels levels.now (set_at self.old.sets a))) }
        ensures exact { OnOk result (IsSomeOf self.old.levels levels.now (set_at self.old.sets a) (set_at self.new.sets (length self.old.sets))) }
        ensures err { IfErr result (λ e. IsCallFault self.old self.new e) }
    {
        let n = self.sets();
        self.copy(a);
        quantify(self, n, levels)
    }

    /// The rows that lie in both sets for some bits at the levels: the relational product (Burch, Clarke and others, 1990).
    pub fn and_exists(&mut self, a: Slot, b: Slot, levels: &[u16]) -> Result<(), SpaceFault>
        requires a { a < length self.old.sets }
        requires b { b < length self.old.sets }
        requires levels { AllBelow self.old.levels levels.now }
        requires room { HasRoom self.old 4 }
        ensures ok { OnOk result (PutsSet self.old self.new (projection self.old.levels levels.now (intersection self.old.levels (set_at self.old.sets a) (set_at self.old.sets b)))) }
        ensures exact { OnOk result (IsSomeOf self.old.levels levels.now (intersection self.old.levels (set_at self.old.sets a) (set_at self.old.sets b)) (set_at self.new.sets (length self.old.sets))) }
        ensures err { IfErr result (λ e. IsCallFault self.old self.new e) }
    {
        let n = self.sets();
        self.and(a, b)?;
        quantify(self, n, levels)
    }

    /// The set read on another layer: `to` takes the part of `from`.
    pub fn shift(&mut self, a: Slot, from: Layer, to: Layer) -> Result<(), SpaceFault>
        requires a { a < length self.old.sets }
        requires free { IgnoresLayer self.old.levels to (set_at self.old.sets a) }
        requires room { HasRoom self.old 4 }
        ensures ok { OnOk result (PutsSet self.old self.new (shift_set self.old.levels from to (set_at self.old.sets a))) }
        ensures exact { OnOk result (IsShifted self.old.levels from to (set_at self.old.sets a) (set_at self.new.sets (length self.old.sets))) }
        ensures err { IfErr result (λ e. IsCallFault self.old self.new e) }
    {
        let n = self.sets();
        self.copy(a);
        shift_bits(self, n, from, to)
    }

    /// Whether two sets are one. It takes no memory.
    pub fn same(&self, a: Slot, b: Slot) -> bool
        requires a { a < length self.now.sets }
        requires b { b < length self.now.sets }
        ensures tests { IsTrue result ↔ SameSets self.now.levels (set_at self.now.sets a) (set_at self.now.sets b) }
        ensures sets { IsTrue result ↔ (set_at self.now.sets a ≡ set_at self.now.sets b) }
    {
        self.table
            .same(self.list[a as usize], self.list[b as usize])
    }

    /// Whether a row lies in a set. It takes no memory.
    pub fn at(&self, a: Slot, bits: &[bool]) -> bool
        requires a { a < length self.now.sets }
        requires bits { length bits.now ≡ self.now.levels }
        ensures { result ≡ lies (set_at self.now.sets a) bits.now }
    {
        self.table.at(self.list[a as usize], bits)
    }

    /// Whether a set depends on the bit of a level.
    pub fn depends(&self, a: Slot, level: u16) -> Result<bool, NoMemory>
        requires a { a < length self.now.sets }
        requires level { level < self.now.levels }
        ensures { IfOk result (λ b. (b ≡ false) ↔ Ignores self.now.levels level (lies (set_at self.now.sets a))) }
    {
        self.table.depends(self.list[a as usize], level)
    }

    /// Keeps the first `n` sets and the last one. It takes no memory.
    pub fn settle(&mut self, n: u32)
        requires { n < length self.old.sets }
        ensures { self.new ≡ record self.old { sets = take n self.old.sets ++ set_at self.old.sets (length self.old.sets - 1) ∷ [] } }
    {
        let r = self.list[self.list.len() - 1];
        self.list.truncate(n as usize);
        self.list.push_reserved(r);
    }

    /// Keeps the first `n` sets. It takes no memory.
    pub fn cut(&mut self, n: u32)
        requires { n ≤ length self.old.sets }
        ensures { self.new ≡ record self.old { sets = take n self.old.sets } }
    {
        self.list.truncate(n as usize);
    }

    /// Drops the nodes that no set reaches.
    pub fn collect(&mut self) -> Result<(), NoMemory>
        ensures { self.new ≡ self.old }
    {
        self.table.collect_slice(self.list.as_mut_slice())
    }
}
