ghost use Rattle.std.specs.Prelude.{◌≡◌, ◌<◌, ◌≤◌, ◌+◌, ◌^◌, ◌++◌, [], ◌∷◌, IsTrue, IfOk, OnOk, OnErr, length, slice_index};
ghost use Rattle.cov_model.specs.WellFormed.{IsWellFormed};
ghost use Rattle.cov_bits.specs.Layout as spec;

use crate::part::{Part, width_of};
use cov_model::{Model, State};
use cov_syntax::{NoMemory, Seq};
use std::alloc::Global;
use std::marker;

/// The bits of a model's variables in a code, in the model's order. Contracts see it as the numbers of their values.
#[derive(Drop)]
pub struct Plan {
    parts: Seq<Part>,
    bits: u32,
}

impl marker::Model for Plan {
    ghost use Rattle.std.specs.Prelude.{ℕ, List};

    ghost Value = { List ℕ };

    ghost use Rattle.cov_bits.specs.Views.{sizes_of, IsPlan};

    ghost view = { λ p. sizes_of p.parts };

    ghost invariant = { λ p. IsPlan p.parts p.bits };
}

impl Plan {
    /// The plan of the model's variables.
    pub fn new(alloc: Global, m: &Model) -> Result<Plan, NoMemory>
        requires { IsWellFormed m.now }
        ensures { IfOk result (λ p. p ≡ spec.sizes m.now.vars) }
    {
        let mut plan = Plan::empty(alloc);
        for x in m.vars.as_slice() {
            plan.add(x.values.len() as u16)?;
        }
        Ok(plan)
    }

    /// The plan of no variables. It takes no memory.
    pub(crate) fn empty(alloc: Global) -> Plan
        ensures { result ≡ [] }
    {
        Plan {
            parts: Seq::new(alloc),
            bits: 0,
        }
    }

    /// Puts a variable of so many values last.
    pub(crate) fn add(&mut self, size: u16) -> Result<(), NoMemory>
        requires some { 0 < size }
        requires small { size ≤ 1024 }
        requires fits { spec.bits self.old + spec.width size ≤ 60 }
        ensures ok { OnOk result (self.new ≡ self.old ++ size ∷ []) }
        ensures err { OnErr result (self.new ≡ self.old) }
    {
        let width = width_of(size);
        let first = self.bits;
        self.parts.push(Part { size, first, width })?;
        self.bits += width;
        Ok(())
    }

    /// The number of bits of a code.
    pub fn bits(&self) -> u32
        ensures value { result ≡ spec.bits self.now }
        ensures within { spec.bits self.now ≤ 60 }
        ensures sized { spec.AreSizes self.now }
    {
        self.bits
    }

    /// The number of bits of a variable; one with a single value has none.
    pub fn width(&self, var: u32) -> u32
        requires { var < length self.now }
        ensures { result ≡ spec.width (slice_index self.now var) }
    {
        self.parts.get(var as usize).width
    }

    /// The first bit of a variable, which is its most significant one.
    pub fn first(&self, var: u32) -> u32
        requires { var < length self.now }
        ensures { result ≡ spec.first self.now var }
    {
        self.parts.get(var as usize).first
    }

    /// The code of a typed state. It takes no memory.
    pub fn encode(&self, s: &State) -> u64
        requires { IsTrue (spec.are_places self.now s.now) }
        ensures value { result ≡ spec.code self.now s.now }
        ensures below { result < 2 ^ spec.bits self.now }
    {
        let mut code = 0u64;
        for (i, part) in self.parts.as_slice().iter().enumerate() {
            code = (code << part.width) + u64::from(*s.get(i));
        }
        code
    }

    /// The typed state that has the code. None exactly where some variable's bits name no value of it.
    pub fn decode(&self, alloc: Global, code: u64) -> Result<Option<State>, NoMemory>
        requires { code < 2 ^ spec.bits self.now }
        ensures { IfOk result (spec.IsDecoded self.now code) }
    {
        let mut places = Seq::new(alloc);
        let mut rest = code;
        let mut below = self.bits;
        for part in self.parts.as_slice() {
            below -= part.width;
            let place = rest >> below;
            if place >= u64::from(part.size) {
                return Ok(None);
            }
            places.push(place as u16)?;
            rest %= 1 << below;
        }
        Ok(Some(places))
    }
}
