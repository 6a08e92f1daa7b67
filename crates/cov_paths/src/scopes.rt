ghost use Rattle.std.specs.Prelude.{◌≡◌, ◌<◌, ◌+◌, None, length, slice_get, OnOk, IfOk};
ghost use Rattle.cov_modules.specs.Conditions.{IsFlattenable};
ghost use Rattle.cov_modules.specs.ModuleFaults.{modules_fault};
ghost use Rattle.cov_modules.specs.Walk.{walk};
ghost use Rattle.cov_stops.specs.Table.{IsStopsOf};
ghost use Rattle.cov_paths.specs.Targets.{IsNamed, named_at};
ghost use Rattle.cov_paths.specs.Scopes as spec;
ghost use Rattle.cov_paths.specs.Found as found;

use crate::arguments::{defines_of, given};
use crate::own_names::OwnNames;
use crate::symbols::symbols;
use crate::target::Target;
use cov_modules::NameSet;
use cov_stops::Stops;
use cov_syntax::{Expr, NoMemory, Node, Program, Seq};
use std::alloc::Global;

/// What the names in each instance of the flat walk stand for.
#[derive(Drop)]
pub struct Scopes {
    own: OwnNames,
    symbols: NameSet,
    /// For each stop what its formals stand for.
    formals: Seq<Seq<Option<Target>>>,
}

/// The target at a place, if there is one.
fn target_at(targets: &Seq<Option<Target>>, place: usize) -> Option<Option<Target>>
    ensures { result ≡ slice_get targets.now place }
{
    targets.as_slice().get(place).copied()
}

impl Scopes {
    /// The scopes of a program, with its flat walk.
    pub fn of(alloc: Global, p: &Program, stops: Stops) -> Result<Scopes, NoMemory>
        requires flattenable { IsFlattenable p.now }
        requires sound { modules_fault p.now ≡ None }
        requires stops { IsStopsOf p.now stops }
        ensures { IfOk result (λ c. spec.IsScopesOf p.now c) }
    {
        let count = stops.len();
        let mut scopes = Scopes {
            own: OwnNames::of(alloc, p, stops)?,
            symbols: symbols(alloc, p)?,
            formals: Seq::new(alloc),
        };
        for k in 0..count {
            scopes.bind(alloc, p, k)?;
        }
        Ok(scopes)
    }

    /// The flat walk.
    pub fn stops(&self) -> &Stops
        ensures { result.now ≡ self.now.own.stops }
    {
        &self.own.stops
    }

    /// What a path names in the instance of this number.
    pub fn named(&self, p: &Program, k: u32, path: &[u32]) -> Option<Target>
        requires flattenable { IsFlattenable p.now }
        requires sound { modules_fault p.now ≡ None }
        requires scopes { spec.IsScopesOf p.now self.now }
        requires there { k < length (walk p.now) }
        ensures { IsNamed p.now result (named_at p.now k path.now) }
    {
        self.find(p, k, path)
    }

    /// What a path names in a stop whose formals are known.
    fn find(&self, p: &Program, k: u32, path: &[u32]) -> Option<Target>
        requires flattenable { IsFlattenable p.now }
        requires sound { modules_fault p.now ≡ None }
        requires scopes { spec.AreFirstScopes p.now self.now }
        requires there { k < length self.now.formals }
        ensures { IsNamed p.now result (named_at p.now k path.now) }
    {
        let [first, rest @ ..] = path else {
            return None;
        };
        let mut target = self.first_part(p, k, *first);
        for name in rest {
            target = self.own.further(p, target, *name);
        }
        target
    }

    /// What the first part of a path names: a formal, or else what the module declares, or else a symbol.
    fn first_part(&self, p: &Program, k: u32, name: u32) -> Option<Target>
        requires flattenable { IsFlattenable p.now }
        requires sound { modules_fault p.now ≡ None }
        requires scopes { spec.AreFirstScopes p.now self.now }
        requires there { k < length self.now.formals }
        ensures { IsNamed p.now result (found.first_at p.now k name) }
    {
        match self.formal(p, k, name) {
            Some(target) => target,
            None => self.declared_or_symbol(p, k, name),
        }
    }

    /// What the formal of this name stands for.
    fn formal(&self, p: &Program, k: u32, name: u32) -> Option<Option<Target>>
        requires flattenable { IsFlattenable p.now }
        requires sound { modules_fault p.now ≡ None }
        requires scopes { spec.AreFirstScopes p.now self.now }
        requires there { k < length self.now.formals }
        ensures { found.IsFormal p.now result (found.formal_at p.now k name) }
    {
        let entry = self.own.stops.entry(k);
        match self.own.modules.get(entry.module as usize).formal(name) {
            None => None,
            Some(place) => target_at(self.formals.get(k as usize), place),
        }
    }

    /// What the module declares under this name, or else the symbol.
    fn declared_or_symbol(&self, p: &Program, k: u32, name: u32) -> Option<Target>
        requires flattenable { IsFlattenable p.now }
        requires sound { modules_fault p.now ≡ None }
        requires scopes { spec.AreFirstScopes p.now self.now }
        requires there { k < length (walk p.now) }
        ensures { IsNamed p.now result (found.declared_at p.now k name) }
    {
        match self.own.own(p, k, name) {
            Some(target) => Some(target),
            None => self.symbol(name),
        }
    }

    /// The symbol of this name, if an enumeration in the file has it.
    fn symbol(&self, name: u32) -> Option<Target>
        ensures { result ≡ found.symbol_in self.now.symbols name }
    {
        if self.symbols.has(name) {
            Some(Target::Symbol(name))
        } else {
            None
        }
    }

    /// Puts last what the formals of the next stop stand for.
    fn bind(&mut self, alloc: Global, p: &Program, k: u32) -> Result<(), NoMemory>
        requires flattenable { IsFlattenable p.now }
        requires sound { modules_fault p.now ≡ None }
        requires scopes { spec.AreFirstScopes p.now self.old }
        requires next { length self.old.formals ≡ k }
        requires there { k < length (walk p.now) }
        ensures scopes { OnOk result (spec.AreFirstScopes p.now self.new) }
        ensures next { OnOk result (length self.new.formals ≡ k + 1) }
    {
        let targets = self.arguments(alloc, p, k)?;
        self.formals.push(targets)
    }

    /// What the formals of the next stop stand for, in their order.
    fn arguments(&self, alloc: Global, p: &Program, k: u32) -> Result<Seq<Option<Target>>, NoMemory>
        requires flattenable { IsFlattenable p.now }
        requires sound { modules_fault p.now ≡ None }
        requires scopes { spec.AreFirstScopes p.now self.now }
        requires next { length self.now.formals ≡ k }
        requires there { k < length (walk p.now) }
        ensures { IfOk result (λ targets. found.AreNamed p.now targets (found.formals_at p.now k)) }
    {
        let entry = self.own.stops.entry(k);
        let mut number = entry.first_define;
        let mut targets = Seq::new(alloc);
        for e in given(p, &self.own.stops, k) {
            targets.push(self.argument(p, entry.caller, e, number))?;
            number += defines_of(e);
        }
        Ok(targets)
    }

    /// What an argument stands for: what its path names in the caller, or else the DEFINE of this number.
    fn argument(&self, p: &Program, caller: u32, e: &Expr, number: u32) -> Option<Target>
        requires flattenable { IsFlattenable p.now }
        requires sound { modules_fault p.now ≡ None }
        requires scopes { spec.AreFirstScopes p.now self.now }
        requires there { caller < length self.now.formals }
        ensures { found.IsArgument p.now caller e.now number result }
    {
        match &e.node {
            Node::Path(path) => self.find(p, caller, path.as_slice()),
            _ => Some(Target::Define(number)),
        }
    }
}
