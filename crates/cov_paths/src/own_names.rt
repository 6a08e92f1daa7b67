ghost use Rattle.std.specs.Prelude.{◌≡◌, ◌<◌, None, Some, length, IfOk};
ghost use Rattle.cov_modules.specs.Conditions.{IsFlattenable};
ghost use Rattle.cov_modules.specs.ModuleFaults.{modules_fault};
ghost use Rattle.cov_modules.specs.Walk.{walk};
ghost use Rattle.cov_stops.specs.Table.{IsStopsOf};
ghost use Rattle.cov_paths.specs.Arguments as arguments;
ghost use Rattle.cov_paths.specs.Targets.{IsNamed};
ghost use Rattle.cov_paths.specs.Scopes as spec;
ghost use Rattle.cov_paths.specs.Found as found;
ghost use Rattle.cov_modules.specs.Things.{further_part};

use crate::arguments::{defines, given};
use crate::item::Item;
use crate::scope::Scope;
use crate::target::Target;
use cov_stops::Stops;
use cov_syntax::{NoMemory, Program, Seq};
use std::alloc::Global;

/// What the module of each stop declares under its names, and the number of the first DEFINE that it declares there.
#[derive(Drop)]
pub(crate) struct OwnNames {
    pub(crate) stops: Stops,
    pub(crate) modules: Seq<Scope>,
    pub(crate) first_defines: Seq<u32>,
}

/// The names of all modules.
fn module_scopes(alloc: Global, p: &Program) -> Result<Seq<Scope>, NoMemory>
    ensures { IfOk result (spec.AreScopesOf p.now.modules) }
{
    let mut scopes = Seq::new(alloc);
    for m in p.modules.as_slice() {
        scopes.push(Scope::of(alloc, m)?)?;
    }
    Ok(scopes)
}

/// The number of the first DEFINE that the module of a stop declares.
fn first_define(p: &Program, stops: &Stops, k: u32) -> u32
    requires flattenable { IsFlattenable p.now }
    requires sound { modules_fault p.now ≡ None }
    requires stops { IsStopsOf p.now stops.now }
    requires there { k < length (walk p.now) }
    ensures { result ≡ arguments.first_own p.now k }
{
    let count = defines(given(p, stops, k));
    (stops.entry(k).first_define as usize + count) as u32
}

/// The number of the first DEFINE that the module of each stop declares.
fn first_defines(alloc: Global, p: &Program, stops: &Stops) -> Result<Seq<u32>, NoMemory>
    requires flattenable { IsFlattenable p.now }
    requires sound { modules_fault p.now ≡ None }
    requires stops { IsStopsOf p.now stops.now }
    ensures { IfOk result (spec.AreFirstDefines p.now) }
{
    let mut firsts = Seq::new(alloc);
    for k in 0..stops.len() {
        firsts.push(first_define(p, stops, k))?;
    }
    Ok(firsts)
}

impl OwnNames {
    pub(crate) fn of(alloc: Global, p: &Program, stops: Stops) -> Result<OwnNames, NoMemory>
        requires flattenable { IsFlattenable p.now }
        requires sound { modules_fault p.now ≡ None }
        requires stops { IsStopsOf p.now stops }
        ensures { IfOk result (spec.IsOwnNamesOf p.now) }
    {
        let modules = module_scopes(alloc, p)?;
        let first_defines = first_defines(alloc, p, &stops)?;
        Ok(OwnNames {
            stops,
            modules,
            first_defines,
        })
    }

    /// What the module of a stop declares under a name.
    pub(crate) fn own(&self, p: &Program, k: u32, name: u32) -> Option<Target>
        requires flattenable { IsFlattenable p.now }
        requires sound { modules_fault p.now ≡ None }
        requires names { spec.IsOwnNamesOf p.now self.now }
        requires there { k < length (walk p.now) }
        ensures { IsNamed p.now result (found.own_at p.now k name) }
    {
        let entry = self.stops.entry(k);
        match self.modules.get(entry.module as usize).item(name) {
            None => None,
            Some(Item::Variable(rank)) => {
                let number = entry.first_var as usize + rank;
                Some(Target::Variable(number as u32))
            }
            Some(Item::Define(rank)) => {
                let number = *self.first_defines.get(k as usize) as usize + rank;
                Some(Target::Define(number as u32))
            }
            Some(Item::Instance(rank)) => {
                let place = entry.first_child as usize + rank;
                Some(Target::Instance(self.stops.child(place as u32)))
            }
        }
    }

    /// What a part of a path behind a dot names, where the path before it names a target.
    pub(crate) fn further(&self, p: &Program, before: Option<Target>, name: u32) -> Option<Target>
        requires flattenable { IsFlattenable p.now }
        requires sound { modules_fault p.now ≡ None }
        requires names { spec.IsOwnNamesOf p.now self.now }
        requires before { found.IsThere p.now before }
        ensures { IsNamed p.now result (further_part p.now (found.thing_found p.now before) name) }
    {
        match before {
            Some(Target::Instance(k)) => self.own(p, k, name),
            _ => None,
        }
    }
}
