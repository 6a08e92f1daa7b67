ghost use Rattle.std.specs.Prelude.{◌≡◌, ◌<◌, length, slice_get, IfOk, Some, None};
ghost use Rattle.cov_modules.specs.Conditions.{IsFlattenable};
ghost use Rattle.cov_modules.specs.ModuleFaults.{modules_fault};
ghost use Rattle.cov_stops.specs.Table.{IsStopsOf};

use crate::tour::Tour;
use cov_modules::Modules;
use cov_syntax::{NoMemory, Program, Seq};
use std::alloc::Global;
use std::marker::Model;

/// One instance of the flat walk: the number of its module, the number of the stop that declares it (0 for `main`), the place of the
/// declaration among that one's sections (0 for `main`), how many variables and DEFINEs the stops before it have, and where the numbers
/// of its own instances begin.
#[derive(Clone, Copy)]
pub struct Entry {
    pub module: u32,
    pub caller: u32,
    pub section: u32,
    pub first_var: u32,
    pub first_define: u32,
    pub first_child: u32,
}

/// The flat walk of a program as a table: the instances in its order, and the numbers of their own instances.
#[derive(Drop)]
pub struct Stops {
    entries: Seq<Entry>,
    children: Seq<u32>,
}

impl Model for Stops {
    ghost use Rattle.std.specs.Prelude.{length, ◌≤◌};
    ghost use Rattle.cov_stops.specs.Table.{StopTable};

    ghost Value = { StopTable };

    ghost view = { λ t. record { entries = t.entries; children = t.children } };

    ghost invariant = { λ t. length t.entries ≤ 4097 };
}

impl Stops {
    /// The table of a program whose modules have no fault.
    pub fn of(alloc: Global, p: &Program) -> Result<Stops, NoMemory>
        requires flattenable { IsFlattenable p.now }
        requires sound { modules_fault p.now ≡ None }
        ensures { IfOk result (λ t. IsStopsOf p.now t) }
    {
        let modules = Modules::of(alloc, p)?;
        let mut tour = Tour::start(alloc, p)?;
        while let Some(x) = tour.put_off.pop() {
            tour.visit(alloc, p, &modules, x)?;
        }
        Ok(Stops {
            entries: tour.entries,
            children: tour.children,
        })
    }

    /// The number of instances.
    pub fn len(&self) -> u32
        ensures { result ≡ length self.now.entries }
    {
        self.entries.len() as u32
    }

    /// The instance of this number.
    pub fn entry(&self, k: u32) -> Entry
        requires { k < length self.now.entries }
        ensures { slice_get self.now.entries k ≡ Some result }
    {
        *self.entries.get(k as usize)
    }

    /// The number at this place among the children.
    pub fn child(&self, i: u32) -> u32
        requires { i < length self.now.children }
        ensures { slice_get self.now.children i ≡ Some result }
    {
        *self.children.get(i as usize)
    }
}
