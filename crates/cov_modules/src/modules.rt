ghost use Rattle.std.specs.Prelude.{◌≡◌, ◌++◌, ◌∷◌, [], IfOk, OnOk, map, position};
ghost use Rattle.cov_modules.specs.Modules as spec;
ghost use Rattle.cov_modules.specs.Names.{place_of};

use cov_syntax::{NoMemory, Program};
use std::alloc::Global;
use std::collections::BTreeMap;
use std::marker::Model;

/// The modules of a program by their names, which contracts see as the list of those names.
#[derive(Drop)]
pub struct Modules {
    names: Vec<u32>,
    /// The place of the first module of each name.
    places: BTreeMap<u32, usize>,
}

impl Model for Modules {
    ghost use Rattle.std.specs.Prelude.{List, ℕ, ◌≡◌};
    ghost use Rattle.std.specs.Ordering.{nat_cmp};
    ghost use Rattle.std.specs.BTreeMap.{get};
    ghost use Rattle.cov_modules.specs.Names.{place_of};

    ghost Value = { List ℕ };

    ghost view = { λ t. t.names.items };

    ghost invariant = { λ t. (name : ℕ) → get nat_cmp t.places name ≡ place_of t.names.items name };
}

impl Modules {
    fn new(alloc: Global) -> Modules
        ensures { result ≡ [] }
    {
        Modules {
            names: Vec::new(alloc),
            places: BTreeMap::new(alloc),
        }
    }

    /// The place of the first module of this name.
    pub fn find(&self, name: u32) -> Option<usize>
        ensures { result ≡ place_of self.now name }
    {
        self.places.get(&name).copied()
    }

    /// Puts a module of this name last.
    fn put(&mut self, name: u32) -> Result<(), NoMemory>
        ensures { OnOk result (self.new ≡ self.old ++ name ∷ []) }
    {
        let place = self.find(name).unwrap_or(self.names.len());
        self.names.reserve(1)?;
        self.places.insert(name, place)?;
        self.names.push(name)?;
        Ok(())
    }

    /// The modules of a program.
    pub fn of(alloc: Global, p: &Program) -> Result<Modules, NoMemory>
        ensures { IfOk result (λ t. t ≡ spec.module_names p.now) }
    {
        let mut modules = Modules::new(alloc);
        for m in p.modules.as_slice() {
            modules.put(m.name.name)?;
        }
        Ok(modules)
    }
}
